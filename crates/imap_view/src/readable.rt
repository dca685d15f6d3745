//! A mailbox that a user may read.

ghost use Rattle.std.specs.Prelude.{◌≡◌, ◌≤◌, IfSome};
ghost use Rattle.imap_world.specs.MailboxOrder.{AreRowsInOrder};
ghost use Rattle.imap_modseq.specs.Numbers.{max_events, max_number};
ghost use Rattle.imap_view.specs.Readable as specs;
ghost use Rattle.imap_view.specs.Seen.{shown};

use crate::seen::Seen;
use crate::view::View;
use imap_names::NameRef;
use imap_world::{Rights, Rows};

/// What a user who may read a mailbox sees of its messages.
#[derive(Drop)]
pub struct Readable<'a> {
    /// UIDVALIDITY (RFC 9051, section 2.3.1.1).
    pub validity: u32,
    /// UIDNEXT (RFC 9051, section 2.3.1.1).
    pub next_uid: u32,
    /// HIGHESTMODSEQ for the user (RFC 7162, section 3.1.2.1).
    pub highest: u64,
    /// The number of changes of the user's own `\Seen`.
    pub own: u64,
    /// The messages as the user has them.
    pub rows: Rows<'a>,
}

impl<'a> Seen<'a> {
    /// What the user sees of the messages, if the user holds `r`.
    pub fn readable(&self) -> Option<Readable<'a>>
        ensures readable { result ≡ specs.readable_of (shown self.now) }
        ensures valid { IfSome result (λ r. AreRowsInOrder r.next_uid r.highest r.rows) }
        ensures few { IfSome result (λ r. r.own ≤ max_events) }
        ensures bounded { IfSome result (λ r. r.highest ≤ max_number) }
    {
        if !self.rights.has_any(Rights::READ) {
            return None;
        }
        let messages = self.messages();
        let user = self.user.as_str();
        Some(Readable {
            validity: self.mailbox.validity,
            next_uid: messages.next_uid(),
            highest: messages.highest(user),
            own: messages.own_len(user),
            rows: messages.rows(user),
        })
    }
}

impl<'a> View<'a> {
    /// The mailbox of this name, if the user may read it.
    pub fn readable(&self, name: &NameRef<'_>) -> Option<Readable<'a>>
        ensures readable { result ≡ specs.readable_in self.now name.now }
        ensures valid { IfSome result (λ r. AreRowsInOrder r.next_uid r.highest r.rows) }
        ensures few { IfSome result (λ r. r.own ≤ max_events) }
        ensures bounded { IfSome result (λ r. r.highest ≤ max_number) }
    {
        match self.seen(name) {
            Some(seen) => seen.readable(),
            None => None,
        }
    }
}
