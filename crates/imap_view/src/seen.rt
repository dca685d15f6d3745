//! A mailbox, as one user sees it.

ghost use Rattle.std.specs.Prelude.{◌≡◌, Some, option_copied, option_map};
ghost use Rattle.imap_world.specs.Brought.{highest_in};
ghost use Rattle.imap_world.specs.MailboxOrder.{AreGoneInOrder, AreRowsInOrder};
ghost use Rattle.imap_world.specs.Shown.{Content};
ghost use Rattle.imap_world.specs.Rights.{bits};
ghost use Rattle.imap_view.specs.Seen as specs;
ghost use Rattle.imap_view.specs.Seen.{shown};

use imap_names::UserName;
use imap_world::{Acl, GoneUids, Mailbox, MailboxEntry, Rights, Rows, Site};

/// A mailbox that a user sees. It has nothing to do with the flag `\Seen`.
#[derive(Drop)]
pub struct Seen<'a> {
    pub(crate) rights: Rights,
    pub(crate) mailbox: &'a MailboxEntry,
    pub(crate) site: &'a Site,
    pub(crate) user: &'a UserName,
}

impl<'a> Seen<'a> {
    /// The user's effective rights (RFC 4314, section 2).
    pub fn rights(&self) -> Rights
        ensures { bits result ≡ (shown self.now).rights }
    {
        self.rights
    }

    /// The access control list, if the user holds `a`.
    pub fn acl(&self) -> Option<&'a Acl>
        ensures { option_copied result ≡ (shown self.now).acl }
    {
        if self.rights.has_any(Rights::ADMINISTER) {
            Some(&self.mailbox.acl)
        } else {
            None
        }
    }

    /// UIDVALIDITY (RFC 9051, section 2.3.1.1), if the user holds `r` or `a`.
    pub fn validity(&self) -> Option<u32>
        ensures { result ≡ (shown self.now).validity }
    {
        if self.shows_messages() {
            Some(self.mailbox.validity)
        } else {
            None
        }
    }

    /// UIDNEXT (RFC 9051, section 2.3.1.1), if the user holds `r` or `a`.
    pub fn next_uid(&self) -> Option<u32>
        ensures { result ≡ option_map (λ c. c.next) (shown self.now).messages.content }
    {
        if self.shows_messages() {
            Some(self.messages().next_uid())
        } else {
            None
        }
    }

    /// HIGHESTMODSEQ for the user (RFC 7162, section 3.1.2.1), if the user holds `r` or `a`.
    pub fn highest(&self) -> Option<u64>
        ensures { result ≡ option_map highest_in (shown self.now).messages.content }
    {
        if self.shows_messages() {
            Some(self.messages().highest(self.user.as_str()))
        } else {
            None
        }
    }

    /// The messages as the user has them, if the user holds `r` or `a`.
    #[tactic(auto, using(crate::proofs::Ordered::rows_if_shown))]
    pub fn rows(&self) -> Option<Rows<'a>>
        ensures rows { result ≡ option_map (λ c. c.rows) (shown self.now).messages.content }
        ensures valid { (c : Content) → (shown self.now).messages.content ≡ Some c
            → AreRowsInOrder c.next (highest_in c) c.rows }
    {
        if self.shows_messages() {
            Some(self.messages().rows(self.user.as_str()))
        } else {
            None
        }
    }

    /// The messages that were expunged, with their mod-sequences for the user, if the user holds `r` or `a`.
    #[tactic(auto, using(crate::proofs::Ordered::gone_if_shown))]
    pub fn gone(&self) -> Option<GoneUids<'a>>
        ensures gone { result ≡ option_map (λ c. c.gone) (shown self.now).messages.content }
        ensures valid { (c : Content) → (shown self.now).messages.content ≡ Some c
            → AreGoneInOrder c.next (highest_in c) c.gone }
    {
        if self.shows_messages() {
            Some(self.messages().gone(self.user.as_str()))
        } else {
            None
        }
    }

    /// How many messages may be added, if the user holds `r`, `i` or `a`.
    pub fn room(&self) -> Option<u64>
        ensures { result ≡ (shown self.now).messages.room }
    {
        if self.shows_room() {
            Some(self.messages().room(self.site.limits.max_messages))
        } else {
            None
        }
    }

    /// Whether the user holds `r` or `a`.
    fn shows_messages(&self) -> bool
        ensures { result ≡ specs.shows_messages (bits self.now.rights) }
    {
        self.rights.has_any(Rights::READ) || self.rights.has_any(Rights::ADMINISTER)
    }

    /// Whether the user holds `r`, `i` or `a`.
    fn shows_room(&self) -> bool
        ensures { result ≡ specs.shows_room (bits self.now.rights) }
    {
        self.rights.has_any(Rights::READ)
            || (self.rights.has_any(Rights::INSERT) || self.rights.has_any(Rights::ADMINISTER))
    }

    pub(crate) fn messages(&self) -> &'a Mailbox
        ensures { result.now ≡ self.now.mailbox.now.messages.value }
    {
        self.mailbox.messages.as_ref()
    }
}
