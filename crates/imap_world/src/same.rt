//! Whether two mailboxes are one.
//!
//! Each key of one world is looked up in the other, both ways, and no two lists are walked side by side: so
//! tables of users and sorted names have one proof. A look-up among names begins at the place in the other
//! list, and costs one comparison if the names are the same.

ghost use Rattle.std.specs.Prelude.{◌≡◌, ◌↔◌, IsTrue, Option, option_and_then};
ghost use Rattle.imap_world.specs.Mailbox.{plain};

use crate::mailbox_entry::MailboxEntry;
use imap_user_map::Part;
use imap_values::same_two;

impl Part for MailboxEntry {
    ghost use Rattle.std.specs.Prelude.{Some};
    ghost use Rattle.imap_world.specs.Mailbox.{Mailbox, plain};

    ghost Kept = { Mailbox };

    ghost kept = { λ entry. Some (plain entry) };

    fn is_same_part(&self, other: Option<&MailboxEntry>) -> bool {
        match other {
            Some(other) => is_same_mailbox(self, other),
            None => false,
        }
    }
}

/// Whether both are one mailbox, whatever their room.
fn is_same_mailbox(mailbox: &MailboxEntry, other: &MailboxEntry) -> bool
    ensures { IsTrue result ↔ (plain mailbox.now ≡ plain other.now) }
{
    same_two(&mailbox.validity, &other.validity, &mailbox.acl, &other.acl)
        && mailbox.messages.as_ref().is_same(other.messages.as_ref())
}
