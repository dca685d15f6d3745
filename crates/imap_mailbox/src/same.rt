//! Whether two mailboxes hold the same.

ghost use Rattle.std.specs.Prelude.{◌≡◌, ◌↔◌, IsTrue, Option, Some, option_and_then};
ghost use Rattle.imap_mailbox.specs.Owned.{if_any};

use crate::kept_change::KeptChange;
use crate::message::{GoneMessage, Message};
use crate::own::OwnSeen;
use imap_user_map::Part;
use imap_values::{Same, same_five, same_four, same_two};

impl Same for Message {
    fn is_same(&self, other: &Message) -> bool {
        same_five(
            &self.uid,
            &other.uid,
            &self.date,
            &other.date,
            &self.octets,
            &other.octets,
            &self.flags,
            &other.flags,
            &self.place,
            &other.place,
        )
    }
}

impl Same for GoneMessage {
    fn is_same(&self, other: &GoneMessage) -> bool {
        same_two(&self.uid, &other.uid, &self.place, &other.place)
    }
}

impl Same for KeptChange {
    fn is_same(&self, other: &KeptChange) -> bool {
        same_four(
            &self.place,
            &other.place,
            &self.before,
            &other.before,
            &self.uid,
            &other.uid,
            &self.seen,
            &other.seen,
        )
    }
}

impl Part for OwnSeen {
    ghost use Rattle.imap_mailbox.specs.Own.{Own};
    ghost use Rattle.imap_mailbox.specs.Owned.{if_any};

    ghost Kept = { Own };

    ghost kept = { λ o. if_any o.own };

    // No changes only hold room.
    fn is_same_part(&self, other: Option<&OwnSeen>) -> bool {
        match other {
            Some(other) => self.has_same(other),
            None => self.is_empty(),
        }
    }
}
