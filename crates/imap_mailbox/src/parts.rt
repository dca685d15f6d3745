//! What a store keeps of a mailbox.

ghost use Rattle.std.specs.Prelude.{◌≡◌};
ghost use Rattle.std.specs.String.{string_bytes};
ghost use Rattle.imap_mailbox.specs.UserChange.{row_of};

use crate::kept_change::KeptChange;
use crate::message::{GoneMessage, Message};
use crate::own::SeenChange;
use std::alloc::{AllocError, Global};
use std::marker::Model;
use thiserror::Error;

/// An own change of a user, as a store keeps it: with its place among those of the user, from 0. Not all places have a
/// change that is kept.
#[derive(Drop)]
pub struct UserChange {
    pub(crate) user: String,
    pub(crate) place: u64,
    pub(crate) change: SeenChange,
}

impl Model for UserChange {
    ghost use Rattle.std.specs.String.{string_bytes};
    ghost use Rattle.imap_mailbox.specs.UserChange as specs;

    ghost Value = { specs.UserChange };

    ghost coded = { specs.user_change_code };

    ghost view = { λ c. record { user = string_bytes c.user; place = c.place; change = c.change } };
}

/// What a store keeps of a mailbox. Each list may be in any order.
#[derive(Drop)]
pub struct MailboxParts {
    /// UIDNEXT (RFC 9051, section 2.3.1.1).
    pub next: u32,
    /// The number of shared events.
    pub shared: u64,
    /// The messages that are there.
    pub messages: Vec<Message>,
    /// The messages that were expunged.
    pub gone: Vec<GoneMessage>,
    /// All users' changes of their own `\Seen` that are kept.
    pub own: Vec<UserChange>,
}

/// Why parts are those of no mailbox or world.
#[derive(Clone, Copy, Debug, Error)]
pub enum PartsError {
    /// No mailbox or world has these parts.
    #[error("what the store keeps is damaged")]
    Bad,
    #[error("out of memory")]
    Memory,
}

impl From<AllocError> for PartsError {
    ghost use Rattle.std.specs.Prelude.{◌≡◌};
    ghost use Rattle.imap_mailbox.specs.declared.parts.PartsError.TheVariants.{Memory};

    ghost from_gives = { λ _ error. error ≡ Memory };

    fn from(_error: AllocError) -> PartsError {
        PartsError::Memory
    }
}

impl UserChange {
    /// A change of the user's, at a place among those of the user, from 0.
    pub fn new(user: String, place: u64, change: SeenChange) -> UserChange
        ensures { result ≡ record { user = string_bytes user; place = place; change = change } }
    {
        UserChange {
            user,
            place,
            change,
        }
    }

    /// The change with its place.
    pub(crate) fn row(&self) -> KeptChange
        ensures { result ≡ row_of self.now }
    {
        KeptChange {
            place: self.place,
            before: self.change.before,
            uid: self.change.uid,
            seen: self.change.seen,
        }
    }
}
