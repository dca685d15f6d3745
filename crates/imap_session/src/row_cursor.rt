//! The messages of a mailbox, one after another.

ghost use Rattle.std.specs.Prelude.{◌≡◌, ◌<◌, ◌∷◌, List, length, drop, IfOk, if◌then◌else◌};
ghost use Rattle.imap_mailbox.specs.Rows.{Row};
ghost use Rattle.imap_mailbox.specs.Brought.{told_of};
ghost use Rattle.imap_session.specs.ByUid.{AgreeByUid};
ghost use Rattle.imap_session.specs.Cursors.{is_next, is_unchanged, IsKnownRun};

use crate::known_list::KnownList;
use imap_mailbox::KnownMessage;
use std::alloc::{AllocError, Global};

/// The messages of a mailbox as a user has them, in the order of UIDs: those that are there, or those that
/// will be there after a change. Contracts see the rows from the next one on.
pub trait RowCursor {
    ghost rest: { Self → List Row };

    /// Returns the number of messages from the next one on.
    fn len(&self) -> usize
        ensures { result ≡ length (rest self.now) };

    /// Whether there is a next message, and has the UID.
    fn is_next(&self, uid: u32) -> bool
        ensures { result ≡ is_next uid (rest self.now) };

    /// Moves past the next message if it has the UID and its mod-sequence is not above `number`. Returns
    /// whether it did.
    fn skip_unchanged(&mut self, uid: u32, number: u64) -> bool
        ensures unchanged { result ≡ is_unchanged uid number (rest self.old) }
        ensures rest { rest self.new ≡ (if result then drop 1 (rest self.old) else rest self.old) };

    /// Moves past next messages that have the UIDs of `known` from `place` on, and mod-sequences that aren't above
    /// `number`, and returns how many: a run of which this is quick to tell without a look at each, and which may
    /// be shorter than it could be, or 0. The session was told all up to the mod-sequence `number`.
    fn skip_known(&mut self, known: &KnownList, place: usize, number: u64) -> usize
        requires agree { AgreeByUid number (drop place known.now.list) (rest self.old) }
        ensures known { IsKnownRun number result (drop place known.now.list) (rest self.old) }
        ensures rest { rest self.new ≡ drop result (rest self.old) };

    /// Returns the UID of the next message.
    fn uid(&self) -> u32
        requires { 0 < length (rest self.now) }
        ensures { (r : Row) (later : List Row) → rest self.now ≡ r ∷ later → result ≡ r.uid };

    /// Returns what a session is told of the next message.
    fn message(&self, alloc: Global) -> Result<KnownMessage, AllocError>
        requires { 0 < length (rest self.now) }
        ensures { IfOk result (λ message. (r : Row) (later : List Row) → rest self.now ≡ r ∷ later
            → message ≡ told_of r) };

    /// Moves past the next message, if there is one.
    fn skip(&mut self)
        ensures { rest self.new ≡ drop 1 (rest self.old) };
}
