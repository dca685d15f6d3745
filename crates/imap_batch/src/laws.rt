//! What holds of every batch. The functions do nothing: their contracts are the laws.

ghost use Rattle.imap_batch.specs.Laws.{WritesMayBeMade, BatchesKeep, BatchIsSeen, PossibleIsMade};
ghost use Rattle.imap_batch.specs.Laws.{AnothersSeenIsHidden, EmptyChangesNothing};
ghost use Rattle.imap_batch.specs.Entered.{OwnRowsFollow, WritesAreEntered};
ghost use Rattle.imap_batch.specs.Events.{BatchesAreEvents};
ghost use Rattle.imap_batch.specs.Planned.{BatchIsPlanned};

/// What [`resolve`](crate::resolve) finds for a batch may be written.
pub fn writes_may_be_made()
    ensures { WritesMayBeMade }
{}

/// What a mailbox keeps is kept by a batch. UIDNEXT and the number of shared events don't fall, and a session
/// that was told of the mailbox up to a mod-sequence stays so, for every user.
pub fn batches_keep()
    ensures { BatchesKeep }
{}

/// What a user sees after a batch of that user is a function of what was seen before and of the batch. To one
/// who may not read, added messages are that much less of room and nothing else.
pub fn batch_is_seen()
    ensures { BatchIsSeen }
{}

/// A change that is possible by what a user sees can be made.
pub fn possible_is_made()
    ensures { PossibleIsMade }
{}

/// A batch of another user that changes that user's own `\Seen` alone shows nothing.
pub fn anothers_batch_is_hidden()
    ensures { AnothersSeenIsHidden }
{}

/// A batch that asks for nothing changes nothing.
pub fn empty_changes_nothing()
    ensures { EmptyChangesNothing }
{}

/// The rows that a batch leaves to its user are found along the rows that are there.
pub fn batch_is_planned()
    ensures { BatchIsPlanned }
{}

/// A batch makes the rows that follow from the numbers of its write: messages, changes of flags, own changes,
/// and messages that are gone.
pub fn writes_are_entered()
    ensures { WritesAreEntered }
{}

/// A batch is a list of shared events and own changes of `\Seen` that a mailbox takes one after the other.
/// So what holds of all that may have happened to a mailbox holds after a batch.
pub fn batches_are_events()
    ensures { BatchesAreEvents }
{}

/// The rows of the user's own changes after a batch: those that go are taken out, and the new ones come.
pub fn own_rows_follow()
    ensures { OwnRowsFollow }
{}
