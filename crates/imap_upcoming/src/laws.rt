//! What holds of mailboxes as a change will leave them. The functions do nothing: their contracts are the
//! laws.

ghost use Rattle.imap_upcoming.specs.InStep.{OwnChangesKeepInStep};

/// A mailbox that a user may read before and after a change of that user's own keeps its UIDVALIDITY, and a
/// session that was in step with it is so afterwards, up to the same mod-sequence.
pub fn own_changes_keep_in_step()
    ensures { OwnChangesKeepInStep }
{}
