//! What holds of each command.

ghost use Rattle.std.specs.Prelude.{ℕ, List, Option};
ghost use Rattle.imap_answer.specs.Alike.{AnswersAlike};
ghost use Rattle.imap_changes.specs.CopyLaws.{CopiesAreAppended, MovesAddFirst};
ghost use Rattle.imap_changes.specs.Expunge.{close_answer, expunge_answer};
ghost use Rattle.imap_changes.specs.Laws.{ExpungesAll, ExpungesDeleted, SilentStoreTellsOthersChanges};
ghost use Rattle.imap_changes.specs.Laws.{SkippedMessagesStay, StoreTellsWhatItLeaves};
ghost use Rattle.imap_changes.specs.Store.{StoreArguments, store_answer};
ghost use Rattle.imap_changes.specs.Transfer.{TransferArguments, transfer_answer};
ghost use Rattle.imap_targets.specs.State.{SessionState};
ghost use Rattle.imap_syntax.specs.declared.set.MessageSet.{MessageSet};

/// In two worlds that are alike to its user each command is answered alike, and leaves them alike to that
/// user.
pub fn commands_are_alike()
    ensures expunge { (own : SessionState) (tag : List ℕ) (set : Option MessageSet)
        → AnswersAlike (λ view. expunge_answer view own tag set) }
    ensures store { (own : SessionState) (tag : List ℕ) (arguments : StoreArguments)
        → AnswersAlike (λ view. store_answer view own tag arguments) }
    ensures close { (own : SessionState) (tag : List ℕ)
        → AnswersAlike (λ view. close_answer view own tag) }
    ensures transfer { (own : SessionState) (tag : List ℕ) (arguments : TransferArguments)
        → AnswersAlike (λ view. transfer_answer view own tag arguments) }
{}

/// EXPUNGE and UID EXPUNGE take messages with `\Deleted` that the session knows, and that the set names if there
/// is one, and no others; and all of these, if the mailbox has an event left for each of its messages.
pub fn deleted_messages_are_expunged()
    ensures only { ExpungesDeleted }
    ensures all { ExpungesAll }
{}

/// The lines of a STORE that isn't silent tell each message that it stores with the flags and the mod-sequence that
/// its user sees afterwards, if the user's own changes suffice, without which STORE is refused.
pub fn stored_messages_are_told()
    ensures { StoreTellsWhatItLeaves }
{}

/// A STORE, silent or not, tells each message that it stores with the flags and the mod-sequence that its user sees
/// afterwards, if the session was not told all of it before. Of others a silent one tells the mod-sequence alone, with
/// CONDSTORE.
pub fn others_changes_are_told()
    ensures { SilentStoreTellsOthersChanges }
{}

/// A message with a mod-sequence greater than the number of UNCHANGEDSINCE is after STORE as it was before.
pub fn skipped_messages_stay()
    ensures { SkippedMessagesStay }
{}

/// Copies stand after the messages that were there, in the order of the messages that are copied. They have the
/// octets and internal dates of these, and the UIDs from UIDNEXT on. Octets, dates and UIDs of the messages that
/// were there stay.
pub fn copies_are_appended()
    ensures { CopiesAreAppended }
{}

/// MOVE adds all copies before it expunges a message, also within one mailbox. Between two mailboxes it is one
/// change of both.
pub fn moves_add_first()
    ensures { MovesAddFirst }
{}
