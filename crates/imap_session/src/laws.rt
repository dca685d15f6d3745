//! What holds of notices and known lists.
ghost use Rattle.imap_session.specs.Laws.{ToldIsThere, ToldIfDifferent, AllKnownIsQuiet, AlikeIsToldAlike};
ghost use Rattle.imap_session.specs.Laws.{ChangesAreApplied, ToldOnce};
ghost use Rattle.imap_session.specs.ByUid.{LaterByUid};
ghost use Rattle.imap_session.specs.Listed.{ClientFollowsList, NoticesAreByList, NoticesLeaveList};
ghost use Rattle.imap_session.specs.InStep.{InStepIsQuiet, NoticesKeepInStep};
ghost use Rattle.imap_session.specs.Following.{ClientFollows, ClientHoldsMailbox};
ghost use Rattle.imap_session.specs.Told.{NotesWhatIsTold, NoticesKeepSelectionInStep, NoticesTellSelection};
ghost use Rattle.imap_session.specs.Told.{UntoldIsSilent, SelectingIsInStep};
ghost use Rattle.imap_session.specs.State.{selection_of};

use crate::known_list::KnownList;
use crate::session::Selected;

/// If expunges may be told, the session knows the messages of the mailbox after notices.
pub fn told_is_there()
    ensures { ToldIsThere }
{}

/// Nothing is told exactly if nothing differs: then the known list stays, and no message is changed.
pub fn told_if_different()
    ensures { ToldIfDifferent }
{}

/// A session that knows all messages of the mailbox, and was told all of them, is told nothing.
pub fn all_known_is_quiet()
    ensures { AllKnownIsQuiet }
{}

/// Notices depend on what the session knows, and on the UIDs, flags and mod-sequences of the rows, alone.
pub fn alike_is_told_alike()
    ensures { AlikeIsToldAlike }
{}

/// The change that notices make of a known list gives what the session knows after them.
pub fn changes_are_applied(known: &KnownList)
    ensures { ChangesAreApplied known.now.list }
{
    let _ = known.len();
}

/// A session that was brought up to a mod-sequence stays so while the mailbox changes.
pub fn later_by_uid()
    ensures { LaterByUid }
{}

/// A session in step that was told all up to HIGHESTMODSEQ has nothing to be told, but for expunges that were
/// held back.
pub fn in_step_is_quiet()
    ensures { InStepIsQuiet }
{}

/// Notices keep a session in step, up to HIGHESTMODSEQ.
pub fn notices_keep_in_step()
    ensures { NoticesKeepInStep }
{}

/// A client that follows EXPUNGE or VANISHED, EXISTS and FETCH lines holds what the session knows. Of messages
/// that EXISTS alone tells it knows that they are there.
///
/// This is said of one step of notices. It asks that the client held the UIDs that the session knew, and the flags of
/// messages that didn't change since, which it doesn't of a message that only EXISTS told it of.
pub fn client_follows()
    ensures { ClientFollows }
{}

/// If expunges may be told, it holds the messages of the mailbox after that step, but for what it doesn't know of
/// new ones.
pub fn client_holds_mailbox()
    ensures { ClientHoldsMailbox }
{}

/// What a command's own lines told is not told again, and all else is.
pub fn told_once()
    ensures { ToldOnce }
{}

/// [`crate::Session::tell`] notes what the session is told of the selected mailbox.
pub fn session_notes_what_is_told()
    ensures { NotesWhatIsTold }
{}

/// A session that was in step with its mailbox is so after [`crate::Session::notices`]: up to HIGHESTMODSEQ
/// if it was told anything, and else as before.
pub fn session_stays_in_step()
    ensures { NoticesKeepSelectionInStep }
{}

/// If expunges may be told, a session knows the messages of its mailbox after [`crate::Session::notices`], and was
/// told all of each.
pub fn session_knows_mailbox(selected: &Selected)
    ensures { NoticesTellSelection (selection_of selected.now) }
{
    let _ = selected.known.len();
}

/// A session that is told nothing is given no line.
pub fn untold_session_is_silent()
    ensures { UntoldIsSilent }
{}

/// A session that selects a mailbox is in step with it.
pub fn selecting_is_in_step()
    ensures { SelectingIsInStep }
{}

/// Notices are the difference of the messages that are there and of the list of messages as the session was last told
/// of each, with its flags and its mod-sequence, though it keeps UIDs and one mod-sequence alone.
pub fn notices_are_by_list()
    ensures { NoticesAreByList }
{}

/// After notices the session was told of each message as it is, and of no other one if expunges may be told: the list
/// is that of the messages that are there, with their flags and mod-sequences.
pub fn notices_leave_list()
    ensures { NoticesLeaveList }
{}

/// A client that holds the messages as the session was told of them, and follows the lines, holds those that are still
/// there as they are, and knows that new ones are there. Nothing is asked of the messages that are there.
pub fn client_follows_list()
    ensures { ClientFollowsList }
{}
