//! What holds of SELECT and EXAMINE with parameters.

ghost use Rattle.std.specs.Prelude.{ℕ, List, Bool};
ghost use Rattle.imap_answer.specs.Alike.{AnswersAlike};
ghost use Rattle.imap_commands.specs.declared.commands.select.SelectParameters.{SelectParameters};
ghost use Rattle.imap_resync.specs.Client.{ClientIsBroughtUp, SelectResyncs};
ghost use Rattle.imap_resync.specs.Select.{select_with_parameters};
ghost use Rattle.imap_targets.specs.State.{SessionState};

/// A client that held what the first events gave, and follows the lines of SELECT with QRESYNC, holds the UIDs and
/// flags that a fetch of all messages gives (RFC 7162, section 3.2.5).
pub fn client_is_brought_up()
    ensures { ClientIsBroughtUp }
{}

/// The lines of SELECT with QRESYNC are those without parameters, and then those of QRESYNC.
pub fn select_resyncs()
    ensures { SelectResyncs }
{}

/// In two worlds that are alike to its user SELECT is answered alike, and leaves them alike to that user.
pub fn commands_are_alike()
    ensures { (own : SessionState) (tag : List ℕ) (read_only : Bool) (mailbox : List ℕ)
        (parameters : SelectParameters)
        → AnswersAlike (λ view. (select_with_parameters view own tag read_only mailbox parameters).answer) }
{}
