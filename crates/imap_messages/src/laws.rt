//! What holds of each command.

ghost use Rattle.std.specs.Prelude.{ℕ, List};
ghost use Rattle.imap_answer.specs.Alike.{AnswersAlike};
ghost use Rattle.imap_messages.specs.Append.{AppendArguments, append_answer};
ghost use Rattle.imap_messages.specs.Fetch.{FetchArguments, fetch_answer};
ghost use Rattle.imap_messages.specs.Told.{FetchedMessagesAreTold};
ghost use Rattle.imap_targets.specs.State.{SessionState};
ghost use Rattle.imap_syntax.specs.Moments.{Moment};

/// In two worlds that are alike to its user each command is answered alike, and leaves them alike to that
/// user.
pub fn commands_are_alike()
    ensures append { (tag : List ℕ) (at : Moment) (arguments : AppendArguments)
        → AnswersAlike (λ view. append_answer view tag at arguments) }
    ensures fetch { (own : SessionState) (tag : List ℕ) (arguments : FetchArguments)
        → AnswersAlike (λ view. fetch_answer view own tag arguments) }
{}

/// Each message that FETCH says that it told, so that notices pass it over, has a line with its flags as the command
/// leaves them, and with its mod-sequence where these are sent.
pub fn fetched_messages_are_told()
    ensures { FetchedMessagesAreTold }
{}
