//! What holds of each command.

ghost use Rattle.std.specs.Prelude.{ℕ, List};
ghost use Rattle.imap_answer.specs.Alike.{AnswersAlike};
ghost use Rattle.imap_list.specs.ListCommand.{ListArguments, list_answer};
ghost use Rattle.imap_list.specs.Namespaces.{NamespacesArePrinted};
ghost use Rattle.imap_list.specs.Status.{status_answer};
ghost use Rattle.imap_list.specs.Subscriptions.{subscribe_answer, unsubscribe_answer};
ghost use Rattle.imap_query.specs.declared.status.StatusItem.{StatusItem};

/// The response to NAMESPACE has the prefixes of [`imap_names::namespaces`].
pub fn namespaces_are_printed()
    ensures { NamespacesArePrinted }
{}

/// In two worlds that are alike to its user each command is answered alike, and leaves them alike to
/// that user.
pub fn commands_are_alike()
    ensures list { (tag : List ℕ) (arguments : ListArguments)
        → AnswersAlike (λ view. list_answer view tag arguments) }
    ensures status { (tag mailbox : List ℕ) (items : List StatusItem)
        → AnswersAlike (λ view. status_answer view tag mailbox items) }
    ensures subscribe { (tag mailbox : List ℕ) → AnswersAlike (λ view. subscribe_answer view tag mailbox) }
    ensures unsubscribe { (tag mailbox : List ℕ)
        → AnswersAlike (λ view. unsubscribe_answer view tag mailbox) }
{}
