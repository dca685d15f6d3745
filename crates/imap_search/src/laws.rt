//! Theorems on the definitions that the contracts cite. The functions do nothing.

ghost use Rattle.std.specs.Prelude.{ℕ, List};
ghost use Rattle.imap_answer.specs.Alike.{AnswersAlike};
ghost use Rattle.imap_search.specs.Search.{SearchArguments, search_answer};
ghost use Rattle.imap_search.specs.Tokens.{TokensFind};
ghost use Rattle.imap_search.specs.Within.{WithinIsTested};
ghost use Rattle.imap_targets.specs.State.{SessionState};

/// In two worlds that are alike to its user the command is answered alike, and leaves them alike to that user.
pub fn commands_are_alike()
    ensures { (own : SessionState) (tag : List ℕ) (arguments : SearchArguments)
        → AnswersAlike (λ view. search_answer view own tag arguments) }
{}

/// A message is found by the tokens of some keys exactly if each of the keys, read as a tree, finds it.
pub fn tokens_find()
    ensures { TokensFind }
{}

/// The test for a text in another one is true exactly if the second is the first with something, or nothing,
/// before and after it.
pub fn within_is_tested()
    ensures { WithinIsTested }
{}
