//! What holds of each command.

ghost use Rattle.std.specs.Prelude.{ℕ, List, Option};
ghost use Rattle.imap_names.specs.Name.{Name};
ghost use Rattle.imap_answer.specs.Alike.{AnswersAlike};
ghost use Rattle.imap_tree.specs.Create.{create_answer};
ghost use Rattle.imap_tree.specs.Delete.{delete_answer};
ghost use Rattle.imap_tree.specs.GetAcl.{get_acl_answer};
ghost use Rattle.imap_tree.specs.ListRights.{list_rights_answer};
ghost use Rattle.imap_tree.specs.MyRights.{my_rights_answer};
ghost use Rattle.imap_tree.specs.Rename.{rename_answer};
ghost use Rattle.imap_tree.specs.SetAcl.{delete_acl_answer, set_acl_answer};

/// In two worlds that are alike to its user each command is answered alike, and leaves them alike to
/// that user, though hidden mailboxes may differ and move.
pub fn commands_are_alike()
    ensures create { (tag mailbox : List ℕ) → AnswersAlike (λ view. create_answer view tag mailbox) }
    ensures delete { (selected : Option Name) (tag mailbox : List ℕ)
        → AnswersAlike (λ view. delete_answer view selected tag mailbox) }
    ensures rename { (selected : Option Name) (tag old new : List ℕ)
        → AnswersAlike (λ view. rename_answer view selected tag old new) }
    ensures set_acl { (tag mailbox identifier rights : List ℕ)
        → AnswersAlike (λ view. set_acl_answer view tag mailbox identifier rights) }
    ensures delete_acl { (tag mailbox identifier : List ℕ)
        → AnswersAlike (λ view. delete_acl_answer view tag mailbox identifier) }
    ensures get_acl { (tag mailbox : List ℕ) → AnswersAlike (λ view. get_acl_answer view tag mailbox) }
    ensures list_rights { (tag mailbox identifier : List ℕ)
        → AnswersAlike (λ view. list_rights_answer view tag mailbox identifier) }
    ensures my_rights { (tag mailbox : List ℕ) → AnswersAlike (λ view. my_rights_answer view tag mailbox) }
{}
