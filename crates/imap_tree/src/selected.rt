//! The mailbox that the session has selected.

ghost use Rattle.std.specs.Prelude.{◌≡◌, option_copied};
ghost use Rattle.imap_tree.specs.Selected as specs;

use imap_names::Name;

/// Whether the session has selected the mailbox of this name, or one below it.
pub(crate) fn is_selected(selected: Option<&Name>, name: &Name) -> bool
    ensures { result ≡ specs.is_selected (option_copied selected.entry) name.now }
{
    match selected {
        Some(selected) => selected.as_ref().compare_to_run(&name.as_ref()).is_eq(),
        None => false,
    }
}
