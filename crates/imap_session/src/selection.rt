//! What a session selects.

ghost use Rattle.std.specs.Prelude.{◌≡◌, Some, None, option_map};
ghost use Rattle.imap_session.specs.State.{selection_of};

use crate::session::Selected;
use std::marker::Model;

/// The mailbox that a session has selected after a command, or none. Contracts see it without the room of its
/// known list.
#[derive(Drop)]
pub struct NewSelection(Option<Selected>);

impl Model for NewSelection {
    ghost use Rattle.std.specs.Prelude.{Option, option_map};
    ghost use Rattle.std.specs.Coded.{coded_option};
    ghost use Rattle.imap_session.specs.State.{Selection, selection_code, selection_of};

    ghost Value = { Option Selection };

    ghost coded = { coded_option selection_code };

    ghost view = { λ selection. option_map selection_of selection.0 };
}

impl NewSelection {
    /// The mailbox is selected.
    pub(crate) fn of(selected: Selected) -> NewSelection
        ensures { result ≡ Some (selection_of selected) }
    {
        NewSelection(Some(selected))
    }

    /// No mailbox is selected.
    pub fn none() -> NewSelection
        ensures { result ≡ None }
    {
        NewSelection(None)
    }

    /// The mailbox, if one is selected.
    pub(crate) fn into_selected(self) -> Option<Selected>
        ensures { option_map selection_of result ≡ self }
    {
        let NewSelection(selected) = self;
        selected
    }
}
