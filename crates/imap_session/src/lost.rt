//! Sessions that have lost their mailbox.

ghost use Rattle.std.specs.Prelude.{◌≡◌};
ghost use Rattle.imap_session.specs.Lost as specs;
ghost use Rattle.imap_session.specs.State.{state_of};

use crate::session::Session;
use imap_listing::View;

impl Session {
    /// Whether the user may not read the selected mailbox any more, or another one has its name.
    pub fn is_lost(&self, view: &View<'_>) -> bool
        ensures { result ≡ specs.is_lost view.now (state_of self.now) }
    {
        match &self.selected {
            Some(selected) => match view.readable(&selected.name.as_ref()) {
                Some(mailbox) => mailbox.validity != selected.validity,
                None => true,
            },
            None => false,
        }
    }
}
