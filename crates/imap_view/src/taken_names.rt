//! Names in use, one after another.

ghost use Rattle.std.specs.Prelude.{◌≡◌, [], ◌∷◌, MatchOption};
ghost use Rattle.imap_view.specs.Listing.{known_among};

use crate::view::View;
use imap_names::Name;
use imap_world::MailboxEntry;
use std::marker::Model;

/// The names in use below a name, as far as the user may know, in the order of names. From
/// [`View::taken_names`].
///
/// Contracts see the names that are left.
#[derive(Drop)]
pub struct TakenNames<'a> {
    pub(crate) from: View<'a>,
    pub(crate) mailboxes: &'a [(Name, MailboxEntry)],
}

impl<'a> Model for TakenNames<'a> {
    ghost use Rattle.std.specs.Prelude.{List};
    ghost use Rattle.imap_names.specs.Name.{Name};
    ghost use Rattle.imap_view.specs.Listing.{known_among};

    ghost Value = { List Name };

    ghost view = { λ names. known_among names.from names.mailboxes.now };
}

impl<'a> Iterator for TakenNames<'a> {
    ghost use Rattle.std.specs.Iterator.{YieldsFirstRef, item_count};

    type Item = &'a Name;

    ghost next_gives = { YieldsFirstRef (λ names. names) };

    ghost remaining = { item_count (λ names. names) };

    fn next(&mut self) -> Option<&'a Name> {
        let (name, later) = next_known(&self.from, self.mailboxes)?;
        self.mailboxes = later;
        Some(name)
    }
}

/// The first mailbox of which the user may know that it is there, and those after it.
fn next_known<'a>(
    view: &View<'a>,
    mailboxes: &'a [(Name, MailboxEntry)],
) -> Option<(&'a Name, &'a [(Name, MailboxEntry)])>
    ensures { let names = known_among view.now mailboxes.now in
        MatchOption result (names ≡ []) (λ found. names ≡ found.0.now ∷ known_among view.now found.1.now) }
{
    let mut rest = mailboxes;
    while let Some((first, later)) = rest.split_first() {
        if view.may_know_name(&first.0.as_ref()) {
            return Some((&first.0, later));
        }
        rest = later;
    }
    None
}
