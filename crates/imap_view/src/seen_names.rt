//! Mailboxes that a user sees, one after another.

ghost use Rattle.std.specs.Prelude.{◌≡◌, [], ◌∷◌, MatchOption};
ghost use Rattle.imap_view.specs.Listing.{seen_among};
ghost use Rattle.imap_view.specs.Seen.{shown};

use crate::seen::Seen;
use crate::view::View;
use imap_names::Name;
use imap_world::MailboxEntry;
use std::marker::Model;

/// The mailboxes that the user sees, in the order of their names. From [`View::seen_names`].
///
/// Contracts see those that are left.
#[derive(Drop)]
pub struct SeenNames<'a> {
    pub(crate) from: View<'a>,
    pub(crate) mailboxes: &'a [(Name, MailboxEntry)],
}

impl<'a> Model for SeenNames<'a> {
    ghost use Rattle.std.specs.Prelude.{List};
    ghost use Rattle.imap_names.specs.Name.{Name};
    ghost use Rattle.imap_view.specs.Listing.{seen_among, seen_names_code};
    ghost use Rattle.imap_view.specs.Seen.{Seen};

    ghost Value = { List (Name × Seen) };

    ghost coded = { seen_names_code };

    ghost view = { λ names. seen_among names.from names.mailboxes.now };
}

impl<'a> Iterator for SeenNames<'a> {
    ghost use Rattle.std.specs.Iterator.{YieldsFirstBy, item_count};
    ghost use Rattle.imap_view.specs.Seen.{shown};

    type Item = (&'a Name, Seen<'a>);

    ghost next_gives = { YieldsFirstBy (λ item. (item.0.now, shown item.1)) (λ names. names) };

    ghost remaining = { item_count (λ names. names) };

    fn next(&mut self) -> Option<(&'a Name, Seen<'a>)> {
        let (name, seen, later) = next_seen(&self.from, self.mailboxes)?;
        self.mailboxes = later;
        Some((name, seen))
    }
}

/// The first mailbox that the user sees, and those after it.
fn next_seen<'a>(
    view: &View<'a>,
    mailboxes: &'a [(Name, MailboxEntry)],
) -> Option<(&'a Name, Seen<'a>, &'a [(Name, MailboxEntry)])>
    ensures { let names = seen_among view.now mailboxes.now in
        MatchOption result (names ≡ [])
        (λ found. names ≡ (found.0.now, shown found.1) ∷ seen_among view.now found.2.now) }
{
    let mut rest = mailboxes;
    while let Some((first, later)) = rest.split_first() {
        match view.seen_of(&first.0.as_ref(), &first.1) {
            Some(seen) => return Some((&first.0, seen, later)),
            None => rest = later,
        }
    }
    None
}
