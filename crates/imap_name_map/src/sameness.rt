//! Whether the same is kept of two lists of entries.

ghost use Rattle.std.specs.Prelude.{◌≡◌, ◌↔◌, IsTrue, Option, option_and_then, option_copied};
ghost use Rattle.std.specs.FinMap.Entries.{is_sorted, find};
ghost use Rattle.imap_names.specs.Order.{name_cmp};
ghost use Rattle.imap_name_map.specs.Kept.{AreWithin};

use crate::name_map::NameMap;
use crate::places::place_near;
use imap_names::{Name, NameRef};
use imap_user_map::Part;

/// The value of `name`. Takes one comparison if the name is the one at `place`.
fn find_near<'a, V>(entries: &'a [(Name, V)], place: usize, name: &NameRef<'_>) -> Option<&'a V>
    requires { IsTrue (is_sorted name_cmp entries.now) }
    ensures { option_copied result ≡ find name_cmp name.now entries.now }
{
    let found = place_near(entries, place, name);
    if found < entries.len() {
        Some(&entries[found].1)
    } else {
        None
    }
}

/// Whether of each value the same is kept as of the name's value in `others`. It takes one comparison a name
/// if the names are the same.
pub(crate) fn are_within<V: Part>(entries: &[(Name, V)], others: &[(Name, V)]) -> bool
    requires sorted { IsTrue (is_sorted name_cmp entries.now) }
    requires others { IsTrue (is_sorted name_cmp others.now) }
    ensures { IsTrue result ↔ AreWithin V.kept entries.now others.now }
{
    let mut place = 0;
    for (name, value) in entries {
        if !value.is_same_part(find_near(others, place, &name.as_ref())) {
            return false;
        }
        place += 1;
    }
    true
}

/// Nothing is kept of a set without names.
impl Part for NameMap<()> {
    ghost use Rattle.imap_names.specs.Order.{Names};
    ghost use Rattle.imap_name_map.specs.Kept.{if_filled};

    ghost Kept = { Names (Unit {0}) };

    ghost kept = { λ rows. if_filled rows.map };

    fn is_same_part(&self, other: Option<&NameMap<()>>) -> bool {
        match other {
            Some(other) => self.is_same(other),
            None => self.is_empty(),
        }
    }
}
