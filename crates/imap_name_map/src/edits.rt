//! Changes of lists of entries that are in the order of their names.
ghost use Rattle.std.specs.Prelude.{◌≡◌, ◌+◌, ◌<◌, ◌≤◌, not, vec_len, IsTrue};
ghost use Rattle.std.specs.FinMap.Entries.{is_sorted, put, where_key};
ghost use Rattle.std.specs.Ordering.{eq_by_cmp};
ghost use Rattle.std.specs.Vec.{vec_capacity};
ghost use Rattle.imap_names.specs.Order.{name_cmp};

use crate::places::{find_near_end, find_place};
use imap_names::{Name, NameRef};

/// Sets the value of `name`. A name that comes after all entries takes one comparison.
pub(crate) fn put_entry<V: Drop>(entries: &mut Vec<(Name, V)>, name: Name, value: V)
    requires sorted { IsTrue (is_sorted name_cmp entries.old.items) }
    requires room { vec_len entries.old < vec_capacity entries.old }
    ensures items { entries.new.items ≡ put name_cmp name value entries.old.items }
    ensures len { vec_len entries.new ≤ vec_len entries.old + 1 }
    ensures capacity { vec_capacity entries.old ≤ vec_capacity entries.new }
{
    let found = find_near_end(entries.as_slice(), &name.as_ref());
    match found {
        Ok(place) => entries[place].1 = value,
        Err(place) => drop(entries.insert(place, (name, value))),
    }
}

/// Removes the entry of `name`, if there is one.
pub(crate) fn remove_entry<V: Drop>(entries: &mut Vec<(Name, V)>, name: &NameRef<'_>)
    requires { IsTrue (is_sorted name_cmp entries.old.items) }
    ensures items { entries.new.items
        ≡ where_key name_cmp (λ x. not (eq_by_cmp name_cmp name.now x)) entries.old.items }
    ensures capacity { vec_capacity entries.new ≡ vec_capacity entries.old }
{
    if let Ok(place) = find_place(entries.as_slice(), name) {
        drop(entries.remove(place));
    }
}
