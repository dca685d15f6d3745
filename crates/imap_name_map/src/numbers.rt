//! Numbers under names, of which the next one is given.

ghost use Rattle.std.specs.Prelude.{◌≡◌, ◌+◌, ◌<◌, MatchOption};
ghost use Rattle.imap_name_map.specs.Numbers as specs;
ghost use Rattle.imap_name_map.specs.Numbers.{greatest_number};

use crate::name_map::NameMap;
use imap_names::NameRef;

/// Returns the number under the name, and 0 if there is none.
pub fn number_of(numbers: &NameMap<u32>, name: &NameRef<'_>) -> u32
    ensures { result ≡ specs.number_of numbers.now.map name.now }
{
    match numbers.get(name) {
        Some(number) => *number,
        None => 0,
    }
}

/// Returns 1 more than the number under the name. `None` if that is the greatest there is.
pub fn next_number(numbers: &NameMap<u32>, name: &NameRef<'_>) -> Option<u32>
    ensures { let used = specs.number_of numbers.now.map name.now in
        MatchOption result (used ≡ greatest_number) (λ next. (next ≡ used + 1) × (used < greatest_number)) }
{
    let used = number_of(numbers, name);
    if used == u32::MAX {
        return None;
    }
    Some(used + 1)
}
