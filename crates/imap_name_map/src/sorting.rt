//! Entries put in the order of their names.

ghost use Rattle.std.specs.Prelude.{◌≡◌, ◌&&◌, ◌∷◌, IsPermutation};
ghost use Rattle.std.specs.FinMap.Entries.{is_sorted};
ghost use Rattle.std.specs.List.Sorted.{IsSortedBy};
ghost use Rattle.std.specs.Ordering.{is_lt};
ghost use Rattle.imap_names.specs.Order.{name_cmp};

use imap_names::Name;
use std::cmp::Ordering;

/// Puts entries in the order of their names.
pub(crate) fn sort_entries<V>(entries: &mut Vec<(Name, V)>)
    ensures same { IsPermutation entries.old.items entries.new.items }
    ensures sorted { IsSortedBy (λ x y. is_lt (name_cmp x.0 y.0)) entries.new.items }
{
    entries.sort_unstable_by(
        |one: &(Name, V), other: &(Name, V)| -> Ordering
            ensures { result ≡ name_cmp one.now.0 other.now.0 }
        { one.0.as_ref().compare(&other.0.as_ref()) },
    );
}

/// Whether each name comes after the one before it.
pub(crate) fn are_rising<V>(entries: &[(Name, V)]) -> bool
    ensures { result ≡ is_sorted name_cmp entries.now }
{
    let mut rest = entries;
    while let Some((entry, later)) = rest.split_first() {
        if !is_before(entry, later) {
            return false;
        }
        rest = later;
    }
    true
}

/// Whether the entry's name comes before the first of `later`, if there is one.
fn is_before<V>(entry: &(Name, V), later: &[(Name, V)]) -> bool
    ensures { is_sorted name_cmp (entry.now ∷ later.now) ≡ (result && is_sorted name_cmp later.now) }
{
    match later.first() {
        Some(next) => entry.0.as_ref().compare(&next.0.as_ref()).is_lt(),
        None => true,
    }
}
