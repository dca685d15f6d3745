//! Searches in lists of entries that are in the order of their names.
ghost use Rattle.std.specs.Prelude.{◌≡◌, ◌↔◌, ◌<◌, ◌≤◌, length, drop, take, true, None, IsTrue, MatchResult};
ghost use Rattle.std.specs.Prelude.{option_copied};
ghost use Rattle.std.specs.FinMap.Entries.{is_sorted, find};
ghost use Rattle.std.specs.List.{list_all, list_any};
ghost use Rattle.std.specs.Ordering.{is_lt, is_le};
ghost use Rattle.imap_names.specs.Order.{name_cmp, run_cmp, is_within, is_below};
ghost use Rattle.imap_name_map.specs.Cuts.{before, up_to, IsAt, IsPlace, IsGap};
ghost use Rattle.imap_name_map.specs.Rows.{entries_below};

use imap_names::{Name, NameRef};

/// How many entries stand before `name`.
fn place_of<V>(entries: &[(Name, V)], name: &NameRef<'_>) -> usize
    requires { IsTrue (is_sorted name_cmp entries.now) }
    ensures place { result ≡ before (λ x. name_cmp x name.now) entries.now }
    ensures within { result ≤ length entries.now }
{
    entries.partition_point(
        |entry: &(Name, V)| -> bool
            ensures { result ≡ is_lt (name_cmp entry.now.0 name.entry.now) }
        { entry.0.as_ref().compare(name).is_lt() },
    )
}

/// How many entries stand before `top` and all names below it.
pub(crate) fn start_of<V>(entries: &[(Name, V)], top: &NameRef<'_>) -> usize
    requires { IsTrue (is_sorted name_cmp entries.now) }
    ensures place { result ≡ before (λ x. run_cmp x top.now) entries.now }
    ensures within { result ≤ length entries.now }
{
    entries.partition_point(
        |entry: &(Name, V)| -> bool
            ensures { result ≡ is_lt (run_cmp entry.now.0 top.entry.now) }
        { entry.0.as_ref().compare_to_run(top).is_lt() },
    )
}

/// How many entries stand before the end of `top` and all names below it.
pub(crate) fn end_of<V>(entries: &[(Name, V)], top: &NameRef<'_>) -> usize
    requires { IsTrue (is_sorted name_cmp entries.now) }
    ensures place { result ≡ up_to (λ x. run_cmp x top.now) entries.now }
    ensures within { result ≤ length entries.now }
{
    entries.partition_point(
        |entry: &(Name, V)| -> bool
            ensures { result ≡ is_le (run_cmp entry.now.0 top.entry.now) }
        { entry.0.as_ref().compare_to_run(top).is_le() },
    )
}

/// Whether the entry at `place` is that of `name`.
fn is_at<V>(entries: &[(Name, V)], place: usize, name: &NameRef<'_>) -> bool
    ensures { IsTrue result ↔ IsAt name.now entries.now place }
{
    place < entries.len() && entries[place].0.as_ref().compare(name).is_eq()
}

/// The place of `name`, or as an error the place that it would have.
pub(crate) fn find_place<V>(entries: &[(Name, V)], name: &NameRef<'_>) -> Result<usize, usize>
    requires { IsTrue (is_sorted name_cmp entries.now) }
    ensures { MatchResult result (IsPlace name.now entries.now) (IsGap name.now entries.now) }
{
    let place = place_of(entries, name);
    if is_at(entries, place, name) {
        Ok(place)
    } else {
        Err(place)
    }
}

/// Whether all the entries stand before `name`. The last one tells.
fn end_before<V>(entries: &[(Name, V)], name: &NameRef<'_>) -> bool
    requires { IsTrue (is_sorted name_cmp entries.now) }
    ensures { IsTrue result ↔ (before (λ x. name_cmp x name.now) entries.now ≡ length entries.now) }
{
    match entries.last() {
        Some(entry) => entry.0.as_ref().compare(name).is_lt(),
        None => true,
    }
}

/// As `find_place`. A name that comes after all entries takes one comparison.
pub(crate) fn find_near_end<V>(entries: &[(Name, V)], name: &NameRef<'_>) -> Result<usize, usize>
    requires { IsTrue (is_sorted name_cmp entries.now) }
    ensures { MatchResult result (IsPlace name.now entries.now) (IsGap name.now entries.now) }
{
    if end_before(entries, name) {
        Err(entries.len())
    } else {
        find_place(entries, name)
    }
}

/// The value of `name`.
pub(crate) fn find_in<'a, V>(entries: &'a [(Name, V)], name: &NameRef<'_>) -> Option<&'a V>
    requires { IsTrue (is_sorted name_cmp entries.now) }
    ensures { option_copied result ≡ find name_cmp name.now entries.now }
{
    match find_place(entries, name) {
        Ok(place) => Some(&entries[place].1),
        Err(_) => None,
    }
}

/// The place of `name`, or the end if it isn't there.
pub(crate) fn place_or_end<V>(entries: &[(Name, V)], name: &NameRef<'_>) -> usize
    requires { IsTrue (is_sorted name_cmp entries.now) }
    ensures there { result < length entries.now → IsPlace name.now entries.now result }
    ensures absent { length entries.now ≤ result → find name_cmp name.now entries.now ≡ None }
{
    match find_place(entries, name) {
        Ok(place) => place,
        Err(_) => entries.len(),
    }
}

/// As `place_or_end`. Takes one comparison if the name is the one at `place`.
pub(crate) fn place_near<V>(entries: &[(Name, V)], place: usize, name: &NameRef<'_>) -> usize
    requires { IsTrue (is_sorted name_cmp entries.now) }
    ensures there { result < length entries.now → IsPlace name.now entries.now result }
    ensures absent { length entries.now ≤ result → find name_cmp name.now entries.now ≡ None }
{
    if is_at(entries, place, name) {
        place
    } else {
        place_or_end(entries, name)
    }
}

/// The entries from `start` up to `end`.
pub(crate) fn part_of<V>(entries: &[(Name, V)], start: usize, end: usize) -> &[(Name, V)]
    requires order { start ≤ end }
    requires within { end ≤ length entries.now }
    ensures { result.now ≡ drop start (take end entries.now) }
{
    &entries[start..end]
}

/// The entries but for that of `top`. All of them are of `top` or of names below it.
pub(crate) fn without_top<'a, V>(entries: &'a [(Name, V)], top: &NameRef<'_>) -> &'a [(Name, V)]
    requires sorted { IsTrue (is_sorted name_cmp entries.now) }
    requires run { list_all (λ e. is_within top.now e.0) entries.now ≡ true }
    ensures { result.now ≡ entries_below top.now entries.now }
{
    match entries.split_first() {
        Some((first, others)) => {
            if first.0.as_ref().is_same(top) {
                others
            } else {
                entries
            }
        }
        None => entries,
    }
}

/// Whether there is a name below `top`. All the entries are of `top` or of names below it.
pub(crate) fn ends_below<V>(entries: &[(Name, V)], top: &NameRef<'_>) -> bool
    requires sorted { IsTrue (is_sorted name_cmp entries.now) }
    requires run { list_all (λ e. is_within top.now e.0) entries.now ≡ true }
    ensures { result ≡ list_any (λ e. is_below top.now e.0) entries.now }
{
    match entries.last() {
        Some(entry) => !entry.0.as_ref().is_same(top),
        None => false,
    }
}
