//! Changes of the run of a name, that is of its entry and those of all names below it.
ghost use Rattle.std.specs.Prelude.{◌≡◌, ◌↔◌, ◌+◌, ◌<◌, ◌≤◌, ◌++◌, length, vec_len, drop, take, IsTrue};
ghost use Rattle.std.specs.Prelude.{MatchResult};
ghost use Rattle.std.specs.FinMap.Entries.{is_sorted, put};
ghost use Rattle.std.specs.Vec.{vec_capacity};
ghost use Rattle.imap_names.specs.Order.{name_cmp, run_cmp};
ghost use Rattle.imap_name_map.specs.Cuts.{IsPlace, IsGap};
ghost use Rattle.imap_name_map.specs.Rows.{entries_within, put_all};
ghost use Rattle.imap_name_map.specs.Renaming.{entries_apart, with_run};

use crate::moves::{from_back, run_to_back, start_among};
use crate::places::find_near_end;
use imap_names::{Name, NameRef};

/// As `find_near_end`, among the entries from `start` on. The place is counted from there.
fn find_from<V>(entries: &[(Name, V)], start: usize, name: &NameRef<'_>) -> Result<usize, usize>
    requires within { start ≤ length entries.now }
    requires sorted { IsTrue (is_sorted name_cmp (drop start entries.now)) }
    ensures { let part = drop start entries.now in
        MatchResult result (IsPlace name.now part) (IsGap name.now part) }
{
    find_near_end(&entries[start..], name)
}

/// Sets the value of `name` among the entries from `start` on.
fn put_from<V: Drop>(entries: &mut Vec<(Name, V)>, start: usize, name: Name, value: V)
    requires within { start ≤ length entries.old.items }
    requires sorted { IsTrue (is_sorted name_cmp (drop start entries.old.items)) }
    requires room { vec_len entries.old < vec_capacity entries.old }
    ensures items { entries.new.items
        ≡ take start entries.old.items ++ put name_cmp name value (drop start entries.old.items) }
    ensures len { vec_len entries.new ≤ vec_len entries.old + 1 }
    ensures capacity { vec_capacity entries.old ≤ vec_capacity entries.new }
{
    let found = find_from(entries.as_slice(), start, &name.as_ref());
    match found {
        Ok(place) => entries[start + place].1 = value,
        Err(place) => drop(entries.insert(start + place, (name, value))),
    }
}

/// Sets the values of many names among the entries from `start` on.
fn put_all_from<V: Drop>(entries: &mut Vec<(Name, V)>, start: usize, more: Vec<(Name, V)>)
    requires within { start ≤ length entries.old.items }
    requires sorted { IsTrue (is_sorted name_cmp (drop start entries.old.items)) }
    requires room { vec_len entries.old + length more.items ≤ vec_capacity entries.old }
    ensures items { entries.new.items
        ≡ take start entries.old.items ++ put_all (drop start entries.old.items) more.items }
    ensures len { vec_len entries.new ≤ vec_len entries.old + length more.items }
    ensures capacity { vec_capacity entries.old ≤ vec_capacity entries.new }
{
    for (name, value) in more {
        put_from(entries, start, name, value);
    }
}

/// Moves the entries of `top` and all names below it to the end. Returns how many others there are.
fn run_to_end<V>(entries: &mut Vec<(Name, V)>, top: &NameRef<'_>) -> usize
    requires { IsTrue (is_sorted name_cmp entries.old.items) }
    ensures items { entries.new.items
        ≡ entries_apart top.now entries.old.items ++ entries_within top.now entries.old.items }
    ensures others { result ≡ length (entries_apart top.now entries.old.items) }
    ensures len { vec_len entries.new ≡ vec_len entries.old }
    ensures capacity { vec_capacity entries.new ≡ vec_capacity entries.old }
{
    let there = run_to_back(entries.as_mut_slice(), top);
    entries.len() - there
}

/// Moves the entries from `others` on to the place of `top` and all names below it among those before.
fn run_from_end<V>(entries: &mut Vec<(Name, V)>, others: usize, top: &NameRef<'_>)
    requires within { others ≤ length entries.old.items }
    requires sorted { IsTrue (is_sorted name_cmp (take others entries.old.items)) }
    ensures items { entries.new.items
        ≡ with_run (λ x. run_cmp x top.now) (drop others entries.old.items) (take others entries.old.items) }
    ensures len { vec_len entries.new ≡ vec_len entries.old }
    ensures capacity { vec_capacity entries.new ≡ vec_capacity entries.old }
{
    let place = start_among(entries.as_slice(), others, top);
    let count = entries.len() - others;
    from_back(entries.as_mut_slice(), place, count);
}

/// Sets the values of many names, all of them `top` or below it.
///
/// The run of `top` stands at the end meanwhile. So what comes after it moves once, and names that come in
/// their order are pushed. Only a name before one that was in the run is inserted, since these are few.
pub(crate) fn put_run<V: Drop>(
    entries: &mut Vec<(Name, V)>,
    top: &NameRef<'_>,
    more: Vec<(Name, V)>,
)
    requires sorted { IsTrue (is_sorted name_cmp entries.old.items) }
    requires room { vec_len entries.old + length more.items ≤ vec_capacity entries.old }
    ensures items { let run = put_all (entries_within top.now entries.old.items) more.items in
        entries.new.items ≡ with_run (λ x. run_cmp x top.now) run (entries_apart top.now entries.old.items) }
    ensures len { vec_len entries.new ≤ vec_len entries.old + length more.items }
    ensures capacity { vec_capacity entries.old ≤ vec_capacity entries.new }
{
    let others = run_to_end(entries, top);
    put_all_from(entries, others, more);
    run_from_end(entries, others, top);
}
