//! Moves of a name and all names below it to another place of the order, without memory.
ghost use Rattle.std.specs.Prelude.{◌≡◌, ◌+◌, ◌-◌, ◌≤◌, ◌++◌, length, vec_len, drop, take, map, IsTrue};
ghost use Rattle.std.specs.FinMap.Entries.{is_sorted};
ghost use Rattle.std.specs.Vec.{vec_capacity};
ghost use Rattle.imap_names.specs.Order.{name_cmp, run_cmp, moved};
ghost use Rattle.imap_name_map.specs.Cuts.{before};
ghost use Rattle.imap_name_map.specs.Rows.{entries_within};
ghost use Rattle.imap_name_map.specs.Renaming.{entries_apart, moved_run, with_names, with_run};

use crate::places::{end_of, start_of};
use imap_names::{Name, NameRef};

/// Moves the entries from `start` up to `end` to the end.
fn to_back<V>(entries: &mut [(Name, V)], start: usize, end: usize)
    requires order { start ≤ end }
    requires within { end ≤ length entries.old }
    ensures items { entries.new
        ≡ take start entries.old ++ (drop end entries.old ++ drop start (take end entries.old)) }
    ensures len { length entries.new ≡ length entries.old }
{
    entries[start..].rotate_left(end - start);
}

/// Moves the last `count` entries to `place`.
pub(crate) fn from_back<V>(entries: &mut [(Name, V)], place: usize, count: usize)
    requires { place + count ≤ length entries.old }
    ensures items { let others = length entries.old - count in
        entries.new
        ≡ take place entries.old ++ (drop others entries.old ++ drop place (take others entries.old)) }
    ensures len { length entries.new ≡ length entries.old }
{
    entries[place..].rotate_right(count);
}

/// Gives the first entries these names.
fn put_names<V>(entries: &mut [(Name, V)], mut names: Vec<Name>)
    requires { length names.items ≡ length entries.old }
    ensures { entries.new ≡ with_names names.items entries.old }
{
    while let Some(name) = names.pop() {
        entries[names.len()].0 = name;
    }
}

/// Gives the entries from `place` on these names.
fn put_names_from<V>(entries: &mut [(Name, V)], place: usize, names: Vec<Name>)
    requires { place + length names.items ≡ length entries.old }
    ensures items { entries.new ≡ take place entries.old ++ with_names names.items (drop place entries.old) }
    ensures len { length entries.new ≡ length entries.old }
{
    put_names(&mut entries[place..], names);
}

/// Moves the entries of `top` and all names below it to the end. Returns how many they are.
pub(crate) fn run_to_back<V>(entries: &mut [(Name, V)], top: &NameRef<'_>) -> usize
    requires { IsTrue (is_sorted name_cmp entries.old) }
    ensures items { entries.new ≡ entries_apart top.now entries.old ++ entries_within top.now entries.old }
    ensures len { length entries.new ≡ length entries.old }
    ensures count { result ≡ length (entries_within top.now entries.old) }
{
    let start = start_of(entries, top);
    let end = end_of(entries, top);
    to_back(entries, start, end);
    end - start
}

/// How many of the first `count` entries stand before `top` and all names below it.
pub(crate) fn start_among<V>(entries: &[(Name, V)], count: usize, top: &NameRef<'_>) -> usize
    requires within { count ≤ length entries.now }
    requires sorted { IsTrue (is_sorted name_cmp (take count entries.now)) }
    ensures place { result ≡ before (λ x. run_cmp x top.now) (take count entries.now) }
    ensures within { result ≤ length (take count entries.now) }
{
    start_of(&entries[..count], top)
}

/// Moves `old` and all names below it to `new`. They are called `names` then, in order.
fn move_run<V>(entries: &mut [(Name, V)], old: &NameRef<'_>, new: &NameRef<'_>, names: Vec<Name>)
    requires sorted { IsTrue (is_sorted name_cmp entries.old) }
    requires names { names.items ≡ map (λ e. moved old.now new.now e.0) (entries_within old.now entries.old) }
    ensures items { let run = moved_run old.now new.now entries.old in
        entries.new ≡ with_run (λ x. run_cmp x new.now) run (entries_apart old.now entries.old) }
    ensures len { length entries.new ≡ length entries.old }
{
    let count = run_to_back(entries, old);
    let others = entries.len() - count;
    put_names_from(entries, others, names);
    let place = start_among(entries, others, new);
    from_back(entries, place, count);
}

/// As `move_run`, of the entries of a `Vec`.
pub(crate) fn rename_in<V>(
    entries: &mut Vec<(Name, V)>,
    old: &NameRef<'_>,
    new: &NameRef<'_>,
    names: Vec<Name>,
)
    requires sorted { IsTrue (is_sorted name_cmp entries.old.items) }
    requires names { names.items
        ≡ map (λ e. moved old.now new.now e.0) (entries_within old.now entries.old.items) }
    ensures items { let run = moved_run old.now new.now entries.old.items in
        entries.new.items ≡ with_run (λ x. run_cmp x new.now) run (entries_apart old.now entries.old.items) }
    ensures len { vec_len entries.new ≡ vec_len entries.old }
    ensures capacity { vec_capacity entries.new ≡ vec_capacity entries.old }
{
    move_run(entries.as_mut_slice(), old, new, names);
}
