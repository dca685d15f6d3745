//! Maps from names.
ghost use Rattle.std.specs.Prelude.{◌≡◌, ◌↔◌, ◌+◌, ◌<◌, ◌≤◌, [], true, not, length, drop, take};
ghost use Rattle.std.specs.Prelude.{slice_index_or, IsPermutation, IsTrue, IfOk, MatchOption, OnOk, OnSome};
ghost use Rattle.std.specs.Prelude.{option_copied};
ghost use Rattle.std.specs.Borrow.{sem, LendsSo};
ghost use Rattle.std.specs.FinMap as fin;
ghost use Rattle.std.specs.List.{list_all};
ghost use Rattle.std.specs.Option.{option_copied_mut};
ghost use Rattle.imap_names.specs.Order.{Names, is_within};
ghost use Rattle.imap_name_map.specs.Renaming.{moved_names, renamed, IsRenamed};
ghost use Rattle.imap_name_map.specs.Rows.{inserted_all, with_value, run_of, below_of, has_below, has_within};
ghost use Rattle.imap_name_map.specs.contracts.name_map.NameMap.{the_row};
ghost use Rattle.imap_user_map.specs.Finite.{keep};

use crate::copies::copy_entries;
use crate::edits::{put_entry, remove_entry};
use crate::moves::rename_in;
use crate::places::{end_of, ends_below, find_in, part_of, place_near, start_of, without_top};
use crate::run_edits::put_run;
use crate::sameness::are_within;
use crate::sorting::{are_rising, sort_entries};
use imap_names::{Name, NameRef};
use imap_user_map::Part;
use imap_values::TryCopy;
use std::alloc::{AllocError, Global};
use std::marker::Model;

/// A map from names. A look-up takes as many comparisons as the logarithm of its length.
///
/// Contracts see the map, and as `spare` the number of names for which it has room.
#[derive(Drop)]
pub struct NameMap<V> {
    // In the order of the names.
    entries: Vec<(Name, V)>,
}

impl<V> Model for NameMap<V> {
    ghost use Rattle.std.specs.Prelude.{◌-◌, IsTrue, vec_len};
    ghost use Rattle.std.specs.Vec.{vec_capacity};
    ghost use Rattle.std.specs.FinMap as fin;
    ghost use Rattle.std.specs.FinMap.Entries.{is_sorted};
    ghost use Rattle.imap_names.specs.Order.{name_cmp};
    ghost use Rattle.imap_name_map.specs.Rows.{Rows, rows_code};

    ghost Value = { Rows V };

    ghost coded = { rows_code V.code };

    ghost view = { λ m. record {
      map = fin.from_sorted m.entries.items;
      spare = vec_capacity m.entries - vec_len m.entries;
    } };

    ghost invariant = { λ m. IsTrue (is_sorted name_cmp m.entries.items) };
}

impl<V> NameMap<V> {
    /// A map without names. It takes no memory.
    pub fn new(alloc: Global) -> Self
        ensures { result.map ≡ fin.empty }
    {
        NameMap {
            entries: Vec::new(alloc),
        }
    }

    /// The number of names.
    pub fn len(&self) -> usize
        ensures { result ≡ fin.len self.now.map }
    {
        self.entries().len()
    }

    /// Whether there is no name.
    pub fn is_empty(&self) -> bool
        ensures { IsTrue result ↔ (self.now.map ≡ fin.empty) }
    {
        self.entries().is_empty()
    }

    /// Makes room for `more` names.
    pub fn reserve(&mut self, more: usize) -> Result<(), AllocError>
        ensures map { self.new.map ≡ self.old.map }
        ensures ok { OnOk result (more ≤ self.new.spare) }
        ensures spare { self.old.spare ≤ self.new.spare }
    {
        self.entries.reserve(more)
    }

    /// The value of `name`.
    pub fn get(&self, name: &NameRef<'_>) -> Option<&V>
        ensures { option_copied result ≡ fin.get self.now.map name.now }
    {
        find_in(self.entries(), name)
    }

    /// The value of `name`, to be changed in its place.
    pub fn get_mut(&mut self, name: &NameRef<'_>) -> Option<&mut V>
        ensures* writes_back { sem 𝓛 (LendsSo (the_row V.row) V.row self.entry result
            (λ n w. OnSome result (n ≡ with_value self.old name.now w)) (λ n. n ≡ self.old)) }
        ensures value { option_copied_mut result ≡ fin.get self.old.map name.now }
    {
        // No name stands at the end.
        let end = self.len();
        self.get_mut_near(end, name)
    }

    /// The value of `name`, to be changed in its place. Takes one comparison if the name is the one at
    /// `place`.
    pub fn get_mut_near(&mut self, place: usize, name: &NameRef<'_>) -> Option<&mut V>
        ensures* writes_back { sem 𝓛 (LendsSo (the_row V.row) V.row self.entry result
            (λ n w. OnSome result (n ≡ with_value self.old name.now w)) (λ n. n ≡ self.old)) }
        ensures value { option_copied_mut result ≡ fin.get self.old.map name.now }
    {
        let found = place_near(self.entries.as_slice(), place, name);
        match self.entries.get_mut(found) {
            Some(entry) => Some(&mut entry.1),
            None => None,
        }
    }

    /// The name at a place of the order, and its value.
    pub fn entry(&self, place: usize) -> (&Name, &V)
        requires { place < fin.len self.now.map }
        ensures { (result.0.now, result.1.now)
            ≡ slice_index_or (fin.entries self.now.map) place (result.0.now, result.1.now) }
    {
        let entry = &self.entries()[place];
        (&entry.0, &entry.1)
    }

    /// All names with their values, in the order of the names.
    pub fn entries(&self) -> &[(Name, V)]
        ensures { result.now ≡ fin.entries self.now.map }
    {
        self.entries.as_slice()
    }

    /// The place at which `top` and the names below it begin, and the one at which they end.
    pub fn run(&self, top: &NameRef<'_>) -> (usize, usize)
        ensures run { drop result.0 (take result.1 (fin.entries self.now.map)) ≡ run_of top.now self.now.map }
        ensures order { result.0 ≤ result.1 }
        ensures within { result.1 ≤ fin.len self.now.map }
    {
        let entries = self.entries();
        (start_of(entries, top), end_of(entries, top))
    }

    /// `top` and the names below it, with their values, in the order of the names.
    pub fn run_entries(&self, top: &NameRef<'_>) -> &[(Name, V)]
        ensures { result.now ≡ run_of top.now self.now.map }
    {
        let (start, end) = self.run(top);
        part_of(self.entries(), start, end)
    }

    /// The names below `top`, with their values, in the order of the names.
    pub fn entries_below(&self, top: &NameRef<'_>) -> &[(Name, V)]
        ensures { result.now ≡ below_of top.now self.now.map }
    {
        without_top(self.run_entries(top), top)
    }

    /// Whether there is a name below `top`.
    pub fn has_below(&self, top: &NameRef<'_>) -> bool
        ensures { result ≡ has_below top.now self.now.map }
    {
        ends_below(self.run_entries(top), top)
    }

    /// Whether neither `top` nor a name below it is there.
    #[tactic(auto, using(crate::proofs::WithinLaws::not_has_within))]
    pub fn is_free(&self, top: &NameRef<'_>) -> bool
        ensures { result ≡ not (has_within top.now self.now.map) }
    {
        self.run_entries(top).is_empty()
    }
}

impl<V: Part> NameMap<V> {
    /// Whether the same is kept of both maps, for every name. It takes one comparison a name and map if the
    /// names are the same.
    pub fn is_same(&self, other: &NameMap<V>) -> bool
        ensures { IsTrue result ↔ (keep (λ name. V.kept) self.now.map ≡ keep (λ name. V.kept) other.now.map) }
    {
        let entries = self.entries();
        let others = other.entries();
        are_within(entries, others) && are_within(others, entries)
    }
}

impl<V: Drop> NameMap<V> {
    /// The map of these entries, which may be in any order. `None` if a name is there twice. It takes no
    /// memory.
    pub fn from_entries(mut entries: Vec<(Name, V)>) -> Option<NameMap<V>>
        ensures { MatchOption result ((map : Names V) → IsPermutation entries.items (fin.entries map) → ⊥)
            (λ map. IsPermutation entries.items (fin.entries map.map)) }
    {
        sort_entries(&mut entries);
        if !are_rising(&entries) {
            return None;
        }
        Some(NameMap { entries })
    }

    /// Sets the value of `name`, in the room that there is.
    pub fn insert_reserved(&mut self, name: Name, value: V)
        requires { 0 < self.old.spare }
        ensures map { self.new.map ≡ fin.insert self.old.map name value }
        ensures spare { self.old.spare ≤ self.new.spare + 1 }
    {
        put_entry(&mut self.entries, name, value);
    }

    /// Sets the values of many names, all of them `top` or below it, in the room that there is.
    ///
    /// What comes after them in the order moves once. Where they come in their order, and none of the run
    /// was there, each takes one comparison.
    pub fn insert_run(&mut self, top: &NameRef<'_>, entries: Vec<(Name, V)>)
        requires room { length entries.items ≤ self.old.spare }
        requires within { list_all (λ e. is_within top.now e.0) entries.items ≡ true }
        ensures map { self.new.map ≡ inserted_all self.old.map entries.items }
        ensures spare { self.old.spare ≤ self.new.spare + length entries.items }
    {
        put_run(&mut self.entries, top, entries);
    }

    /// Removes `name`, if it is there.
    pub fn remove(&mut self, name: &NameRef<'_>)
        ensures map { self.new.map ≡ fin.remove self.old.map name.now }
        ensures spare { self.new.spare + fin.len self.new.map ≡ self.old.spare + fin.len self.old.map }
    {
        remove_entry(&mut self.entries, name);
    }
    /// Moves `old` and all names below it to `new`, without memory. `names` are the names that they get, in
    /// order.
    pub fn rename(&mut self, old: &NameRef<'_>, new: &NameRef<'_>, names: Vec<Name>)
        requires names { names.items ≡ moved_names old.now new.now self.old.map }
        requires free { run_of new.now self.old.map ≡ [] }
        ensures map { self.new.map ≡ renamed old.now new.now self.old.map }
        ensures values { IsRenamed old.now new.now self.old.map self.new.map }
        ensures spare { self.new.spare ≡ self.old.spare }
    {
        rename_in(&mut self.entries, old, new, names);
    }
}

impl<V: TryCopy + Drop> NameMap<V> {
    /// Returns an equal copy, with the same room.
    pub fn try_copy(&self, alloc: Global) -> Result<NameMap<V>, AllocError>
        ensures { IfOk result (λ copy. copy ≡ self.now) }
    {
        let entries = copy_entries(alloc, &self.entries)?;
        Ok(NameMap { entries })
    }
}

impl<V: TryCopy + Drop> TryCopy for NameMap<V> {
    fn try_copy(&self, alloc: Global) -> Result<NameMap<V>, AllocError> {
        NameMap::try_copy(self, alloc)
    }
}
