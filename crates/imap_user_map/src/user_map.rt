//! Maps from user names, in a hash table.

ghost use Rattle.std.specs.Prelude.{◌≡◌, ◌↔◌, ◌+◌, ◌<◌, ◌≤◌, true, is_some, IsTrue};
ghost use Rattle.std.specs.Prelude.{IfOk, OnOk, OnSome, option_copied};
ghost use Rattle.std.specs.Option.{option_copied_mut};
ghost use Rattle.std.specs.Borrow.{sem, LendsSo};
ghost use Rattle.std.specs.FinMap as map;
ghost use Rattle.std.specs.HashMap.{spare};
ghost use Rattle.std.specs.String.{string_bytes};
ghost use Rattle.imap_user_map.specs.contracts.user_map.UserMap.{the_row};
ghost use Rattle.imap_user_map.specs.Finite.{keep, map_values};
ghost use Rattle.imap_user_map.specs.Parts.{IsWithin};
ghost use Rattle.imap_user_map.specs.Rows.{by_octets, with_value};

use crate::change::Change;
use crate::part::Part;
use imap_values::TryCopy;
use std::alloc::{AllocError, Global};
use std::collections::HashMap;
use std::marker::Model;

/// A map from user names. Contracts see the map and its room: for how many more names no memory is needed.
#[derive(Drop)]
pub struct UserMap<V> {
    entries: HashMap<String, V>,
}

impl<V> Model for UserMap<V> {
    ghost use Rattle.imap_user_map.specs.Rows.{Rows, rows_code, rows_of};

    ghost Value = { Rows V };

    ghost coded = { rows_code V.code };

    ghost view = { λ m. rows_of m.entries };
}

impl<V> UserMap<V> {
    /// A map without users. It takes no memory.
    pub fn new(alloc: Global) -> Self
        ensures { result.map ≡ map.empty }
    {
        UserMap {
            entries: HashMap::new(alloc),
        }
    }

    /// The value of a user, or `None` if there is none.
    pub fn get(&self, user: &str) -> Option<&V>
        ensures { option_copied result ≡ map.get self.now.map user.now }
    {
        self.entries.get(user)
    }

    /// Whether a user has a value.
    pub fn contains(&self, user: &str) -> bool
        ensures { result ≡ is_some (map.get self.now.map user.now) }
    {
        self.entries.contains_key(user)
    }

    /// The value of a user, to be changed in its place.
    pub fn get_mut(&mut self, user: &str) -> Option<&mut V>
        ensures* writes_back { sem 𝓛 (LendsSo (the_row V.row) V.row self.entry result
            (λ n w. OnSome result (n ≡ with_value self.old user.now w)) (λ n. n ≡ self.old)) }
        ensures value { option_copied_mut result ≡ map.get self.old.map user.now }
    {
        self.entries.get_mut(user)
    }

    /// Makes room for `more` users.
    pub fn reserve(&mut self, more: usize) -> Result<(), AllocError>
        ensures map { self.new.map ≡ self.old.map }
        ensures ok { OnOk result (more ≤ self.new.spare) }
        ensures spare { self.old.spare ≤ self.new.spare }
    {
        self.entries.reserve(more)
    }
}

impl<V: Drop> UserMap<V> {
    /// Sets the value of a user, in room that is there.
    pub fn insert_reserved(&mut self, user: String, value: V)
        requires { 0 < self.old.spare }
        ensures map { self.new.map ≡ map.insert self.old.map (string_bytes user) value }
        ensures spare { self.old.spare ≤ self.new.spare + 1 }
    {
        let _inserted = self.entries.insert(user, value);
    }

    /// Changes the values of all users.
    pub fn change_all<C: Change<V>>(&mut self, change: &C)
        ensures map { self.new.map ≡ map_values (C.changed change.now) self.old.map }
        ensures spare { self.old.spare ≤ self.new.spare }
    {
        change_entries(&mut self.entries, change);
    }
}

impl<V: TryCopy + Drop> UserMap<V> {
    /// Returns an equal copy.
    pub fn try_copy(&self, alloc: Global) -> Result<UserMap<V>, AllocError>
        ensures { IfOk result (λ copy. copy.map ≡ self.now.map) }
    {
        let entries = copy_entries(alloc, &self.entries)?;
        Ok(UserMap { entries })
    }
}

impl<V: Part> UserMap<V> {
    /// Whether the same is kept of both maps, for every user.
    pub fn is_same(&self, other: &UserMap<V>) -> bool
        ensures { IsTrue result ↔ (keep (λ user. V.kept) self.now.map ≡ keep (λ user. V.kept) other.now.map) }
    {
        is_within(&self.entries, other) && is_within(&other.entries, self)
    }
}

/// Whether of each value the same is kept as of the user's value in `other`.
fn is_within<V: Part>(entries: &HashMap<String, V>, other: &UserMap<V>) -> bool
    ensures { IsTrue result ↔ IsWithin V.kept (by_octets entries.now.entries) other.now.map }
{
    for (user, value) in entries.iter() {
        if !value.is_same_part(other.get(user.as_str())) {
            return false;
        }
    }
    true
}

/// Changes the values of all entries.
fn change_entries<V: Drop, C: Change<V>>(entries: &mut HashMap<String, V>, change: &C)
    ensures map { by_octets entries.new.entries
        ≡ map_values (C.changed change.now) (by_octets entries.old.entries) }
    ensures spare { spare entries.old ≤ spare entries.new }
{
    entries.retain(
        |_user: &String, value: &mut V| -> bool
            ensures kept { result ≡ true }
            ensures value { value.new ≡ C.changed change.entry.now value.old }
        {
            change.make(value);
            true
        },
    );
}

/// An equal copy of the entries.
fn copy_entries<V: TryCopy + Drop>(
    alloc: Global,
    entries: &HashMap<String, V>,
) -> Result<HashMap<String, V>, AllocError>
    ensures { IfOk result (λ copy. by_octets copy.entries ≡ by_octets entries.now.entries) }
{
    let mut copy = HashMap::new(alloc);
    for (user, value) in entries.iter() {
        let user = String::from_str(alloc, user.as_str())?;
        let value = value.try_copy(alloc)?;
        copy.insert(user, value)?;
    }
    Ok(copy)
}
