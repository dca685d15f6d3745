//! The names of mailboxes by their numbers.

ghost use Rattle.std.specs.Prelude.{◌≡◌, ◌↔◌, ◌<◌, ◌==◌, ℕ, true, length, map, IfSome, IsTrue, Some, None};
ghost use Rattle.std.specs.Prelude.{if◌then◌else◌, option_copied, IfOk, OnOk, ◌++◌, ◌∷◌, []};
ghost use Rattle.std.specs.List.{filter_map};
ghost use Rattle.imap_names.specs.Name.{Name};
ghost use Rattle.imap_names.specs.Order.{moved};
ghost use Rattle.imap_identifier_index.specs.Names.{IsPut, MayMove, name_at, renamed_at};

use crate::identifier_index::Numbered;
use imap_names::{Name, NameRef};
use std::alloc::{AllocError, Global};

/// Gives a name to a number that has none, in room that is there: to one of `free`, if there is one. Returns
/// the number, or `None` if there is no room.
pub(crate) fn put_new(names: &mut Vec<Option<Name>>, free: &mut Vec<u32>, name: Name) -> Option<u32>
    ensures { IfSome result (λ number. IsPut number None (Some name) names.old.items names.new.items) }
{
    match free.pop() {
        Some(number) => put_free(names, number, name),
        None => push_new(names, name),
    }
}

/// Gives a name to this number, if it has none.
fn put_free(names: &mut Vec<Option<Name>>, number: u32, name: Name) -> Option<u32>
    ensures { IfSome result (λ number. IsPut number None (Some name) names.old.items names.new.items) }
{
    let place = number as usize;
    if place >= names.len() {
        return None;
    }
    if names[place].is_some() {
        return None;
    }
    put(names, place, Some(name));
    Some(number)
}

/// Gives a name to the next number.
fn push_new(names: &mut Vec<Option<Name>>, name: Name) -> Option<u32>
    ensures { IfSome result (λ number. IsPut number None (Some name) names.old.items names.new.items) }
{
    if names.len() >= names.capacity() {
        return None;
    }
    match u32::try_from(names.len()) {
        Ok(number) => {
            names.push_reserved(Some(name));
            Some(number)
        }
        Err(_) => None,
    }
}

/// Whether the number has this name.
pub(crate) fn has_name(names: &[Option<Name>], number: u32, name: &NameRef<'_>) -> bool
    ensures { IsTrue result ↔ (name_at names.now number ≡ Some name.now) }
{
    match name_of(names, number) {
        Some(found) => found.as_ref().is_same(name),
        None => false,
    }
}

/// The name of a number.
pub(crate) fn name_of(names: &[Option<Name>], number: u32) -> Option<&Name>
    ensures { option_copied result ≡ name_at names.now number }
{
    match names.get(number as usize) {
        Some(name) => name.as_ref(),
        None => None,
    }
}

/// Takes its name from a number. Returns false if it hasn't this one.
pub(crate) fn take_name(names: &mut Vec<Option<Name>>, number: u32, name: &NameRef<'_>) -> bool
    ensures { result ≡ true → IsPut number (Some name.now) None names.old.items names.new.items }
{
    let place = number as usize;
    if place >= names.len() {
        return false;
    }
    if !has_name(names, number, name) {
        return false;
    }
    put(names, place, None);
    true
}

/// Gives another name to a number. Returns false if it hasn't the first one.
fn change_name(names: &mut Vec<Option<Name>>, number: u32, old: &NameRef<'_>, new: &Name) -> bool
    ensures { result ≡ true → IsPut number (Some old.now) (Some new.now) names.old.items names.new.items }
{
    let place = number as usize;
    if place >= names.len() {
        return false;
    }
    if !has_name(names, number, old) {
        return false;
    }
    match new.try_copy() {
        Ok(copy) => {
            put(names, place, Some(copy));
            true
        }
        Err(_) => false,
    }
}

fn put(names: &mut Vec<Option<Name>>, place: usize, name: Option<Name>)
    requires { place < length names.old.items }
    ensures { (other : ℕ) → name_at names.new.items other
        ≡ (if other == place then name else name_at names.old.items other) }
{
    names[place] = name;
}

/// Gives the mailboxes of a run the names to which they move from `old` to `new`. Returns false if a mailbox
/// has another number.
pub(crate) fn move_names<V: Numbered>(
    names: &mut Vec<Option<Name>>,
    run: &[(Name, V)],
    arrivals: &[(Name, u32)],
    old: &NameRef<'_>,
    new: &NameRef<'_>,
) -> bool
    requires { map (λ a. a.0) arrivals.now ≡ map (λ e. moved old.now new.now e.0) run.now }
    ensures { result ≡ true → MayMove names.old.items old.now new.now (map (λ e. e.0) run.now)
        → (number : ℕ)
        → name_at names.new.items number ≡ renamed_at old.now new.now (name_at names.old.items number) }
{
    let mut rest = run;
    for arrival in arrivals {
        match rest.split_first() {
            Some((first, later)) => {
                if !change_name(names, first.1.number(), &first.0.as_ref(), &arrival.0) {
                    return false;
                }
                rest = later;
            }
            None => return false,
        }
    }
    true
}

/// Appends the names of these numbers.
pub(crate) fn push_named<'a>(
    list: &mut Vec<&'a Name>,
    names: &'a [Option<Name>],
    numbers: &[u32],
) -> Result<(), AllocError>
    ensures { OnOk result (map (λ name. name.now) list.new.items
        ≡ map (λ name. name.now) list.old.items ++ filter_map (name_at names.now) numbers.now) }
{
    for number in numbers {
        push_name_of(list, names, number)?;
    }
    Ok(())
}

/// Appends the name of a number, if it has one.
fn push_name_of<'a>(
    list: &mut Vec<&'a Name>,
    names: &'a [Option<Name>],
    number: &u32,
) -> Result<(), AllocError>
    ensures { OnOk result (map (λ name. name.now) list.new.items
        ≡ map (λ name. name.now) list.old.items ++ filter_map (name_at names.now) (number.now ∷ [])) }
{
    match name_of(names, *number) {
        Some(name) => {
            list.push(name)?;
            Ok(())
        }
        None => Ok(()),
    }
}

/// Returns equal copies, with the same room.
pub(crate) fn copy_names(
    alloc: Global,
    names: &Vec<Option<Name>>,
) -> Result<Vec<Option<Name>>, AllocError>
    ensures { IfOk result (λ copy. copy.items ≡ names.now.items) }
{
    let mut copy = Vec::with_capacity(alloc, names.capacity())?;
    for name in names.as_slice() {
        copy.push(copy_name(name)?)?;
    }
    Ok(copy)
}

fn copy_name(name: &Option<Name>) -> Result<Option<Name>, AllocError>
    ensures { IfOk result (λ copy. copy ≡ name.now) }
{
    match name {
        Some(name) => Ok(Some(name.try_copy()?)),
        None => Ok(None),
    }
}
