//! The numbers of texts: of identifiers, and of roots of trees.

ghost use Rattle.std.specs.Prelude.{◌≡◌, ◌||◌, is_some, true, false, bytes_eq};
ghost use Rattle.std.specs.FinMap as map;
ghost use Rattle.imap_identifier_index.specs.Sets.{AreSame, IsAdded, IsTaken, is_listed};

use crate::numbers::Numbers;
use imap_rights::Entry;
use imap_user_map::UserMap;
use std::alloc::{AllocError, Global};

/// Makes room for `more` numbers in the sets of all identifiers of a list.
pub(crate) fn reserve_all(
    sets: &mut UserMap<Numbers>,
    alloc: Global,
    entries: &[Entry],
    more: usize,
) -> Result<(), AllocError>
    ensures { AreSame sets.old.map sets.new.map }
{
    for entry in entries {
        reserve(sets, alloc, entry.identifier.as_str(), more)?;
    }
    Ok(())
}

/// Makes room for `more` numbers in the set of a text.
pub(crate) fn reserve(
    sets: &mut UserMap<Numbers>,
    alloc: Global,
    text: &str,
    more: usize,
) -> Result<(), AllocError>
    ensures { AreSame sets.old.map sets.new.map }
{
    if sets.contains(text) {
        return reserve_numbers(sets, text, more);
    }
    add_text(sets, alloc, text)?;
    reserve_numbers(sets, text, more)
}

fn reserve_numbers(sets: &mut UserMap<Numbers>, text: &str, more: usize) -> Result<(), AllocError>
    ensures { AreSame sets.old.map sets.new.map }
{
    match sets.get_mut(text) {
        Some(numbers) => numbers.reserve(more),
        None => Ok(()),
    }
}

/// Gives a text without a set an empty one.
fn add_text(sets: &mut UserMap<Numbers>, alloc: Global, text: &str) -> Result<(), AllocError>
    requires { is_some (map.get sets.old.map text.now) ≡ false }
    ensures { AreSame sets.old.map sets.new.map }
{
    let key = String::from_str(alloc, text)?;
    sets.reserve(1)?;
    sets.insert_reserved(key, Numbers::new(alloc));
    Ok(())
}

/// Adds a number to the sets of a root and of all identifiers of a list, and returns whether there was room.
pub(crate) fn add_all(
    sets: &mut UserMap<Numbers>,
    root: &str,
    entries: &[Entry],
    number: u32,
) -> bool
    ensures { result ≡ true
        → IsAdded (λ text. is_listed text entries.now || bytes_eq text root.now) number
        sets.old.map sets.new.map }
{
    if !add(sets, root, number) {
        return false;
    }
    add_to_all(sets, entries, number)
}

/// Adds a number to the sets of all identifiers of a list, and returns whether there was room.
fn add_to_all(sets: &mut UserMap<Numbers>, entries: &[Entry], number: u32) -> bool
    ensures { result ≡ true
        → IsAdded (λ identifier. is_listed identifier entries.now) number sets.old.map sets.new.map }
{
    for entry in entries {
        if !add(sets, entry.identifier.as_str(), number) {
            return false;
        }
    }
    true
}

/// Adds a number to the set of a text, and returns whether there was room.
fn add(sets: &mut UserMap<Numbers>, text: &str, number: u32) -> bool
    ensures { result ≡ true → IsAdded (λ other. bytes_eq other text.now) number sets.old.map sets.new.map }
{
    match sets.get_mut(text) {
        Some(numbers) => numbers.push(number),
        None => false,
    }
}

/// Takes a number out of the sets of all identifiers of a list.
pub(crate) fn take_from_all(sets: &mut UserMap<Numbers>, entries: &[Entry], number: u32)
    ensures { IsTaken (λ identifier. is_listed identifier entries.now) number sets.old.map sets.new.map }
{
    for entry in entries {
        take(sets, entry.identifier.as_str(), number);
    }
}

/// Takes a number out of the set of a text.
pub(crate) fn take(sets: &mut UserMap<Numbers>, text: &str, number: u32)
    ensures { IsTaken (λ other. bytes_eq other text.now) number sets.old.map sets.new.map }
{
    match sets.get_mut(text) {
        Some(numbers) => numbers.remove(number),
        None => {}
    }
}
