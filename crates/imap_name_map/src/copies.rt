//! Copies of entries.

ghost use Rattle.std.specs.Prelude.{◌≡◌, IfOk};
ghost use Rattle.std.specs.Vec.{vec_capacity};

use imap_names::Name;
use imap_values::TryCopy;
use std::alloc::{AllocError, Global};

/// An equal copy of the entries, with the same capacity. It shares the texts of the names.
pub(crate) fn copy_entries<V: TryCopy + Drop>(
    alloc: Global,
    entries: &Vec<(Name, V)>,
) -> Result<Vec<(Name, V)>, AllocError>
    ensures items { IfOk result (λ copy. copy.items ≡ entries.now.items) }
    ensures capacity { IfOk result (λ copy. vec_capacity copy ≡ vec_capacity entries.now) }
{
    let mut copy = Vec::with_capacity(alloc, entries.capacity())?;
    for (name, value) in entries {
        let name = name.try_copy()?;
        let value = value.try_copy(alloc)?;
        copy.push_reserved((name, value));
    }
    Ok(copy)
}
