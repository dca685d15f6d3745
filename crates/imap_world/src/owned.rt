//! Values of any type that are at hand while memory may run out.
//!
//! The proof of a function that lets go of a value grows with the value's type, and is short where that is a parameter.

ghost use Rattle.std.specs.Prelude.{◌≡◌, ◌++◌, ◌∷◌, [], IfOk, Ok, OnOk};

use imap_values::beside;
use std::alloc::AllocError;

/// Returns both values. Fails if one of them wasn't made, and lets go of the other then.
pub(crate) fn both<T: Drop, U: Drop>(
    one: Result<T, AllocError>,
    other: Result<U, AllocError>,
) -> Result<(T, U), AllocError>
    ensures one { IfOk result (λ both. one ≡ Ok both.0) }
    ensures other { IfOk result (λ both. other ≡ Ok both.1) }
{
    let one = one?;
    let (other, one) = beside(other, one)?;
    Ok((one, other))
}

/// Appends an item.
pub(crate) fn push<T: Drop>(list: &mut Vec<T>, item: T) -> Result<(), AllocError>
    ensures { OnOk result (list.new.items ≡ list.old.items ++ item ∷ []) }
{
    list.push(item)?;
    Ok(())
}

/// Appends the items of `more`.
pub(crate) fn append<T: Drop>(list: &mut Vec<T>, more: Vec<T>) -> Result<(), AllocError>
    ensures { OnOk result (list.new.items ≡ list.old.items ++ more.items) }
{
    let mut more = more;
    list.append(&mut more)?;
    Ok(())
}
