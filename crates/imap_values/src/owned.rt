//! Large values that are at hand while memory may run out.
//!
//! A function lets go at each `?` of what it owns there. The proof of that grows with the value's type, and is short
//! where the type is a parameter. Functions that own large values hand them to these.

ghost use Rattle.std.specs.Prelude.{◌≡◌, ◌∷◌, ◌++◌, [], Ok, IfOk};

use std::alloc::AllocError;

/// Returns the value that was made, and `rest` beside it. Fails as `made` did, and lets go of `rest` then.
pub fn beside<T: Drop, R: Drop>(made: Result<T, AllocError>, rest: R) -> Result<(T, R), AllocError>
    ensures made { IfOk result (λ both. made ≡ Ok both.0) }
    ensures rest { IfOk result (λ both. both.1 ≡ rest) }
    ensures kept { IfOk made (λ value. result ≡ Ok (value, rest)) }
{
    let made = made?;
    Ok((made, rest))
}

/// Returns the items of `front`, then those of `back`.
pub fn joined<T: Drop>(front: Vec<T>, back: Vec<T>) -> Result<Vec<T>, AllocError>
    ensures { IfOk result (λ all. all.items ≡ front.items ++ back.items) }
{
    let mut all = front;
    let mut back = back;
    all.append(&mut back)?;
    Ok(all)
}

/// Returns the items with `item` after them.
pub fn pushed<T: Drop>(items: Vec<T>, item: T) -> Result<Vec<T>, AllocError>
    ensures { IfOk result (λ pushed. pushed.items ≡ items.items ++ item ∷ []) }
{
    let mut items = items;
    items.push(item)?;
    Ok(items)
}
