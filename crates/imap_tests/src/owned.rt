//! Values that are made one beside the other. The functions are generic, since the proof that a large value is dropped
//! is long, and that of a type parameter isn't.

use std::alloc::{AllocError, Global};

/// Both values, or why one wasn't made.
pub(crate) fn both<A: Drop, B: Drop, E: Drop>(
    one: Result<A, E>,
    other: Result<B, E>,
) -> Result<(A, B), E> {
    match one {
        Ok(one) => match other {
            Ok(other) => Ok((one, other)),
            Err(error) => Err(error),
        },
        Err(error) => Err(error),
    }
}

/// Appends the item that was made.
pub(crate) fn push<T: Drop>(
    items: &mut Vec<T>,
    item: Result<T, AllocError>,
) -> Result<(), AllocError> {
    items.push(item?)?;
    Ok(())
}

/// Appends the pair of the value that was made and another one.
pub(crate) fn push_beside<A: Drop, B: Drop>(
    pairs: &mut Vec<(A, B)>,
    one: Result<A, AllocError>,
    other: B,
) -> Result<(), AllocError> {
    let one = one?;
    pairs.push((one, other))?;
    Ok(())
}

/// The first of each pair.
pub(crate) fn firsts<A: Drop, B: Drop>(
    alloc: Global,
    pairs: Vec<(A, B)>,
) -> Result<Vec<A>, AllocError> {
    let mut firsts = Vec::new(alloc);
    for (first, _) in pairs {
        firsts.push(first)?;
    }
    Ok(firsts)
}

/// The second of a pair.
pub(crate) fn second<A: Drop, B: Drop>(pair: (A, B)) -> B {
    let (_, second) = pair;
    second
}

/// Appends a text that was made.
pub(crate) fn push_text(
    text: &mut String,
    piece: Result<String, AllocError>,
) -> Result<(), AllocError> {
    let piece = piece?;
    text.push_str(piece.as_str())
}
