//! Large values that are at hand while something else may fail.
//!
//! A function lets go at each `?` of what it owns there. The proof of that is short where the type is a parameter.

use std::alloc::{AllocError, Global};
use std::io;
use std::sync::Arc;

/// Returns the value that was made, and `rest` beside it. Fails as `made` did, and lets go of `rest` then.
pub(crate) fn beside<T: Drop, R: Drop, E: Drop>(made: Result<T, E>, rest: R) -> Result<(T, R), E> {
    let made = made?;
    Ok((made, rest))
}

/// Appends the item that was made.
pub(crate) fn push<T: Drop>(
    items: &mut Vec<T>,
    item: Result<T, AllocError>,
) -> Result<(), AllocError> {
    items.push(item?)?;
    Ok(())
}

/// Returns a handle to the value, which others may share.
pub(crate) fn shared<T: Drop>(alloc: Global, value: T) -> io::Result<Arc<T>> {
    Ok(Arc::new(alloc, value)?)
}
