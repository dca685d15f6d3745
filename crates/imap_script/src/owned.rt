//! Large values that are at hand while something else may fail.
//!
//! A function lets go at each `?` of what it owns there. The proof of that is short where the type is a parameter.

/// Returns `rest`, and the value that was made beside it. Fails as `made` did, and lets go of `rest` then.
pub(crate) fn with_made<R: Drop, T: Drop, E: Drop>(
    rest: R,
    made: Result<T, E>,
) -> Result<(R, T), E> {
    let made = made?;
    Ok((rest, made))
}
