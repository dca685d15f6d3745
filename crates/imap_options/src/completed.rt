//! Values that are completed after they are made.
//!
//! A function lets go at each `?` of what it owns there. The proof of that is short where the type is a parameter.

/// Returns `value`. Fails if what was to complete it failed, and lets go of `value` then.
pub(crate) fn completed<T: Drop, E: Drop>(value: T, done: Result<(), E>) -> Result<T, E> {
    done?;
    Ok(value)
}
