//! A user's own change of `\Seen` that is kept.

/// A change of a user's own `\Seen` that is kept: the last one of its message, or the last one before a shared event.
#[derive(Clone, Copy)]
pub struct KeptChange {
    /// Its place among all own changes of the user, from 0, of which some aren't kept.
    pub place: u64,
    /// The number of shared events before it.
    pub before: u64,
    pub uid: u32,
    /// Whether it sets the flag.
    pub seen: bool,
}
