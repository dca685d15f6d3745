//! The time of day.

use imap_hall::Moment;

/// A clock.
pub trait Moments {
    /// The moment of a step.
    fn now(&self) -> Moment;
}
