//! The time of day.

use imap_host::{Moment, Moments};
use std::rt::Clock;
use std::time::SystemTime;

/// The clock of the system.
#[derive(Drop)]
pub(crate) struct SystemClock<'a, R: Clock> {
    pub(crate) rt: &'a R,
}

impl<'a, R: Clock> Moments for SystemClock<'a, R> {
    /// The first moment if the clock can't be read, or is before 1970 or after 9999.
    fn now(&self) -> Moment {
        read(self.rt).unwrap_or(Moment::epoch())
    }
}

fn read<R: Clock>(rt: &R) -> Option<Moment> {
    let now = SystemTime::now(rt).ok()?;
    let since = now.duration_since(SystemTime::UNIX_EPOCH).ok()?;
    Moment::from_seconds(since.as_secs())
}
