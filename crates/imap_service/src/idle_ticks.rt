//! Reads that bring nothing.
//!
//! Each second has 32 reads that bring nothing. At most 31 are answered by the waker, the rest at once when
//! the second has passed, so that a session ends after 1,800 seconds however often it is woken.

/// How many reads that bring nothing a second has.
pub const TICKS_PER_SECOND: u64 = 32;

/// Counts the reads that bring nothing, which are the ticks of an idling session. Each second has the same number
/// of them, however often the session's worker is woken: a wake ends a read at once and is a tick, the end of the
/// second is one, and the rest follow at once after it.
#[derive(Drop)]
pub struct IdleTicks {
    /// How many wakes may still be ticks of this second.
    spare: u64,
    /// How many ticks of the last second are still to come.
    owed: u64,
}

impl IdleTicks {
    /// Begins a second.
    pub fn new() -> IdleTicks {
        IdleTicks {
            spare: TICKS_PER_SECOND - 1,
            owed: 0,
        }
    }

    /// Takes a tick that the last second is owed. Returns whether there was one.
    pub fn take_owed(&mut self) -> bool {
        let is_owed = self.owed > 0;
        self.owed = self.owed.saturating_sub(1);
        is_owed
    }

    /// Whether a wake may be a tick of this second.
    pub fn may_wake(&self) -> bool {
        self.spare > 0
    }

    /// Counts a wake as a tick.
    pub fn count_wake(&mut self) {
        self.spare = self.spare.saturating_sub(1);
    }

    /// Counts the end of the second as a tick, and begins the next second.
    pub fn end_second(&mut self) {
        self.owed = self.spare;
        self.spare = TICKS_PER_SECOND - 1;
    }
}
