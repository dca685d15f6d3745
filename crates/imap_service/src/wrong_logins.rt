//! Wrong logins of a user's clients, and how long their answers wait.

use std::time::{Duration, Instant};

/// The milliseconds after which the first wrong login is answered, and each further one. All later ones wait as long
/// as the last.
const PAUSES: [u64; 7] = [0, 250, 500, 1000, 2000, 4000, 5000];

/// The longest of them.
const LONGEST_PAUSE: u64 = 5000;

/// The wrong logins at a user's door since the last right one.
#[derive(Clone, Copy)]
pub struct WrongLogins {
    count: usize,
    /// How many there were when a line was last said of them.
    said: usize,
    /// When the next line may be said.
    quiet_until: Option<Instant>,
}

impl WrongLogins {
    /// Begins with none.
    pub fn new() -> WrongLogins {
        WrongLogins {
            count: 0,
            said: 0,
            quiet_until: None,
        }
    }

    /// Counts one more. Returns after what time it is answered.
    pub fn add(&mut self) -> Duration {
        let pause = pause_after(self.count);
        self.count = self.count.saturating_add(1);
        pause
    }

    /// A login was right.
    pub fn clear(&mut self) {
        *self = WrongLogins::new();
    }

    /// Returns how many there were if a line is to say so now: if some are new, and if since the last line as much time
    /// has passed as the next one waits.
    pub fn to_say(&mut self, now: Instant) -> Option<usize> {
        let is_quiet = self.quiet_until.is_some_and(|until| now < until);
        if self.count == self.said || is_quiet {
            return None;
        }
        self.said = self.count;
        self.quiet_until = now.checked_add(pause_after(self.count));
        Some(self.count)
    }
}

/// After what time a wrong login is answered after this many others.
fn pause_after(count: usize) -> Duration {
    Duration::from_millis(PAUSES.get(count).copied().unwrap_or(LONGEST_PAUSE))
}
