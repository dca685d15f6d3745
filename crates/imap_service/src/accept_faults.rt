//! Accepts that fail.

use std::io;
use std::time::Duration;

/// How many times in a row no connection can be had before a listener is given up.
const MAX_FAULTS: u32 = 16;

/// The first pause after a failing accept, and the longest, in milliseconds.
const PAUSES: (u64, u64) = (10, 1000);

/// More descriptors are open in the system, or in the process, than may be (`ENFILE`, `EMFILE`), or the system has no
/// room for a connection (`ENOBUFS`).
const WANTS: [i32; 3] = [23, 24, 105];

/// Accepts that failed in a row.
#[derive(Clone, Copy)]
pub struct AcceptFaults {
    count: u32,
    millis: u64,
}

impl AcceptFaults {
    /// Begins with no accept that failed.
    pub fn new() -> AcceptFaults {
        AcceptFaults {
            count: 0,
            millis: PAUSES.0 / 2,
        }
    }

    /// Notes one more. Returns whether it is to be tried again, after a pause. Want of descriptors or memory, and a
    /// connection that was given up by its client, are not counted.
    pub fn may_go_on(&mut self, error: &io::Error) -> bool {
        self.millis = self.millis.saturating_mul(2).min(PAUSES.1);
        if is_passing(error) {
            return true;
        }
        self.count = self.count.saturating_add(1);
        self.count < MAX_FAULTS
    }

    /// The pause before the next accept.
    pub fn pause(&self) -> Duration {
        Duration::from_millis(self.millis)
    }
}

/// Whether it may pass by itself.
fn is_passing(error: &io::Error) -> bool {
    match error.kind() {
        io::ErrorKind::OutOfMemory
        | io::ErrorKind::ConnectionAborted
        | io::ErrorKind::Interrupted => true,
        _ => error
            .raw_os_error()
            .is_some_and(|code| WANTS.contains(&code)),
    }
}
