//! Whether standard error takes a line.

use libc::STDERR_FILENO;
use libc::net::{POLLOUT, poll};
use libc::types::pollfd;

/// How long a program that ends waits for a reader of standard error.
const LAST_WAIT: i32 = 1_000;

/// Whether standard error takes a line without a wait. A pipe that can be written has room for 4,096 octets (poll(2),
/// pipe(7)). One that fails has nobody to wait for.
pub(crate) fn takes_line() -> bool {
    takes_line_within(0)
}

/// The same for the last lines of a program that ends: a reader may be behind for a second.
pub(crate) fn takes_last_lines() -> bool {
    takes_line_within(LAST_WAIT)
}

fn takes_line_within(milliseconds: i32) -> bool {
    let mut asked = [pollfd {
        fd: STDERR_FILENO,
        events: POLLOUT,
        revents: 0,
    }];
    poll(&mut asked, milliseconds) > 0
}
