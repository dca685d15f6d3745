//! How many descriptors the program may have open, and how many it needs.

use crate::pending_logins::MAX_LOGINS;
use std::fs;
use std::rt::Files;

/// What is needed beside connections: standard streams, the database with its log, and some to spare.
const SPARE: u64 = 16;

/// What a port needs, with as many connections as a user may have: its listener; and for each connection the socket,
/// what it is waited for by, and its waker.
const PER_PORT: u64 = 1 + 3 * 16;

/// What a port needs besides whose clients log in: the connections that wait for their logins and one too many, and
/// what they are waited for by.
const PER_LOGIN_PORT: u64 = MAX_LOGINS as u64 + 2;

/// Returns how many descriptors are needed to serve this many ports, at as many of which as `login_ports` says clients
/// log in.
pub fn needed(ports: usize, login_ports: usize) -> u64 {
    let for_logins = (login_ports as u64).saturating_mul(PER_LOGIN_PORT);
    (ports as u64)
        .saturating_mul(PER_PORT)
        .saturating_add(for_logins)
        .saturating_add(SPARE)
}

/// Returns how many descriptors the program may have open, or `None` if that can't be read, or there is no limit.
pub(crate) fn allowed<R: Files + AllocGlobal>(rt: &R) -> Option<u64> {
    match fs::read_to_string(rt, "/proc/self/limits") {
        Ok(text) => read_limit(text.as_str()),
        Err(_) => None,
    }
}

/// Reads the soft limit of open files from the text of `/proc/self/limits`.
pub fn read_limit(text: &str) -> Option<u64> {
    let line = text
        .lines()
        .find(|line| line.starts_with("Max open files"))?;
    let word = line.split_whitespace().nth(3)?;
    word.parse::<u64>().ok()
}
