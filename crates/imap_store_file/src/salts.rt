//! The salts of a database's log.
//!
//! The header of each log that a database begins has two salts. `sqlite` makes the second one of the number with which
//! the database was opened, as the next of a sequence of numbers (`sqlite_wal`, `next_salt`). A store is opened with its
//! identity, so that a log says over which store it was begun.

use sqlite_disk::digest_of;

/// How many logs are begun between two starts, at most, of which each holds four million octets.
const MAX_LOGS: u32 = 1 << 20;

/// The sequence of numbers, of which each is found from the one before.
const FACTOR: u64 = 0x5851_f42d_4c95_7f2d;

const SUMMAND: u64 = 0x1405_7b7e_f767_814f;

/// Whether a log with these salts was begun over the store with this identity.
pub(crate) fn are_of_store(salts: (u32, u32), identity: u64) -> bool {
    let mut state = digest_of(identity, b"salt");
    for _ in 0..MAX_LOGS {
        state = state.wrapping_mul(FACTOR).wrapping_add(SUMMAND);
        // The salt is the last four of its octets, of which the least comes first.
        if ((state >> 32) as u32).swap_bytes() == salts.1 {
            return true;
        }
    }
    false
}
