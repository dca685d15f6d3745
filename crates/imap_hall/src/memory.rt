//! About how much memory steps and replies hold.
//!
//! The numbers are hints, on which no contract relies: the size of a value, and the octets of the texts in it. A
//! text that is shared counts wherever it stands. Of a part of a message the octets of the part count.

mod keys;
mod replies;
mod steps;

use crate::memory::steps::step_octets;
use imap_lex::Octets;
use imap_print::Response;
use imap_saving::Step;
pub use replies::reply_octets;

/// About how many octets a step holds with its replies.
pub fn entry_octets(step: &Step, replies: &[Response]) -> u64 {
    let mut octets = step_octets(step);
    for reply in replies {
        octets = octets.saturating_add(reply_octets(reply));
    }
    octets
}

/// What holds memory.
pub(crate) trait Holds {
    /// About how many octets it holds beside its own size.
    fn octets(&self) -> u64;
}

impl Holds for Octets {
    fn octets(&self) -> u64 {
        self.as_slice().len() as u64
    }
}

/// What a list of values holds, each of which has the size `size`.
pub(crate) fn list_octets<T: Holds>(items: &[T], size: u64) -> u64 {
    let mut octets: u64 = 0;
    for item in items {
        octets = octets.saturating_add(size).saturating_add(item.octets());
    }
    octets
}

/// Returns the octets of `count` values of the size `size` that hold nothing else.
pub(crate) fn plain_octets(count: usize, size: u64) -> u64 {
    (count as u64).saturating_mul(size)
}
