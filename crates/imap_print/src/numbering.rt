//! Sets of message numbers.

ghost use Rattle.std.specs.Prelude.{◌≡◌, true, false, IfOk};
ghost use Rattle.imap_print.specs.Sets.{IsNumberSet, rise_above, set_of};

use imap_values::{Same, TryCopy};
use std::alloc::{AllocError, Global};
use std::marker::Model;

/// A set of message numbers or UIDs (RFC 9051, sections 2.3.1.1 and 2.3.1.2).
///
/// It is not empty. Its numbers begin at 1 or above, and each is greater than the one before. Contracts see
/// their list.
#[derive(Drop)]
pub struct NumberSet {
    numbers: Vec<u32>,
}

impl Model for NumberSet {
    ghost use Rattle.std.specs.Prelude.{ℕ, List};
    ghost use Rattle.imap_print.specs.Sets.{IsNumberSet};

    ghost Value = { List ℕ };

    ghost view = { λ set. set.numbers.items };

    ghost invariant = { λ set. IsNumberSet set.numbers.items };
}

impl NumberSet {
    /// The set of these numbers, or `None` if there are none, one is 0, or they do not rise.
    pub fn from_rising(numbers: Vec<u32>) -> Option<NumberSet>
        ensures { result ≡ set_of numbers.items }
    {
        if !numbers.is_empty() && rise_above_zero(numbers.as_slice()) {
            Some(NumberSet { numbers })
        } else {
            None
        }
    }

    /// Returns the numbers, each greater than the one before.
    pub fn as_slice(&self) -> &[u32]
        ensures numbers { result.now ≡ self.now }
        ensures valid { IsNumberSet self.now }
    {
        self.numbers.as_slice()
    }

    /// An equal copy.
    pub fn try_copy(&self, alloc: Global) -> Result<NumberSet, AllocError>
        ensures { IfOk result (λ copy. copy ≡ self.now) }
    {
        let numbers = Vec::from_slice(alloc, self.numbers.as_slice())?;
        Ok(NumberSet { numbers })
    }
}

impl TryCopy for NumberSet {
    fn try_copy(&self, alloc: Global) -> Result<NumberSet, AllocError> {
        self.try_copy(alloc)
    }
}

impl Same for NumberSet {
    fn is_same(&self, other: &NumberSet) -> bool {
        self.as_slice() == other.as_slice()
    }
}

/// Whether the first number is above 0, and each other above the one before.
fn rise_above_zero(numbers: &[u32]) -> bool
    ensures { result ≡ rise_above 0 numbers.now }
{
    let mut low = 0;
    for number in numbers {
        if *number <= low {
            return false;
        }
        low = *number;
    }
    true
}
