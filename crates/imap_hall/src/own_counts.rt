//! How many entries the journal has of each session of one user.

ghost use Rattle.std.specs.Prelude.{◌≡◌, ◌<◌, ◌==◌, ◌^◌, [], ℕ, OnOk, get_or, length, set};
ghost use Rattle.std.specs.List.{position};
ghost use Rattle.imap_hall.specs.Counts.{HasNumber, IsCountedAt, count_at, raised};

use imap_saving::SessionNumber;
use imap_values::TryCopy;
use std::alloc::{AllocError, Global};
use std::marker::Model;

/// A count for each number. A user has so few sessions that a plain walk finds one. Contracts see the numbers
/// with their counts.
#[derive(Drop)]
pub(crate) struct OwnCounts {
    entries: Vec<(SessionNumber, u64)>,
}

impl Model for OwnCounts {
    ghost use Rattle.imap_hall.specs.Counts.{OwnCounts, own_counts_code};

    ghost Value = { OwnCounts };

    ghost coded = { own_counts_code };

    ghost view = { λ counts. counts.entries.items };
}

impl OwnCounts {
    /// No number has a count. It takes no memory.
    pub(crate) fn new(alloc: Global) -> OwnCounts
        ensures { result ≡ [] }
    {
        OwnCounts {
            entries: Vec::new(alloc),
        }
    }

    /// Returns the count of a number, 0 if it has none.
    pub(crate) fn count(&self, number: SessionNumber) -> u64
        ensures { result ≡ count_at self.now number }
    {
        count_in(self.entries.as_slice(), number)
    }

    /// Gives a number without a count the count 0.
    #[tactic(auto, using(crate::proofs::Counting::same_push))]
    pub(crate) fn reserve(&mut self, number: SessionNumber) -> Result<(), AllocError>
        ensures same { (other : ℕ) → count_at self.new other ≡ count_at self.old other }
        ensures ok { OnOk result (HasNumber self.new number) }
    {
        if index_of(self.entries.as_slice(), number).is_none() {
            self.entries.push((number, 0))?;
        }
        Ok(())
    }

    /// Raises the count of a number that has one.
    pub(crate) fn raise(&mut self, number: SessionNumber)
        requires there { HasNumber self.old number }
        requires bound { count_at self.old number < 2 ^ 63 }
        ensures { IsCountedAt number self.old self.new }
    {
        match index_of(self.entries.as_slice(), number) {
            Some(index) => raise_at(&mut self.entries, index),
            None => {}
        }
    }
}

impl TryCopy for OwnCounts {
    fn try_copy(&self, alloc: Global) -> Result<OwnCounts, AllocError> {
        let entries = Vec::from_slice(alloc, self.entries.as_slice())?;
        Ok(OwnCounts { entries })
    }
}

fn count_in(entries: &[(SessionNumber, u64)], number: SessionNumber) -> u64
    ensures { result ≡ count_at entries.now number }
{
    for entry in entries {
        if entry.0 == number {
            return entry.1;
        }
    }
    0
}

fn index_of(entries: &[(SessionNumber, u64)], number: SessionNumber) -> Option<usize>
    ensures { result ≡ position (λ e. e.0 == number) entries.now }
{
    entries.iter().position(|entry| entry.0 == number)
}

/// Raises the count at an index.
fn raise_at(entries: &mut Vec<(SessionNumber, u64)>, index: usize)
    requires index { index < length entries.old.items }
    requires bound { (get_or entries.old.items index (0, 0)).1 < 2 ^ 63 }
    ensures { entries.new.items
        ≡ set entries.old.items index (raised (get_or entries.old.items index (0, 0))) }
{
    entries[index].1 += 1;
}
