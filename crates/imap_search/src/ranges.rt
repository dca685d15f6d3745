//! Sets of numbers in which a number is looked up by halving (RFC 9051, section 9, `sequence-set`).

ghost use Rattle.std.specs.Prelude.{◌≡◌, ◌≤◌, ℕ, nat_le, length, map, IfOk};
ghost use Rattle.std.specs.List.Sorted.{IsNonDecreasingBy, IsPermutation};
ghost use Rattle.imap_search.specs.Ranges as specs;
ghost use Rattle.imap_targets.specs.MessageNumbers.{end_of, in_set};

use imap_syntax::SeqRange;
use imap_targets::end_of;
use std::alloc::{AllocError, Global};
use std::marker::Model;

/// The numbers from `low` up to `high`, both included.
#[derive(Clone, Copy, Drop)]
pub(crate) struct NumberRange {
    pub(crate) low: u32,
    pub(crate) high: u32,
}

/// The ranges of a set, in the order of their lower ends. No range ends before an earlier one does.
#[derive(Drop)]
pub(crate) struct NumberRanges(Vec<NumberRange>);

impl Model for NumberRanges {
    ghost use Rattle.std.specs.Prelude.{List};
    ghost use Rattle.imap_search.specs.declared.ranges.NumberRange.{NumberRange};
    ghost use Rattle.imap_search.specs.Ranges.{AreRising};

    ghost Value = { List NumberRange };

    ghost view = { λ r. r.0.items };

    ghost invariant = { λ r. AreRising r.0.items };
}

impl NumberRanges {
    /// Returns the numbers of a set, if `*` stands for `last`.
    pub(crate) fn of(
        alloc: Global,
        last: u32,
        ranges: &[SeqRange],
    ) -> Result<NumberRanges, AllocError>
        ensures { IfOk result (λ set. (n : ℕ) → specs.in_ranges set n ≡ in_set last ranges.now n) }
    {
        let mut sorted = ranges_of(alloc, last, ranges)?;
        sort_by_low(&mut sorted);
        Ok(NumberRanges(reaching(alloc, sorted.as_slice())?))
    }

    /// Whether the set has the number.
    pub(crate) fn has(&self, number: u32) -> bool
        ensures { result ≡ specs.in_ranges self.now number }
    {
        let ranges = self.0.as_slice();
        let count = count_from(ranges, number);
        if count == 0 {
            return false;
        }
        number <= ranges[count - 1].high
    }
}

/// Returns how many ranges begin with the number or before it, by a search that halves.
fn count_from(ranges: &[NumberRange], number: u32) -> usize
    requires { IsNonDecreasingBy (λ r. r.low) ranges.now }
    ensures within { result ≤ length ranges.now }
    ensures point { specs.IsCount number ranges.now result }
{
    ranges.partition_point(
        |range: &NumberRange| -> bool
            ensures { result ≡ nat_le range.now.low number }
        { range.low <= number },
    )
}

fn range_of(last: u32, range: &SeqRange) -> NumberRange
    ensures { result ≡ specs.range_of last range.now }
{
    let first = end_of(last, range.first);
    let second = end_of(last, range.last);
    if first <= second {
        NumberRange {
            low: first,
            high: second,
        }
    } else {
        NumberRange {
            low: second,
            high: first,
        }
    }
}

fn ranges_of(alloc: Global, last: u32, ranges: &[SeqRange]) -> Result<Vec<NumberRange>, AllocError>
    ensures { IfOk result (λ found. found.items ≡ map (specs.range_of last) ranges.now) }
{
    let mut found = Vec::with_capacity(alloc, ranges.len())?;
    for range in ranges {
        found.push(range_of(last, range))?;
    }
    Ok(found)
}

fn sort_by_low(ranges: &mut Vec<NumberRange>)
    ensures same { IsPermutation ranges.old.items ranges.new.items }
    ensures sorted { IsNonDecreasingBy (λ r. r.low) ranges.new.items }
{
    ranges.sort_unstable_by_key(|range| range.low);
}

/// Returns the ranges, each up to the highest end of it and those before it.
fn reaching(alloc: Global, ranges: &[NumberRange]) -> Result<Vec<NumberRange>, AllocError>
    ensures { IfOk result (λ found. found.items ≡ specs.reaching 0 ranges.now) }
{
    let mut found = Vec::with_capacity(alloc, ranges.len())?;
    let mut highest = 0;
    for range in ranges {
        highest = range.high.max(highest);
        found.push(NumberRange {
            low: range.low,
            high: highest,
        })?;
    }
    Ok(found)
}
