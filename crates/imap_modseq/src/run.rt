//! Own changes of a user between two shared events.

ghost use Rattle.std.specs.Prelude.{◌≡◌, ◌+◌, ◌<◌, ◌≤◌, [], ◌∷◌, ◌++◌, length, nat_le, slice_index, vec_len, ◌↔◌, IsTrue, IfOk};
ghost use Rattle.std.specs.Vec.{vec_capacity};
ghost use Rattle.imap_modseq.specs.Merge.{AreInOrder};
ghost use Rattle.imap_modseq.specs.Numbers.{max_events, own_before};
ghost use Rattle.imap_modseq.specs.Runs.{befores_in, AreRuns, count_in, count_until, ends_at, lengthened};

use crate::own_change::{OwnChange, count_before, count_before_near};
use std::alloc::{AllocError, Global};

/// Own changes of a user between two shared events.
#[derive(Clone, Copy)]
pub struct Run {
    /// The number of shared events before each of them.
    pub before: u64,
    /// The number of the user's own changes up to the last of them.
    pub count: u64,
}

impl OwnChange for Run {
    ghost before = { λ run. run.before };

    fn events_before(&self) -> u64 {
        self.before
    }
}

/// The number of changes.
pub(crate) fn len_of(runs: &[Run]) -> u64
    ensures { result ≡ count_in 0 runs.now }
{
    match runs.last() {
        Some(run) => run.count,
        None => 0,
    }
}

/// The number of changes in the first `len` runs.
pub(crate) fn count_of_first(runs: &[Run], len: usize) -> u64
    requires { len ≤ length runs.now }
    ensures { result ≡ count_until 0 runs.now len }
{
    if len == 0 { 0 } else { runs[len - 1].count }
}

/// Returns how many changes come before the shared event at `place`, by a search that halves.
pub(crate) fn changes_before(runs: &[Run], place: u64) -> u64
    requires { AreRuns 0 0 runs.now }
    ensures { result ≡ own_before (befores_in 0 runs.now) place }
{
    count_of_first(runs, count_before(runs, place))
}

/// Returns what [`changes_before`] returns, at once if `near` runs or one more come before the event. `near` is then
/// their number.
pub(crate) fn changes_before_near(runs: &[Run], place: u64, near: &mut usize) -> u64
    requires { AreRuns 0 0 runs.now }
    ensures { result ≡ own_before (befores_in 0 runs.now) place }
{
    let count = count_before_near(runs, place, *near);
    *near = count;
    count_of_first(runs, count)
}

/// Returns the number of shared events before the change at `place`, by a search that halves.
pub(crate) fn before_at(runs: &[Run], place: u64) -> u64
    requires runs { AreRuns 0 0 runs.now }
    requires within { place < length (befores_in 0 runs.now) }
    ensures { result ≡ slice_index (befores_in 0 runs.now) place }
{
    let earlier = runs.partition_point(
        |run: &Run| -> bool
            ensures { result ≡ nat_le run.now.count place }
        { run.count <= place },
    );
    runs[earlier].before
}

/// Whether the changes of the last run have `before` shared events before them.
pub(crate) fn ends_at(runs: &[Run], before: u64) -> bool
    ensures { result ≡ ends_at before runs.now }
{
    match runs.last() {
        Some(run) => run.before == before,
        None => false,
    }
}

/// Whether no change has more than `before` shared events before it.
pub(crate) fn may_follow(runs: &[Run], before: u64) -> bool
    requires { AreRuns 0 0 runs.now }
    ensures { IsTrue result ↔ AreInOrder 0 before (befores_in 0 runs.now) }
{
    match runs.last() {
        Some(run) => run.before <= before,
        None => true,
    }
}

/// Adds `more` changes to the last run.
pub(crate) fn lengthen(runs: &mut Vec<Run>, more: u64)
    requires some { 0 < length runs.old.items }
    requires few { count_in 0 runs.old.items + more ≤ max_events }
    ensures items { runs.new.items ≡ lengthened more runs.old.items }
    ensures len { vec_len runs.new ≡ vec_len runs.old }
    ensures capacity { vec_capacity runs.new ≡ vec_capacity runs.old }
{
    let last = runs.len() - 1;
    let count = len_of(runs) + more;
    runs[last].count = count;
}

/// Adds a run of `more` changes, in room that was made before.
pub(crate) fn add_run(runs: &mut Vec<Run>, before: u64, more: u64)
    requires room { vec_len runs.old < vec_capacity runs.old }
    requires few { count_in 0 runs.old.items + more ≤ max_events }
    ensures items { runs.new.items ≡ runs.old.items
        ++ record { before = before; count = count_in 0 runs.old.items + more } ∷ [] }
    ensures len { vec_len runs.new ≡ vec_len runs.old + 1 }
    ensures capacity { vec_capacity runs.new ≡ vec_capacity runs.old }
{
    let count = len_of(runs) + more;
    runs.push_reserved(Run { before, count });
}

/// Whether both are the same runs.
pub(crate) fn are_same(runs: &[Run], others: &[Run]) -> bool
    ensures { IsTrue result ↔ (runs.now ≡ others.now) }
{
    let mut rest = others;
    for run in runs {
        match rest {
            [] => return false,
            [other, later @ ..] => {
                if !is_same(run, other) {
                    return false;
                }
                rest = later;
            }
        }
    }
    rest.is_empty()
}

fn is_same(run: &Run, other: &Run) -> bool
    ensures { IsTrue result ↔ (run.now ≡ other.now) }
{
    run.before == other.before && run.count == other.count
}

/// Returns an equal copy with the same capacity.
pub(crate) fn copy_of(alloc: Global, runs: &Vec<Run>) -> Result<Vec<Run>, AllocError>
    ensures items { IfOk result (λ copy. copy.items ≡ runs.now.items) }
    ensures len { IfOk result (λ copy. vec_len copy ≡ vec_len runs.now) }
    ensures capacity { IfOk result (λ copy. vec_capacity copy ≡ vec_capacity runs.now) }
{
    let mut copy = Vec::with_capacity(alloc, runs.capacity())?;
    for run in runs {
        copy.push_reserved(*run);
    }
    Ok(copy)
}
