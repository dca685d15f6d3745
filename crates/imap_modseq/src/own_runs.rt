//! The own changes of one user.

ghost use Rattle.std.specs.Prelude.{◌≡◌, ◌+◌, ◌<◌, ◌≤◌, [], ◌++◌, length, replicate, slice_index, IfOk, OnOk, OnErr};
ghost use Rattle.std.specs.Prelude.{◌↔◌, IsTrue};
ghost use Rattle.imap_modseq.specs.Merge.{AreInOrder};
ghost use Rattle.imap_modseq.specs.Numbers.{max_events, own_before};

use crate::run::{
    Run, add_run, are_same, before_at, changes_before, changes_before_near, copy_of, ends_at,
    len_of, lengthen, may_follow,
};
use std::alloc::{AllocError, Global};
use std::marker::Model;

/// For each own change of a user the number of shared events before it, in the order of the changes.
///
/// It grows by the changes that are the first after a shared event, and not by others.
#[derive(Drop)]
pub struct OwnRuns {
    runs: Vec<Run>,
}

impl Model for OwnRuns {
    ghost use Rattle.std.specs.Prelude.{◌-◌, vec_len};
    ghost use Rattle.std.specs.Vec.{vec_capacity};
    ghost use Rattle.imap_modseq.specs.Runs.{Owned, owned_code, befores_in, AreRuns};

    ghost Value = { Owned };

    ghost coded = { owned_code };

    ghost view = { λ o. record {
      befores = befores_in 0 o.runs.items;
      room = vec_capacity o.runs - vec_len o.runs;
    } };

    ghost invariant = { λ o. AreRuns 0 0 o.runs.items };
}

impl OwnRuns {
    /// No changes.
    pub fn new(alloc: Global) -> OwnRuns
        ensures { result.befores ≡ [] }
    {
        OwnRuns {
            runs: Vec::new(alloc),
        }
    }

    /// The number of changes.
    pub fn len(&self) -> u64
        ensures { result ≡ length self.now.befores }
    {
        len_of(&self.runs)
    }

    /// The number of shared events before the change at `place`, by a search that halves.
    pub fn before(&self, place: u64) -> u64
        requires { place < length self.now.befores }
        ensures { result ≡ slice_index self.now.befores place }
    {
        before_at(&self.runs, place)
    }

    /// How many of the changes come before the shared event at `place`, by a search that halves.
    pub fn count_before(&self, place: u64) -> u64
        ensures { result ≡ own_before self.now.befores place }
    {
        changes_before(&self.runs, place)
    }

    /// As [`OwnRuns::count_before`], at once if the runs before the event are `near` or one more. `near` is then their
    /// number.
    pub fn count_before_near(&self, place: u64, near: &mut usize) -> u64
        ensures { result ≡ own_before self.now.befores place }
    {
        changes_before_near(&self.runs, place, near)
    }

    /// Makes room for `more` changes.
    pub fn reserve(&mut self, more: usize) -> Result<(), AllocError>
        ensures befores { self.new.befores ≡ self.old.befores }
        ensures ok { OnOk result (more ≤ self.new.room) }
        ensures room { self.old.room ≤ self.new.room }
    {
        self.runs.reserve(more)
    }

    /// Whether a change with `before` shared events before it may be the next.
    pub fn may_follow(&self, before: u64) -> bool
        ensures { IsTrue result ↔ AreInOrder 0 before self.now.befores }
    {
        may_follow(&self.runs, before)
    }

    /// Appends `more` changes with `before` shared events before each, in room that was made before.
    pub fn push_reserved(&mut self, before: u64, more: u64)
        requires more { 0 < more }
        requires room { 0 < self.old.room }
        requires few { length self.old.befores + more ≤ max_events }
        requires order { AreInOrder 0 before self.old.befores }
        ensures befores { self.new.befores ≡ self.old.befores ++ replicate more before }
        ensures room { self.old.room ≤ self.new.room + 1 }
    {
        if ends_at(&self.runs, before) {
            lengthen(&mut self.runs, more);
        } else {
            add_run(&mut self.runs, before, more);
        }
    }

    /// Appends `more` changes with `before` shared events before each.
    pub fn push(&mut self, before: u64, more: u64) -> Result<(), AllocError>
        requires more { 0 < more }
        requires few { length self.old.befores + more ≤ max_events }
        requires order { AreInOrder 0 before self.old.befores }
        ensures ok { OnOk result (self.new.befores ≡ self.old.befores ++ replicate more before) }
        ensures err { OnErr result (self.new.befores ≡ self.old.befores) }
    {
        self.reserve(1)?;
        self.push_reserved(before, more);
        Ok(())
    }

    /// Whether both have the same changes, whatever their room.
    pub fn is_same(&self, other: &OwnRuns) -> bool
        ensures { IsTrue result ↔ (self.now.befores ≡ other.now.befores) }
    {
        are_same(&self.runs, &other.runs)
    }

    /// Returns an equal copy, with the same room.
    pub fn try_copy(&self, alloc: Global) -> Result<OwnRuns, AllocError>
        ensures { IfOk result (λ copy. copy ≡ self.now) }
    {
        let runs = copy_of(alloc, &self.runs)?;
        Ok(OwnRuns { runs })
    }
}
