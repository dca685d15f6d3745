//! A keeper of whose refusals the report says so.

ghost use Rattle.std.specs.Prelude.{◌≡◌, Err, OnErr, OnOk};
ghost use Rattle.imap_keeper.specs.declared.error.KeepError.TheVariants.{Damaged};
ghost use Rattle.imap_keeper.specs.Keeping.{HasBase, LeavesOnly, LeavesOr, OfChanged, failures_after};
ghost use Rattle.imap_world.specs.World.{World as Mailboxes};

use crate::report::Report;
use imap_keeper::{KeepError, Keeper};
use imap_world::{Change, World};
use std::alloc::Global;
use std::sync::Wait;

/// Passes all on to its keeper. Says when that refuses, and when it saves again.
#[derive(Drop)]
pub(crate) struct ReportingKeeper<'a, K: Keeper, R: Eprint + Wait> {
    pub(crate) keeper: K,
    pub(crate) report: &'a Report<'a, R>,
    /// Whether the last save was refused.
    pub(crate) is_refusing: bool,
}

impl<'a, K: Keeper, R: Eprint + Wait> ReportingKeeper<'a, K, R> {
    /// Hands the keeper back.
    pub(crate) fn into_inner(self) -> K {
        let ReportingKeeper {
            keeper,
            report: _,
            is_refusing: _,
        } = self;
        keeper
    }
}

impl<'a, K: Keeper, R: Eprint + Wait> Keeper for ReportingKeeper<'a, K, R> {
    ghost content = { λ r. K.content r.keeper };

    ghost failed = { λ r. K.failed r.keeper };

    ghost is_honest = { λ r. K.is_honest r.keeper };

    ghost Image = { K.Image };

    ghost leaves = { λ r. K.leaves r.keeper };

    ghost stands = { K.stands };

    fn save(&mut self, alloc: Global, change: &Change) -> Result<(), KeepError> {
        let saved = self.keeper.save(alloc, change);
        self.is_refusing = note(self.report, self.is_refusing, &saved);
        saved
    }

    fn load(&mut self, alloc: Global) -> Result<World, KeepError> {
        self.keeper.load(alloc)
    }

    fn failures(&self) -> u64 {
        self.keeper.failures()
    }
}

/// Says what is new of a save. Returns whether it was refused.
fn note<R: Eprint + Wait>(
    report: &Report<'_, R>,
    was_refusing: bool,
    saved: &Result<(), KeepError>,
) -> bool {
    match saved {
        Err(KeepError::Refused | KeepError::Damaged) => {
            if !was_refusing {
                report.save_refused();
            }
            true
        }
        Err(KeepError::Memory) => was_refusing,
        Ok(()) => {
            if was_refusing {
                report.saves_again();
            }
            false
        }
    }
}
