//! The trait of what makes the steps of a session.

ghost use Rattle.std.specs.Prelude.{◌≡◌, ◌+◌, ℕ, Bool, IfErr, IfOk, List, OnErr, OnOk};
ghost use Rattle.imap_saving.specs.Step.{Step as Steps};
ghost use Rattle.imap_hall.specs.declared.error.HallError.{HallError as Errors};
ghost use Rattle.imap_hall.specs.Journal.{JournalEntry};
ghost use Rattle.imap_hall.specs.Receipts.{IsAdded, IsNewest};

use crate::error::HallError;
use crate::journal::Receipt;
use imap_saving::Step;
use std::alloc::Global;

/// Makes the steps of a session: a hall, or one of several seats at a hall.
pub trait Room {
    /// The entries that were made in it, as far as it keeps them.
    ghost entries: { Self → List JournalEntry };

    /// Whether it keeps all entries.
    ghost keeps_all: { Bool };

    /// How many steps were made in it.
    ghost count: { Self → ℕ };

    /// The room refused the step for this reason. The first value is the room before, the last one after.
    ghost refuses: { Self → Steps → Errors → Self → Type 0 };

    /// Makes one step, whose entry is the newest. It may let go of old ones.
    fn step(&mut self, alloc: Global, step: &Step) -> Result<Receipt, HallError>
        ensures ok { IfOk result (λ r. IsAdded keeps_all (entries self.old) step.now r (entries self.new)) }
        ensures newest { IfOk result (λ r. IsNewest step.now r (entries self.new)) }
        ensures counted { OnOk result (count self.new ≡ count self.old + 1) }
        ensures err { OnErr result (entries self.new ≡ entries self.old) }
        ensures uncounted { OnErr result (count self.new ≡ count self.old) }
        ensures refused { IfErr result (λ e. refuses self.old step.now e self.new) };

    /// Counts what may have changed something that sessions are told of: a session that finds the count as it was has
    /// nothing to ask for. It is a hint, on which no contract relies.
    fn change_count(&self) -> u64;
}
