//! Steps that were made.

ghost use Rattle.std.specs.Prelude.{◌≡◌};

use crate::journal::Receipt;
use imap_saving::Step;
use std::marker::Model;

/// A step that a hall made, with the receipt of its entry. [`Hall::step_pair`](crate::Hall::step_pair) alone makes
/// one, and none is changed: what is filed as a step was made as this step.
pub struct MadeStep {
    step: Step,
    receipt: Receipt,
}

// Not derived: a derived one is proved anew in each crate that lets go of one.
impl Drop for MadeStep {
    fn drop(self) {
        let MadeStep {
            step: _,
            receipt: _,
        } = self;
    }
}

impl Model for MadeStep {
    ghost use Rattle.imap_saving.specs.StepType.{the_row as step_row};
    ghost use Rattle.imap_print.specs.contracts.response.Response.{the_row as response_row};
    ghost use Rattle.imap_hall.specs.Made.{Made, made_code};

    ghost Value = { Made };

    ghost coded = { made_code step_row.coded response_row.coded };

    ghost view = { λ made. record { step = made.step; receipt = made.receipt } };
}

impl MadeStep {
    pub(crate) fn new(step: Step, receipt: Receipt) -> MadeStep
        ensures step { result.step ≡ step }
        ensures receipt { result.receipt ≡ receipt }
    {
        MadeStep { step, receipt }
    }

    /// Returns the step.
    pub fn step(&self) -> &Step
        ensures { result.now ≡ self.now.step }
    {
        &self.step
    }

    /// Returns the receipt of the step's entry.
    pub fn receipt(&self) -> &Receipt
        ensures { result.now ≡ self.now.receipt }
    {
        &self.receipt
    }
}
