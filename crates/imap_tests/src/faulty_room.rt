//! A room that refuses one step.

use imap_serve::{HallError, Receipt, Room, Step};
use std::alloc::Global;

/// Passes all steps on to its room but one, which it refuses.
#[derive(Drop)]
pub(crate) struct FaultyRoom<R: Room> {
    room: R,
    /// How many steps it was asked for.
    asked: u32,
    /// The number of the step that it refuses, from 1.
    refused: u32,
    /// Why it refuses that.
    error: HallError,
}

impl<R: Room> FaultyRoom<R> {
    pub(crate) fn new(room: R, refused: u32, error: HallError) -> FaultyRoom<R> {
        FaultyRoom {
            room,
            asked: 0,
            refused,
            error,
        }
    }

    /// Hands the room back.
    pub(crate) fn into_inner(self) -> R {
        self.room
    }
}

impl<R: Room> Room for FaultyRoom<R> {
    ghost use Rattle.std.specs.Prelude.{⊤};

    ghost entries = { λ faulty. R.entries faulty.room };

    ghost keeps_all = { R.keeps_all };

    ghost count = { λ faulty. R.count faulty.room };

    ghost refuses = { λ _ _ _ _. ⊤ };

    fn step(&mut self, alloc: Global, step: &Step) -> Result<Receipt, HallError> {
        self.asked = self.asked.saturating_add(1);
        if self.asked == self.refused {
            return Err(self.error);
        }
        self.room.step(alloc, step)
    }

    fn change_count(&self) -> u64 {
        self.room.change_count()
    }
}
