//! A keeper that refuses from some save on.

ghost use Rattle.std.specs.Prelude.{◌≡◌, ◌-◌, Err, OnErr, OnOk};
ghost use Rattle.imap_keeper.specs.declared.error.KeepError.TheVariants.{Damaged, Refused};
ghost use Rattle.imap_keeper.specs.Keeping.{HasBase, LeavesOnly, LeavesOr, OfChanged, failures_after};
ghost use Rattle.imap_world.specs.World.{World as Mailboxes};

use crate::error::{KeepError, count_after};
use crate::keeper::Keeper;
use imap_world::{Change, World};
use std::alloc::Global;

/// Passes `left` saves on to its keeper, and refuses all later ones: for tests of what stands above.
pub struct Refuser<K: Keeper> {
    pub keeper: K,
    /// How many saves are passed on.
    pub left: u64,
    /// How often it or its keeper refused.
    pub failures: u64,
}

impl<K: Keeper> Refuser<K> {
    /// Passes `left` saves on.
    pub fn new(keeper: K, left: u64) -> Refuser<K>
        ensures { result ≡ record { keeper = keeper; left = left; failures = 0 } }
    {
        Refuser {
            keeper,
            left,
            failures: 0,
        }
    }

    /// Hands the keeper back.
    pub fn release(self) -> K
        ensures { result ≡ self.keeper }
    {
        let Refuser {
            keeper,
            left: _,
            failures: _,
        } = self;
        keeper
    }
}

impl<K: Keeper> Keeper for Refuser<K> {
    ghost content = { λ r. K.content r.keeper };

    ghost failed = { λ r. r.failures };

    ghost is_honest = { λ r. K.is_honest r.keeper };

    ghost Image = { K.Image };

    ghost leaves = { λ r. K.leaves r.keeper };

    ghost stands = { K.stands };

    fn save(&mut self, alloc: Global, change: &Change) -> Result<(), KeepError>
        requires { HasBase (K.content self.old.keeper) change.now }
        ensures ok { OfChanged (K.content self.old.keeper) change.now (λ after.
            OnOk result (K.content self.new.keeper after)) }
        ensures err { (world : Mailboxes) → K.content self.old.keeper world
            → OnErr result (K.content self.new.keeper world) }
        ensures failures { self.new.failures ≡ failures_after result self.old.failures }
        ensures undamaged { result ≡ Err Damaged → ⊥ }
        ensures honest { K.is_honest self.new.keeper → K.is_honest self.old.keeper }
        ensures crash { K.is_honest self.new.keeper
            → OfChanged (K.content self.old.keeper) change.now (λ after.
            LeavesOr (K.leaves self.old.keeper) (K.leaves self.new.keeper) (λ image. K.stands image after)) }
        ensures alone { K.is_honest self.new.keeper
            → OfChanged (K.content self.old.keeper) change.now (λ after.
            OnOk result (LeavesOnly (K.leaves self.new.keeper) (λ image. K.stands image after))) }
        ensures left { self.new.left ≡ self.old.left - 1 }
        ensures refuses { self.old.left ≡ 0
            → (result ≡ Err Refused) × (self.new.keeper ≡ self.old.keeper) }
    {
        if self.left == 0 {
            self.failures = count_after(self.failures, KeepError::Refused);
            return Err(KeepError::Refused);
        }
        self.left -= 1;
        match self.keeper.save(alloc, change) {
            Ok(()) => Ok(()),
            Err(error) => {
                self.failures = count_after(self.failures, error);
                Err(error)
            }
        }
    }

    fn load(&mut self, alloc: Global) -> Result<World, KeepError> {
        match self.keeper.load(alloc) {
            Ok(world) => Ok(world),
            Err(error) => {
                self.failures = count_after(self.failures, error);
                Err(error)
            }
        }
    }

    fn failures(&self) -> u64 {
        self.failures
    }
}
