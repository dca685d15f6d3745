//! A keeper whose mailboxes are loaded after each save, and compared with those that it is to keep.

ghost use Rattle.std.specs.Prelude.{◌≡◌, IfOk, OnErr, OnOk};
ghost use Rattle.imap_keeper.specs.Keeping.{LeavesOnly};
ghost use Rattle.imap_world.specs.Effects.{after_writes};
ghost use Rattle.imap_world.specs.Ready.{IsCurrent};
ghost use Rattle.imap_world.specs.Stored.{world_of};
ghost use Rattle.imap_world.specs.World.{World as Mailboxes};

use crate::owned::{put, put_first};
use imap_keeper::{KeepError, Keeper, count_after};
use imap_world::{Change, World};
use std::alloc::{AllocError, Global};

/// A keeper that has another save, loads after each save, and compares the mailboxes.
pub(crate) struct ComparingKeeper<K: Keeper> {
    keeper: K,
    world: World,
    refused: Option<World>,
    others: u64,
    unread: u64,
    failures: u64,
}

/// What the comparisons with a keeper found.
#[derive(Drop)]
pub(crate) struct Comparison {
    /// The mailboxes that it is to keep.
    pub(crate) world: World,
    /// The mailboxes after the first change that the keeper refused.
    pub(crate) refused: Option<World>,
    /// How often other mailboxes were loaded.
    pub(crate) others: u64,
    /// How often none could be loaded.
    pub(crate) unread: u64,
    /// How often the keeper refused.
    pub(crate) failures: u64,
}

impl Comparison {
    /// Whether all that was saved was loaded again.
    pub(crate) fn is_whole(&self) -> bool {
        self.others == 0 && self.unread == 0 && self.failures == 0
    }
}

/// The result of a load.
#[derive(Clone, Copy)]
enum Loaded {
    /// The mailboxes that were wanted.
    Same,
    Others,
    Nothing,
}

/// Whether mailboxes that were loaded are those that are wanted.
fn compare(loaded: Result<World, KeepError>, wanted: &World) -> Result<bool, KeepError> {
    match loaded {
        Ok(world) => {
            let is_same = world.same(wanted);
            drop(world);
            Ok(is_same)
        }
        Err(error) => Err(error),
    }
}

/// Loads mailboxes, once more if memory was refused, and compares them with those that are wanted.
fn load_compared<K: Keeper>(alloc: Global, keeper: &mut K, wanted: &World) -> Loaded
    ensures unchanged { (world : Mailboxes) → K.content keeper.old world → K.content keeper.new world }
    ensures honest { K.is_honest keeper.new → K.is_honest keeper.old }
    ensures crash { K.is_honest keeper.new → LeavesOnly (K.leaves keeper.new) (K.leaves keeper.old) }
{
    let compared = match compare(keeper.load(alloc), wanted) {
        Err(KeepError::Memory) => compare(keeper.load(alloc), wanted),
        compared => compared,
    };
    match compared {
        Ok(true) => Loaded::Same,
        Ok(false) | Err(KeepError::Damaged) => Loaded::Others,
        Err(KeepError::Refused | KeepError::Memory) => Loaded::Nothing,
    }
}

/// The mailboxes after a change.
fn after_change(alloc: Global, world: &World, change: &Change) -> Result<World, AllocError>
    requires { IsCurrent change.now (world_of world.now) }
    ensures { IfOk result (λ after. world_of after ≡ after_writes change.now (world_of world.now)) }
{
    let mut after = world.try_copy(alloc)?;
    match after.apply(alloc, change) {
        Ok(()) => Ok(after),
        Err(error) => {
            drop(after);
            Err(error)
        }
    }
}

impl<K: Keeper> ComparingKeeper<K> {
    /// A keeper that is to keep `world`.
    pub(crate) fn new(keeper: K, world: World) -> ComparingKeeper<K> {
        ComparingKeeper {
            keeper,
            world,
            refused: None,
            others: 0,
            unread: 0,
            failures: 0,
        }
    }

    /// Returns the keeper, and what the comparisons found.
    pub(crate) fn into_parts(self) -> (K, Comparison) {
        let ComparingKeeper {
            keeper,
            world,
            refused,
            others,
            unread,
            failures,
        } = self;
        let comparison = Comparison {
            world,
            refused,
            others,
            unread,
            failures,
        };
        (keeper, comparison)
    }

    /// Counts what was loaded.
    fn count(&mut self, loaded: Loaded)
        ensures keeper { self.new.keeper ≡ self.old.keeper }
        ensures world { self.new.world ≡ self.old.world }
        ensures failures { self.new.failures ≡ self.old.failures }
    {
        match loaded {
            Loaded::Same => {}
            Loaded::Others => self.others = self.others.saturating_add(1),
            Loaded::Nothing => self.unread = self.unread.saturating_add(1),
        }
    }
}

impl<K: Keeper> Keeper for ComparingKeeper<K> {
    ghost use Rattle.std.specs.Prelude.{◌≡◌};
    ghost use Rattle.imap_world.specs.Stored.{world_of};

    ghost content = { λ c world. K.content c.keeper world × (world_of c.world ≡ world) };

    ghost failed = { λ c. c.failures };

    ghost is_honest = { λ c. K.is_honest c.keeper };

    ghost Image = { K.Image };

    ghost leaves = { λ c. K.leaves c.keeper };

    ghost stands = { K.stands };

    fn save(&mut self, alloc: Global, change: &Change) -> Result<(), KeepError> {
        let after = after_change(alloc, &self.world, change)?;
        match self.keeper.save(alloc, change) {
            Ok(()) => {
                put(&mut self.world, after);
                let loaded = load_compared(alloc, &mut self.keeper, &self.world);
                self.count(loaded);
                Ok(())
            }
            Err(error) => {
                put_first(&mut self.refused, after);
                self.failures = count_after(self.failures, error);
                let loaded = load_compared(alloc, &mut self.keeper, &self.world);
                self.count(loaded);
                Err(error)
            }
        }
    }

    /// Other mailboxes than the wanted ones are damaged.
    fn load(&mut self, alloc: Global) -> Result<World, KeepError> {
        match self.keeper.load(alloc) {
            Ok(world) => {
                if world.same(&self.world) {
                    Ok(world)
                } else {
                    drop(world);
                    self.count(Loaded::Others);
                    Err(KeepError::Damaged)
                }
            }
            Err(error) => {
                self.failures = count_after(self.failures, error);
                Err(error)
            }
        }
    }

    fn failures(&self) -> u64 {
        self.failures
    }
}
