//! Mailboxes beside what keeps them.

ghost use Rattle.std.specs.Prelude.{◌≡◌, ℕ, IfOk};
ghost use Rattle.imap_world.specs.Ready.{IsReady};
ghost use Rattle.imap_world.specs.Stored.{world_of};

use crate::maildir_error::MaildirError;
use imap_keeper::{KeepError, Keeper};
use imap_world::{Change, Effect, World, WorldError};
use std::alloc::Global;
use std::marker::Model;

/// Mailboxes, and the keeper that keeps them.
#[derive(Drop)]
pub struct KeptMailboxes<K: Keeper> {
    keeper: K,
    world: World,
}

impl<K: Keeper> Model for KeptMailboxes<K> {
    ghost Value = { ℕ };

    ghost view = { λ _. 0 };

    ghost invariant = { λ s. K.content s.keeper (world_of s.world) };
}

/// Why a change isn't made.
#[derive(Clone, Copy)]
pub(crate) enum ChangeFault {
    /// The mailboxes don't take it.
    World(WorldError),
    /// The keeper doesn't keep it.
    Keeper(KeepError),
}

impl ChangeFault {
    /// Returns the error of a change of the mailbox that the folder at the path holds.
    pub(crate) fn of_folder(self, alloc: Global, path: &str) -> MaildirError {
        match self {
            ChangeFault::World(error) => MaildirError::of_change(alloc, path, error),
            ChangeFault::Keeper(KeepError::Memory) => MaildirError::Memory,
            ChangeFault::Keeper(_) => MaildirError::Refused,
        }
    }

    /// Returns the error of a change that a line of the file of lists asks for.
    pub(crate) fn of_line(self, line: usize) -> MaildirError {
        match self {
            ChangeFault::World(WorldError::Memory) => MaildirError::Memory,
            ChangeFault::World(_) => MaildirError::List { line },
            ChangeFault::Keeper(KeepError::Memory) => MaildirError::Memory,
            ChangeFault::Keeper(_) => MaildirError::Refused,
        }
    }
}

impl<K: Keeper> KeptMailboxes<K> {
    /// Loads the mailboxes that the keeper keeps. The error returns the keeper.
    pub fn load(alloc: Global, mut keeper: K) -> Result<KeptMailboxes<K>, (K, KeepError)> {
        match keeper.load(alloc) {
            Ok(world) => Ok(KeptMailboxes { keeper, world }),
            Err(error) => Err((keeper, error)),
        }
    }

    /// Returns the mailboxes.
    pub fn world(&self) -> &World {
        &self.world
    }

    /// Returns the keeper.
    pub fn into_keeper(self) -> K {
        let KeptMailboxes { keeper, world } = self;
        drop(world);
        keeper
    }

    /// Makes a change, which is saved before it is made.
    pub(crate) fn make(&mut self, alloc: Global, effect: Effect) -> Result<(), ChangeFault> {
        match prepare(alloc, &mut self.world, effect) {
            Ok(change) => save(alloc, &mut self.keeper, &mut self.world, change),
            Err(error) => Err(ChangeFault::World(error)),
        }
    }
}

fn prepare(alloc: Global, world: &mut World, effect: Effect) -> Result<Change, WorldError>
    ensures unchanged { world_of world.new ≡ world_of world.old }
    ensures ready { IfOk result (λ change. IsReady change world.new) }
{
    let effects = vec![in alloc; effect]?;
    world.prepare(alloc, &effects)
}

/// Saves a change, and makes it.
fn save<K: Keeper>(
    alloc: Global,
    keeper: &mut K,
    world: &mut World,
    change: Change,
) -> Result<(), ChangeFault>
    requires kept { K.content keeper.old (world_of world.old) }
    requires ready { IsReady change world.old }
    ensures kept { K.content keeper.new (world_of world.new) }
{
    match keeper.save(alloc, &change) {
        Ok(()) => {
            world.commit(change);
            Ok(())
        }
        Err(error) => Err(ChangeFault::Keeper(error)),
    }
}
