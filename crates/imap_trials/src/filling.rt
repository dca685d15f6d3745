//! Mailboxes are saved, each by the changes that make it.

ghost use Rattle.std.specs.Prelude.{◌≡◌, IfOk};
ghost use Rattle.imap_world.specs.Ready.{IsReady};
ghost use Rattle.imap_world.specs.Stored.{world_of};

use crate::owned::both;
use bitflags::Flags;
use imap_keeper::{KeepError, Keeper};
use imap_names::{Name, UserName};
use imap_rights::{Acl, Identifier, Rights, RightsChange};
use imap_world::{Change, Effect, MailboxEntry, World, WorldError};
use std::alloc::{AllocError, Global};

/// Saves the mailboxes of `world`, which are without messages, into the keeper, which has none, and returns it.
pub(crate) fn filled<K: Keeper + Drop>(
    alloc: Global,
    mut keeper: K,
    world: &World,
) -> Result<K, KeepError> {
    match fill(alloc, &mut keeper, world) {
        Ok(()) => Ok(keeper),
        Err(error) => {
            drop(keeper);
            Err(error)
        }
    }
}

fn fill<K: Keeper>(alloc: Global, keeper: &mut K, world: &World) -> Result<(), KeepError> {
    for (name, mailbox) in world.mailboxes().entries() {
        save_mailbox(alloc, keeper, name, mailbox)?;
    }
    Ok(())
}

/// Saves a new mailbox, and then its access control list.
fn save_mailbox<K: Keeper>(
    alloc: Global,
    keeper: &mut K,
    name: &Name,
    mailbox: &MailboxEntry,
) -> Result<(), KeepError> {
    save(alloc, keeper, creation(alloc, name)?)?;
    let world = keeper.load(alloc)?;
    let changes = list_changes(alloc, &world, name, &mailbox.acl);
    drop(world);
    save_all(alloc, keeper, changes?)
}

fn save_all<K: Keeper>(
    alloc: Global,
    keeper: &mut K,
    effects: Vec<Effect>,
) -> Result<(), KeepError> {
    for effect in effects {
        save(alloc, keeper, effect)?;
    }
    Ok(())
}

/// Saves what the effect makes of the mailboxes that are kept.
fn save<K: Keeper>(alloc: Global, keeper: &mut K, effect: Effect) -> Result<(), KeepError> {
    match keeper.load(alloc) {
        Ok(world) => save_in(alloc, keeper, world, effect),
        Err(error) => {
            drop(effect);
            Err(error)
        }
    }
}

/// Saves what the effect makes of `world`, which is kept.
fn save_in<K: Keeper>(
    alloc: Global,
    keeper: &mut K,
    mut world: World,
    effect: Effect,
) -> Result<(), KeepError>
    requires { K.content keeper.old (world_of world) }
{
    let prepared = prepare(alloc, &mut world, effect);
    let saved = save_prepared(alloc, keeper, &world, prepared);
    drop(world);
    saved
}

/// Saves a change of `world`, which is kept, if one could be prepared.
fn save_prepared<K: Keeper>(
    alloc: Global,
    keeper: &mut K,
    world: &World,
    prepared: Result<Change, WorldError>,
) -> Result<(), KeepError>
    requires kept { K.content keeper.old (world_of world.now) }
    requires ready { IfOk prepared (λ change. IsReady change world.now) }
{
    match prepared {
        Ok(change) => {
            let saved = save_change(alloc, keeper, world, &change);
            drop(change);
            saved
        }
        Err(WorldError::Memory) => Err(KeepError::Memory),
        Err(_) => Err(KeepError::Refused),
    }
}

/// Saves a change of `world`, which is kept.
fn save_change<K: Keeper>(
    alloc: Global,
    keeper: &mut K,
    world: &World,
    change: &Change,
) -> Result<(), KeepError>
    requires kept { K.content keeper.old (world_of world.now) }
    requires ready { IsReady change.now world.now }
{
    let _ = world;
    keeper.save(alloc, change)
}

fn prepare(alloc: Global, world: &mut World, effect: Effect) -> Result<Change, WorldError>
    ensures unchanged { world_of world.new ≡ world_of world.old }
    ensures ready { IfOk result (λ change. IsReady change world.new) }
{
    let effects = vec![in alloc; effect]?;
    world.prepare(alloc, &effects)
}

/// A mailbox is made in its owner's tree, or by anybody.
fn creation(alloc: Global, name: &Name) -> Result<Effect, AllocError> {
    let (owner, name) = both(owner_of(alloc, name), name.try_copy())?;
    Ok(Effect::Create(owner, name))
}

fn owner_of(alloc: Global, name: &Name) -> Result<UserName, AllocError> {
    match name.owner() {
        Some(owner) => owner.try_copy(),
        None => UserName::read(alloc, "anybody")?.ok_or(AllocError),
    }
}

/// What gives the mailbox this list in place of the one that it has.
fn list_changes(
    alloc: Global,
    world: &World,
    name: &Name,
    acl: &Acl,
) -> Result<Vec<Effect>, AllocError> {
    let mut changes = Vec::new(alloc);
    let pushed = push_list(alloc, &mut changes, world, name, acl);
    let (_, changes) = both(pushed, Ok(changes))?;
    Ok(changes)
}

fn push_list(
    alloc: Global,
    changes: &mut Vec<Effect>,
    world: &World,
    name: &Name,
    acl: &Acl,
) -> Result<(), AllocError> {
    if let Some(made) = world.mailbox(&name.as_ref()) {
        for entry in made.acl.entries() {
            push_rights(changes, name, &entry.identifier, Rights::empty(), alloc)?;
        }
    }
    for entry in acl.entries() {
        push_rights(changes, name, &entry.identifier, entry.rights, alloc)?;
    }
    Ok(())
}

fn push_rights(
    changes: &mut Vec<Effect>,
    name: &Name,
    identifier: &Identifier,
    rights: Rights,
    alloc: Global,
) -> Result<(), AllocError> {
    let change = RightsChange::Replace(rights);
    let (name, identifier) = both(name.try_copy(), identifier.try_copy(alloc))?;
    changes.push(Effect::SetRights(name, identifier, change))?;
    Ok(())
}
