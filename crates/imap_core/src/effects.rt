//! What steps ask of the mailboxes.

ghost use Rattle.std.specs.Prelude.{◌≡◌, Ok, IfOk, OnOk};
ghost use Rattle.imap_world.specs.Effects.{after_all, writes_of};
ghost use Rattle.imap_world.specs.Ready.{AreApart, IsReady};
ghost use Rattle.imap_world.specs.Stored.{world_of};

use imap_values::beside;
use imap_world::{Change, Effect, World};
use std::alloc::{AllocError, Global};

/// Finds the values to be written for the effects, and makes room for them. Each effect can be made as
/// far as the protocol's limits go, so that only memory can run out.
pub(crate) fn resolve_effects(
    alloc: Global,
    world: &mut World,
    effects: &[Effect],
) -> Result<Change, AllocError>
    requires { AreApart effects.now }
    ensures unchanged { world_of world.new ≡ world_of world.old }
    ensures change { IfOk result (λ change. writes_of effects.now (world_of world.old) ≡ Ok change) }
    ensures ready { IfOk result (λ change. IsReady change world.new) }
{
    match world.prepare(alloc, effects) {
        Ok(change) => Ok(change),
        Err(_) => Err(AllocError),
    }
}

/// Makes the effects, and returns a copy of what was written.
pub(crate) fn with_effects(
    alloc: Global,
    mut world: World,
    effects: &[Effect],
) -> Result<(World, Change), AllocError>
    requires { AreApart effects.now }
    ensures world { IfOk result (λ made. world_of made.0 ≡ after_all effects.now (world_of world)) }
    ensures change { IfOk result (λ made. writes_of effects.now (world_of world) ≡ Ok made.1) }
{
    let made = make_effects(alloc, &mut world, effects);
    let (change, world) = beside(made, world)?;
    Ok((world, change))
}

fn make_effects(alloc: Global, world: &mut World, effects: &[Effect]) -> Result<Change, AllocError>
    requires { AreApart effects.now }
    ensures world { OnOk result (world_of world.new ≡ after_all effects.now (world_of world.old)) }
    ensures change { IfOk result (λ change. writes_of effects.now (world_of world.old) ≡ Ok change) }
{
    let change = resolve_effects(alloc, world, effects)?;
    let (copy, change) = beside(change.try_copy(alloc), change)?;
    world.commit(change);
    Ok(copy)
}
