//! Saving changes.

ghost use Rattle.std.specs.Prelude.{◌≡◌, [], Err, Ok, OnErr, OnOk};
ghost use Rattle.imap_keeper.specs.declared.error.KeepError.TheVariants.{Damaged};
ghost use Rattle.imap_keeper.specs.Keeping.{LeavesOnly, LeavesOr, failures_after};
ghost use Rattle.imap_world.specs.Effects.{after_writes};
ghost use Rattle.imap_world.specs.Ready.{IsCurrent};
ghost use Rattle.imap_world.specs.World.{World as Mailboxes};

use imap_core::Core;
use imap_keeper::{KeepError, Keeper};
use imap_world::Change;
use std::alloc::Global;

/// Saves a change, unless it writes nothing.
pub fn save_change<K: Keeper>(
    keeper: &mut K,
    alloc: Global,
    change: &Change,
) -> Result<(), KeepError>
    requires { (world : Mailboxes) × K.content keeper.old world × IsCurrent change.now world }
    ensures ok { (world : Mailboxes) → K.content keeper.old world → IsCurrent change.now world
        → OnOk result (K.content keeper.new (after_writes change.now world)) }
    ensures err { (world : Mailboxes) → K.content keeper.old world
        → OnErr result (K.content keeper.new world) }
    ensures failures { K.failed keeper.new ≡ failures_after result (K.failed keeper.old) }
    ensures undamaged { result ≡ Err Damaged → ⊥ }
    ensures unwritten { change.now ≡ [] → (keeper.new ≡ keeper.old) × (result ≡ Ok tt) }
    ensures honest { K.is_honest keeper.new → K.is_honest keeper.old }
    ensures crash { K.is_honest keeper.new → (world : Mailboxes) → K.content keeper.old world
        → IsCurrent change.now world → LeavesOr (K.leaves keeper.old) (K.leaves keeper.new)
        (λ image. K.stands image (after_writes change.now world)) }
    ensures alone { K.is_honest keeper.new → (world : Mailboxes) → K.content keeper.old world
        → IsCurrent change.now world → (change.now ≡ [] → ⊥)
        → OnOk result (LeavesOnly (K.leaves keeper.new)
        (λ image. K.stands image (after_writes change.now world))) }
{
    if change.is_empty() {
        return Ok(());
    }
    keeper.save(alloc, change)
}

/// Saves what a step changes in the mailboxes of a machine, before it is committed there.
pub(crate) fn save_step<K: Keeper>(
    keeper: &mut K,
    alloc: Global,
    core: &Core,
    change: &Change,
) -> Result<(), KeepError>
    requires stored { K.content keeper.old core.now.state.world }
    requires current { IsCurrent change.now core.now.state.world }
    ensures ok { OnOk result (K.content keeper.new (after_writes change.now core.now.state.world)) }
    ensures err { OnErr result (K.content keeper.new core.now.state.world) }
    ensures failures { K.failed keeper.new ≡ failures_after result (K.failed keeper.old) }
    ensures undamaged { result ≡ Err Damaged → ⊥ }
    ensures unwritten { change.now ≡ [] → keeper.new ≡ keeper.old }
    ensures honest { K.is_honest keeper.new → K.is_honest keeper.old }
    ensures crash { K.is_honest keeper.new → LeavesOr (K.leaves keeper.old) (K.leaves keeper.new)
        (λ image. K.stands image (after_writes change.now core.now.state.world)) }
    ensures alone { K.is_honest keeper.new → (change.now ≡ [] → ⊥)
        → OnOk result (LeavesOnly (K.leaves keeper.new)
        (λ image. K.stands image (after_writes change.now core.now.state.world))) }
{
    let _ = core;
    save_change(keeper, alloc, change)
}
