//! The machine with which a hall opens.

ghost use Rattle.std.specs.Prelude.{◌≡◌, IfErr, IfOk, OnErr};
ghost use Rattle.imap_saving.specs.Opening.{state_at_start};
ghost use Rattle.imap_hall.specs.declared.error.OpenError.TheVariants as error;
ghost use Rattle.imap_hall.specs.Opening.{open_error};
ghost use Rattle.imap_hall.specs.Saving.{IsOpened, IsOpenedAlone};
ghost use Rattle.imap_saving.specs.Performing.{HasRisen};
ghost use Rattle.imap_world.specs.Effects.{after_writes};
ghost use Rattle.imap_world.specs.Ready.{IsCurrent};
ghost use Rattle.imap_world.specs.Stored.{world_of};
ghost use Rattle.imap_world.specs.World.{World as Mailboxes};

use crate::error::OpenError;
use imap_keeper::{KeepError, Keeper};
use imap_names::UserName;
use imap_rights::Groups;
use imap_saving::{Core, save_change};
use imap_values::beside;
use imap_world::{Change, Limits, World};
use std::alloc::{AllocError, Global};

/// A machine, and an equal one as the base of its journal.
#[derive(Drop)]
pub(crate) struct Start {
    pub(crate) core: Core,
    pub(crate) base: Core,
}

/// Loads what is kept, starts a machine, and saves the INBOXes that were made.
pub(crate) fn begin<K: Keeper>(
    keeper: &mut K,
    alloc: Global,
    administrator: UserName,
    users: &[UserName],
    groups: Groups,
    limits: Limits,
) -> Result<Start, OpenError>
    ensures state { IfOk result (λ start. (world : Mailboxes)
        × (start.core.state ≡ state_at_start world administrator users.now groups limits)) }
    ensures known { K.is_honest keeper.new → (world : Mailboxes) → K.content keeper.old world
        → IfOk result (λ start.
        start.core.state ≡ state_at_start world administrator users.now groups limits) }
    ensures base { IfOk result (λ start. start.base.state ≡ start.core.state) }
    ensures stored { IfOk result (λ start. K.content keeper.new start.core.state.world) }
    ensures kept { (world : Mailboxes) → K.content keeper.old world
        → OnErr result (K.content keeper.new world) }
    ensures store { IfErr result
        (λ e. e ≡ error.Store → HasRisen (K.failed keeper.old) (K.failed keeper.new)) }
    ensures damaged { K.is_honest keeper.new → (world : Mailboxes) → K.content keeper.old world
        → IfErr result (λ e. e ≡ error.Damaged → ⊥) }
    ensures honest { K.is_honest keeper.new → K.is_honest keeper.old }
    ensures crash { (world : Mailboxes) → K.content keeper.old world
        → IsOpened K.is_honest K.leaves K.stands keeper.old
        (state_at_start world administrator users.now groups limits).world keeper.new }
    ensures alone { (world : Mailboxes) → K.content keeper.old world
        → IfOk result (λ start. IsOpenedAlone K.is_honest K.leaves K.stands
        world start.core.state.world keeper.new) }
{
    let world = match keeper.load(alloc) {
        Ok(world) => world,
        Err(error) => {
            drop((administrator, groups));
            return Err(open_error(error));
        }
    };
    let (start, change) = start_machine(alloc, world, administrator, users, groups, limits)?;
    match save_change(keeper, alloc, &change) {
        Ok(()) => {
            drop(change);
            Ok(start)
        }
        Err(error) => {
            drop((start, change));
            Err(open_error(error))
        }
    }
}

/// Starts a machine with the mailboxes of `world`, which needs the change to be saved.
fn start_machine(
    alloc: Global,
    world: World,
    administrator: UserName,
    users: &[UserName],
    groups: Groups,
    limits: Limits,
) -> Result<(Start, Change), AllocError>
    ensures state { IfOk result (λ made.
        made.0.core.state ≡ state_at_start (world_of world) administrator users.now groups limits) }
    ensures base { IfOk result (λ made. made.0.base.state ≡ made.0.core.state) }
    ensures current { IfOk result (λ made. IsCurrent made.1 (world_of world)) }
    ensures change { IfOk result (λ made. made.0.core.state.world ≡ after_writes made.1 (world_of world)) }
{
    let (mut core, change) = Core::open(alloc, world, administrator, users, groups, limits)?;
    let base = base_of(alloc, &mut core);
    let (base, (core, change)) = beside(base, (core, change))?;
    Ok((Start { core, base }, change))
}

/// Returns a machine in the same state, as a base of the journal. Both share the messages of a mailbox until the
/// mailbox changes.
pub(crate) fn base_of(alloc: Global, core: &mut Core) -> Result<Core, AllocError>
    ensures kept { core.new.state ≡ core.old.state }
    ensures ok { IfOk result (λ base. base.state ≡ core.old.state) }
{
    core.share(alloc)?;
    core.try_copy(alloc)
}

fn open_error(error: KeepError) -> OpenError
    ensures { result ≡ open_error error }
{
    match error {
        KeepError::Refused => OpenError::Store,
        KeepError::Memory => OpenError::Memory,
        KeepError::Damaged => OpenError::Damaged,
    }
}
