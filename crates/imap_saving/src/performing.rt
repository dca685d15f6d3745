//! Saving and committing.

ghost use Rattle.std.specs.Prelude.{◌≡◌, ◌⊎◌, [], IfOk, OnErr};
ghost use Rattle.imap_core.specs.Machine.{answer, next};
ghost use Rattle.imap_core.specs.Planned.{IsReady, change_of, state_after};
ghost use Rattle.imap_keeper.specs.Keeping.{LeavesOnly, LeavesOr};
ghost use Rattle.imap_world.specs.Ready.{IsCurrent};
ghost use Rattle.imap_saving.specs.Performing.{AreReplies, HasRisen, Performs};
ghost use Rattle.imap_saving.specs.Refusals.{unavailable};

use crate::ready::Ready;
use crate::replies::Replies;
use crate::saving::save_step;
use imap_core::{Core, Step};
use imap_keeper::{KeepError, Keeper};
use std::alloc::{AllocError, Global};

/// Saves the change of a step, and commits it. If the store refuses, nothing changes, and the replies say so. Fails if
/// the store has no memory, and changes nothing then.
pub fn perform<K: Keeper>(
    core: &mut Core,
    keeper: &mut K,
    alloc: Global,
    step: &Step,
    ready: Ready,
) -> Result<Replies, AllocError>
    requires stored { K.content keeper.old core.old.state.world }
    requires current { IsCurrent (change_of ready.prepared) core.old.state.world }
    requires ready { IsReady ready.prepared core.old }
    requires next { state_after ready.prepared core.old.state ≡ next core.old.state step.now }
    requires answered { AreReplies ready.answered (answer core.old.state step.now) }
    requires refusal { AreReplies ready.refusal (unavailable step.now) }
    ensures ok { IfOk result (λ replies. Performs core.old.state (K.failed keeper.old) step.now replies
        core.new.state (K.failed keeper.new)) }
    ensures stored { K.content keeper.new core.new.state.world }
    ensures err { OnErr result
        ((core.new.state ≡ core.old.state) × (K.failed keeper.new ≡ K.failed keeper.old)) }
    ensures unwritten { change_of ready.prepared ≡ [] → keeper.new ≡ keeper.old }
    ensures honest { K.is_honest keeper.new → K.is_honest keeper.old }
    ensures crash { K.is_honest keeper.new → LeavesOr (K.leaves keeper.old) (K.leaves keeper.new)
        (λ image. K.stands image (next core.old.state step.now).world) }
    ensures alone { IfOk result (λ replies. K.is_honest keeper.new → (change_of ready.prepared ≡ [] → ⊥)
        → LeavesOnly (K.leaves keeper.new) (λ image. K.stands image core.new.state.world)
        ⊎ ((replies.receipt ≡ unavailable step.now)
        × HasRisen (K.failed keeper.old) (K.failed keeper.new))) }
{
    let Ready {
        prepared,
        answered,
        refusal,
    } = ready;
    match save_step(keeper, alloc, core, prepared.change()) {
        Ok(()) => {
            drop(refusal);
            drop(core.commit(prepared));
            Ok(answered)
        }
        Err(KeepError::Refused) => {
            drop((prepared, answered));
            Ok(refusal)
        }
        Err(KeepError::Memory | KeepError::Damaged) => {
            drop((prepared, answered, refusal));
            Err(AllocError)
        }
    }
}
