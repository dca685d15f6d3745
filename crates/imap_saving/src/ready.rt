//! Steps that are ready to be made.

ghost use Rattle.std.specs.Prelude.{◌≡◌, ◌↔◌, [], IfOk};
ghost use Rattle.imap_core.specs.Machine.{answer, next};
ghost use Rattle.imap_core.specs.Planned.{IsReady, change_of, state_after};
ghost use Rattle.imap_world.specs.Ready.{IsCurrent};
ghost use Rattle.imap_saving.specs.Performing.{AreReplies, IsUnwritten};
ghost use Rattle.imap_saving.specs.Refusals.{unavailable};

use crate::replies::{Replies, refusal};
use imap_core::{Core, Prepared, Step};
use imap_print::Response;
use imap_values::beside;
use std::alloc::{AllocError, Global};

/// A step that needs no more memory, but for what its keeper needs.
#[derive(Drop)]
pub struct Ready {
    pub prepared: Prepared,
    /// The replies if the store takes the change.
    pub answered: Replies,
    /// The replies if the store refuses the change.
    pub refusal: Replies,
}

/// Prepares a step: what it is answered and what it changes, and the copies of the replies.
pub fn make_ready(core: &mut Core, alloc: Global, step: &Step) -> Result<Ready, AllocError>
    ensures state { core.new.state ≡ core.old.state }
    ensures ready { IfOk result (λ r. IsReady r.prepared core.new) }
    ensures next { IfOk result (λ r. state_after r.prepared core.old.state ≡ next core.old.state step.now) }
    ensures current { IfOk result (λ r. IsCurrent (change_of r.prepared) core.old.state.world) }
    ensures unwritten { IfOk result
        (λ r. IsUnwritten core.old.state step.now ↔ (change_of r.prepared ≡ [])) }
    ensures answered { IfOk result (λ r. AreReplies r.answered (answer core.old.state step.now)) }
    ensures refusal { IfOk result (λ r. AreReplies r.refusal (unavailable step.now)) }
{
    let prepared = core.prepare(alloc, step)?;
    let copies = make_copies(alloc, step, prepared.replies());
    let (copies, prepared) = beside(copies, prepared)?;
    Ok(Ready {
        prepared,
        answered: copies.answered,
        refusal: copies.refusal,
    })
}

/// The replies to a step, and those to its refusal by the store.
#[derive(Drop)]
struct Copies {
    answered: Replies,
    refusal: Replies,
}

fn make_copies(alloc: Global, step: &Step, replies: &[Response]) -> Result<Copies, AllocError>
    ensures answered { IfOk result (λ copies. AreReplies copies.answered replies.now) }
    ensures refusal { IfOk result (λ copies. AreReplies copies.refusal (unavailable step.now)) }
{
    let answered = Replies::copied(alloc, replies)?;
    let (refusal, answered) = beside(refusal(alloc, step), answered)?;
    Ok(Copies { answered, refusal })
}
