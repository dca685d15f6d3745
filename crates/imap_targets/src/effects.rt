//! What commands on messages ask of mailboxes.

ghost use Rattle.std.specs.Prelude.{◌≡◌, IfOk};
ghost use Rattle.imap_targets.specs.Effects as specs;

use imap_batch::{Batch, FlagUpdate};
use imap_names::{Name, UserName};
use imap_values::beside;
use imap_view::{Effect, NamedBatch};
use std::alloc::{AllocError, Global};

/// Returns the batch with the name of its mailbox.
pub fn named_batch(name: &Name, batch: Batch) -> Result<NamedBatch, AllocError>
    ensures { IfOk result (λ named. named ≡ specs.named_batch name.now batch) }
{
    let (name, batch) = beside(name.try_copy(), batch)?;
    Ok(NamedBatch { name, batch })
}

/// Returns the effect of a batch on the mailbox `name`, and on no other.
pub fn batch_effect(name: &Name, batch: Batch) -> Result<Effect, AllocError>
    ensures { IfOk result (λ effect. effect ≡ specs.batch_effect name.now batch) }
{
    Ok(Effect::Messages(named_batch(name, batch)?, None))
}

/// Returns the effect that changes flags of messages of the mailbox `name`. `None` if no flag changes. The changes
/// are in the order of UIDs.
pub fn marking_effect(
    alloc: Global,
    user: &UserName,
    name: &Name,
    marks: Vec<FlagUpdate>,
) -> Result<Option<Effect>, AllocError>
    ensures { let effect = specs.marking_effect user.now name.now marks.items in
        IfOk result (λ given. given ≡ effect) }
{
    if marks.is_empty() {
        return Ok(None);
    }
    let batch = Batch::marking(alloc, user, marks)?;
    Ok(Some(batch_effect(name, batch)?))
}
