//! COPY (RFC 9051, section 6.4.7).

ghost use Rattle.std.specs.Prelude.{◌≡◌, ℕ, IfOk};
ghost use Rattle.imap_changes.specs.Transfer as specs;
ghost use Rattle.imap_mailbox.specs.Rows.{first_uid};
ghost use Rattle.imap_mailbox.specs.Summary.{Rises};
ghost use Rattle.imap_view.specs.Seen.{shown};

use crate::copied_uids::copied_uids;
use crate::copies::Copies;
use crate::room::lacks_room;
use imap_answer::{Answer, CommandContext};
use imap_batch::{Batch, NewMessage};
use imap_names::{Name, UserName};
use imap_print::{Code, CopiedUids, Refusal};
use imap_targets::batch_effect;
use imap_values::beside;
use imap_view::Seen;
use imap_world::Effect;
use std::alloc::{AllocError, Global};

/// Answers a COPY of these messages: all are copied, or none.
pub(crate) fn copy_messages(
    context: &CommandContext<'_>,
    name: &Name,
    target: &Seen<'_>,
    copies: Copies,
) -> Result<Answer, AllocError>
    requires { (high : ℕ) × Rises first_uid high copies.uids.items }
    ensures { let answer = specs.copy_messages context.now.view context.now.tag name.now (shown target.now) in
        IfOk result (λ given. given ≡ answer copies.uids.items copies.messages.items) }
{
    if lacks_room(target, copies.uids.len()) {
        return context.refuse(Refusal::OverQuota);
    }
    let copied = copied_uids(context.alloc(), target, copies.uids.as_slice());
    let (copied, messages) = beside(copied, copies.messages)?;
    let effect = copy_effect(context.alloc(), context.view().user(), name, messages);
    let (effect, copied) = beside(effect, copied)?;
    context.carried_out(Vec::new(context.alloc()), copy_code(copied), effect)
}

/// The response code COPYUID.
fn copy_code(copied: Option<CopiedUids>) -> Option<Code>
    ensures { result ≡ specs.copy_code copied }
{
    match copied {
        Some(copied) => Some(Code::CopyUid(copied)),
        None => None,
    }
}

fn copy_effect(
    alloc: Global,
    user: &UserName,
    target: &Name,
    copies: Vec<NewMessage>,
) -> Result<Option<Effect>, AllocError>
    ensures { IfOk result (λ given. given ≡ specs.copy_effect user.now target.now copies.items) }
{
    if copies.is_empty() {
        return Ok(None);
    }
    let batch = Batch::adding(alloc, user, copies)?;
    Ok(Some(batch_effect(target, batch)?))
}
