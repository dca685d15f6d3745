//! MOVE (RFC 9051, section 6.4.8).

ghost use Rattle.std.specs.Prelude.{◌≡◌, ◌≤◌, ℕ, false, length, IfOk};
ghost use Rattle.std.specs.List.{AllByRecursion};
ghost use Rattle.imap_changes.specs.CopiedUids.{copied_uids};
ghost use Rattle.imap_changes.specs.Transfer as specs;
ghost use Rattle.imap_mailbox.specs.Rows.{first_uid};
ghost use Rattle.imap_mailbox.specs.Summary.{Rises};
ghost use Rattle.imap_modseq.specs.Numbers.{max_events};
ghost use Rattle.imap_print.specs.Lines.{IsPrintable};
ghost use Rattle.imap_targets.specs.State.{selection_of};
ghost use Rattle.imap_view.specs.Seen.{shown};
ghost use Rattle.imap_world.specs.Messages.{is_same_name};

use crate::copied_uids::copied_uids;
use crate::copies::Copies;
use crate::room::{lacks_move_events, lacks_room};
use imap_answer::{Answer, CommandContext};
use imap_batch::Batch;
use imap_names::{Name, UserName};
use imap_print::{CopiedUids, Refusal, Response};
use imap_syntax::Items;
use imap_targets::{Selected, batch_effect, named_batch};
use imap_values::beside;
use imap_view::{Readable, Seen};
use imap_world::{Effect, is_same_name};
use std::alloc::{AllocError, Global};

/// Answers a MOVE of these messages: all are moved, or none.
pub(crate) fn move_messages(
    context: &CommandContext<'_>,
    selected: &Selected,
    mailbox: &Readable<'_>,
    name: &Name,
    target: &Seen<'_>,
    copies: Copies,
) -> Result<Answer, AllocError>
    requires rise { (high : ℕ) × Rises first_uid high copies.uids.items }
    requires few { mailbox.now.own ≤ max_events }
    ensures { let s = selection_of selected.now in
        let answer = specs.move_messages context.now.view context.now.tag s mailbox.now name.now in
        IfOk result (λ given. given ≡ answer (shown target.now) copies.uids.items copies.messages.items) }
{
    if lacks_room(target, copies.uids.len()) {
        return context.refuse(Refusal::OverQuota);
    }
    if lacks_move_events(
        mailbox,
        is_same_name(&selected.name, name),
        copies.uids.as_slice(),
    ) {
        return context.refuse(Refusal::Limit);
    }
    let lines = lines_told(context.alloc(), target, copies.uids.as_slice());
    let (lines, copies) = beside(lines, copies)?;
    let effect = move_effect(
        context.alloc(),
        context.view().user(),
        name,
        &selected.name,
        copies,
    );
    let (effect, lines) = beside(effect, lines)?;
    context.carried_out(lines, None, effect)
}

/// The line that tells the UIDs, before the messages go, if the user may read the target.
fn lines_told(alloc: Global, target: &Seen<'_>, uids: &[u32]) -> Result<Vec<Response>, AllocError>
    requires rise { (high : ℕ) × Rises first_uid high uids.now }
    requires room { specs.lacks_room (shown target.now) (length uids.now) ≡ false }
    ensures lines { let lines = specs.moved_lines (copied_uids (shown target.now) uids.now) in
        IfOk result (λ given. given.items ≡ lines) }
    ensures printable { IfOk result (λ lines. AllByRecursion IsPrintable lines.items) }
{
    moved_lines(alloc, copied_uids(alloc, target, uids)?)
}

fn moved_lines(alloc: Global, copied: Option<CopiedUids>) -> Result<Vec<Response>, AllocError>
    ensures lines { IfOk result (λ lines. lines.items ≡ specs.moved_lines copied) }
    ensures printable { IfOk result (λ lines. AllByRecursion IsPrintable lines.items) }
{
    let mut lines = Vec::new(alloc);
    match copied {
        Some(copied) => {
            lines.push(Response::Moved(copied))?;
            Ok(lines)
        }
        None => Ok(lines),
    }
}

fn move_effect(
    alloc: Global,
    user: &UserName,
    target: &Name,
    source: &Name,
    copies: Copies,
) -> Result<Option<Effect>, AllocError>
    ensures { let effect = specs.move_effect user.now target.now source.now copies.messages.items in
        IfOk result (λ given. given ≡ effect copies.uids.items) }
{
    if copies.uids.is_empty() {
        return Ok(None);
    }
    if is_same_name(source, target) {
        Ok(Some(move_within(alloc, user, target, copies)?))
    } else {
        Ok(Some(move_between(alloc, user, target, source, copies)?))
    }
}

/// Moves messages within one mailbox: all are added before one is expunged.
fn move_within(
    alloc: Global,
    user: &UserName,
    name: &Name,
    copies: Copies,
) -> Result<Effect, AllocError>
    ensures { let effect = specs.move_within user.now name.now copies.messages.items copies.uids.items in
        IfOk result (λ given. given ≡ effect) }
{
    let (user, copies) = beside(user.try_copy(), copies)?;
    let batch = Batch {
        user,
        added: Items::from_vec(copies.messages),
        marks: Items::from_vec(Vec::new(alloc)),
        expunged: Items::from_vec(copies.uids),
    };
    batch_effect(name, batch)
}

/// Moves messages from one mailbox to another, as one change.
fn move_between(
    alloc: Global,
    user: &UserName,
    target: &Name,
    source: &Name,
    copies: Copies,
) -> Result<Effect, AllocError>
    ensures { let effect = specs.move_between user.now target.now source.now copies.messages.items in
        IfOk result (λ given. given ≡ effect copies.uids.items) }
{
    let Copies { messages, uids } = copies;
    let (added, uids) = beside(Batch::adding(alloc, user, messages), uids)?;
    let (added, uids) = beside(named_batch(target, added), uids)?;
    let (expunged, added) = beside(Batch::expunging(alloc, user, uids), added)?;
    let (expunged, added) = beside(named_batch(source, expunged), added)?;
    Ok(Effect::Messages(added, Some(expunged)))
}
