//! The own changes of its user that a batch makes.

ghost use Rattle.std.specs.Prelude.{◌≡◌, ◌≤◌, ◌+◌, ◌++◌, ◌∷◌, [], true, is_some, length, if◌then◌else◌, IfOk, OnOk};
ghost use Rattle.imap_modseq.specs.Numbers.{max_events};
ghost use Rattle.imap_mailbox.specs.History.{end_uid};
ghost use Rattle.imap_batch.specs.Batch.{event_count, flag_count, has_uids, one_if};
ghost use Rattle.imap_batch.specs.Batch.{own_added, own_asked, own_change, own_marked};

use crate::batch::{Batch, FlagUpdate, NewMessage};
use imap_mailbox::SeenChange;
use std::alloc::{AllocError, Global};

/// Returns the changes of the user's own `\Seen` that a batch asks for, in their order. The first message
/// that it adds gets the UID, and its first shared event has the place.
pub fn own_changes(
    alloc: Global,
    batch: &Batch,
    uid: u32,
    place: u64,
) -> Result<Vec<SeenChange>, AllocError>
    requires uids { has_uids (length batch.now.added) uid ≡ true }
    requires places { place + event_count batch.now ≤ max_events }
    ensures { IfOk result (λ own. own.items ≡ own_asked uid place batch.now) }
{
    let added = batch.added.as_slice();
    let mut own = Vec::new(alloc);
    push_own_added(&mut own, added, uid, place)?;
    push_own_marks(&mut own, batch.marks.as_slice(), place + added.len() as u64)?;
    Ok(own)
}

/// Appends the user's own changes of messages that are added.
fn push_own_added(
    own: &mut Vec<SeenChange>,
    added: &[NewMessage],
    uid: u32,
    place: u64,
) -> Result<(), AllocError>
    requires uids { uid + length added.now ≤ end_uid }
    requires places { place + length added.now ≤ max_events }
    ensures { OnOk result (own.new.items ≡ own.old.items ++ own_added uid place added.now) }
{
    let mut next = uid;
    let mut at = place;
    for message in added {
        at += 1;
        push_seen(own, message.seen, next, at)?;
        next += 1;
    }
    Ok(())
}

/// Appends the change by which the user has seen a message, if `seen`. It comes after `before` shared events.
fn push_seen(own: &mut Vec<SeenChange>, seen: bool, uid: u32, before: u64) -> Result<(), AllocError>
    ensures { OnOk result (own.new.items ≡ own.old.items
        ++ (if seen then record { before = before; uid = uid; seen = true } ∷ [] else [])) }
{
    if !seen {
        return Ok(());
    }
    own.push(SeenChange {
        before,
        uid,
        seen: true,
    })?;
    Ok(())
}

/// Appends the user's own change of a mark, if there is one. Returns the place after its event.
fn push_own_mark(
    own: &mut Vec<SeenChange>,
    mark: &FlagUpdate,
    place: u64,
) -> Result<u64, AllocError>
    requires { place + one_if (is_some mark.now.flags) ≤ max_events }
    ensures own { OnOk result (own.new.items ≡ own.old.items
        ++ own_change (place + one_if (is_some mark.now.flags)) mark.now.uid mark.now.seen) }
    ensures place { IfOk result (λ next. next ≡ place + one_if (is_some mark.now.flags)) }
{
    let before = place + u64::from(mark.flags.is_some());
    if let Some(seen) = mark.seen {
        own.push(SeenChange {
            before,
            uid: mark.uid,
            seen,
        })?;
    }
    Ok(before)
}

/// Appends the user's own changes of marks, the first event of which has the place.
fn push_own_marks(
    own: &mut Vec<SeenChange>,
    marks: &[FlagUpdate],
    place: u64,
) -> Result<(), AllocError>
    requires { place + flag_count marks.now ≤ max_events }
    ensures { OnOk result (own.new.items ≡ own.old.items ++ own_marked place marks.now) }
{
    let mut at = place;
    for mark in marks {
        at = push_own_mark(own, mark, at)?;
    }
    Ok(())
}
