//! The changes of rows that a change of a world asks for.

ghost use Rattle.std.specs.Prelude.{◌≡◌, ◌++◌, IfOk, OnOk, map};
ghost use Rattle.std.specs.List.{AllByRecursion};
ghost use Rattle.imap_records.specs.Bounds.{AreBounded, AreNamed, IsBounded, IsBoundedWrite, IsNamedWrite};
ghost use Rattle.imap_records.specs.Bounds.{IsOtherBounded};
ghost use Rattle.imap_records.specs.Standing.{StandFor};
ghost use Rattle.imap_records.specs.Steps.{below_of, gap_steps, other_steps, part_steps, steps_for, steps_in};
ghost use Rattle.imap_records.specs.Steps.{steps_of, steps_under};
ghost use Rattle.imap_records.specs.Values.{BatchHasValues, OtherHasValues, WorldHasValues, WriteHasValues};
ghost use Rattle.imap_tables.specs.Changes.{MakesAll};
ghost use Rattle.imap_world.specs.Effects.{after_writes};
ghost use Rattle.imap_world.specs.Ready.{IsCurrent};
ghost use Rattle.imap_world.specs.World.{World};
ghost use Rattle.sqlite.specs.Tree.{Trees};

use crate::batch::rows_of_batch;
use crate::columns::key_of;
use crate::tree::{
    push, push_arrivals, push_mailbox, push_new_list, push_removed, push_subscription,
    push_unsubscription,
};
use imap_names::Name;
use imap_tables::{ChangeBelow, RowChange};
use imap_world::{Change, NamedWrite, Write};
use std::alloc::{AllocError, Global};

/// Appends the rows of the messages of a mailbox, if some change.
fn push_part(
    changes: &mut Vec<RowChange>,
    alloc: Global,
    part: &NamedWrite,
) -> Result<(), AllocError>
    requires { IsBounded part.now.write }
    ensures rows { OnOk result
        (steps_in changes.new.items ≡ steps_in changes.old.items ++ part_steps part.now) }
    ensures values { OnOk result (BatchHasValues part.now.write.batch) }
{
    push_gaps(changes, part.write.dropped.as_slice())?;
    let below = rows_of_batch(alloc, &part.write)?;
    push_below(changes, alloc, &part.name, below)
}

/// Appends that own changes may be missing, if some go.
fn push_gaps(changes: &mut Vec<RowChange>, dropped: &[u64]) -> Result<(), AllocError>
    ensures { OnOk result (steps_in changes.new.items ≡ steps_in changes.old.items ++ gap_steps dropped.now) }
{
    if dropped.is_empty() {
        return Ok(());
    }
    push(changes, RowChange::AllowGaps)
}

/// Appends changes below a mailbox, if there are any.
fn push_below(
    changes: &mut Vec<RowChange>,
    alloc: Global,
    name: &Name,
    below: Vec<ChangeBelow>,
) -> Result<(), AllocError>
    ensures { OnOk result (steps_in changes.new.items
        ≡ steps_in changes.old.items ++ steps_under name.now (map below_of below.items)) }
{
    if below.is_empty() {
        return Ok(());
    }
    let key = key_of(alloc, &name.as_ref())?;
    push(changes, RowChange::Below(key, below))
}

fn push_other(
    changes: &mut Vec<RowChange>,
    alloc: Global,
    other: &Option<NamedWrite>,
) -> Result<(), AllocError>
    requires { IsOtherBounded other.now }
    ensures rows { OnOk result
        (steps_in changes.new.items ≡ steps_in changes.old.items ++ other_steps other.now) }
    ensures values { OnOk result (OtherHasValues other.now) }
{
    match other {
        Some(part) => push_part(changes, alloc, part),
        None => Ok(()),
    }
}

fn push_parts(
    changes: &mut Vec<RowChange>,
    alloc: Global,
    part: &NamedWrite,
    other: &Option<NamedWrite>,
) -> Result<(), AllocError>
    requires part { IsBounded part.now.write }
    requires other { IsOtherBounded other.now }
    ensures rows { OnOk result (steps_in changes.new.items
        ≡ steps_in changes.old.items ++ (part_steps part.now ++ other_steps other.now)) }
    ensures values { OnOk result (BatchHasValues part.now.write.batch × OtherHasValues other.now) }
{
    push_part(changes, alloc, part)?;
    push_other(changes, alloc, other)
}

fn push_write(changes: &mut Vec<RowChange>, alloc: Global, write: &Write) -> Result<(), AllocError>
    requires { IsBoundedWrite write.now }
    ensures rows { OnOk result
        (steps_in changes.new.items ≡ steps_in changes.old.items ++ steps_for write.now) }
    ensures valid { OnOk result (IsNamedWrite write.now) }
    ensures values { OnOk result (WriteHasValues write.now) }
{
    match write {
        Write::Put(row) => push_mailbox(changes, alloc, row),
        Write::SetAcl(name, acl) => push_new_list(changes, alloc, name, acl),
        Write::Remove(name) => push_removed(changes, alloc, name),
        Write::Move(old, new, arrivals) => {
            push_arrivals(changes, alloc, old, new, arrivals.entries())
        }
        Write::Messages(part, other) => push_parts(changes, alloc, part, other),
        Write::Subscribe(user, name) => push_subscription(changes, alloc, user, name),
        Write::Unsubscribe(user, name) => push_unsubscription(changes, alloc, user, name),
    }
}

fn rows_of_writes(alloc: Global, writes: &[Write]) -> Result<Vec<RowChange>, AllocError>
    requires { AreBounded writes.now }
    ensures rows { IfOk result (λ changes. steps_in changes.items ≡ steps_of writes.now) }
    ensures valid { OnOk result (AreNamed writes.now) }
    ensures values { OnOk result (AllByRecursion WriteHasValues writes.now) }
{
    let mut changes = Vec::new(alloc);
    for write in writes {
        push_write(&mut changes, alloc, write)?;
    }
    Ok(changes)
}

/// The changes of rows that a change asks for. They are none if it changes nothing. A batch of messages
/// changes a row of each message, of each own `\Seen` that is changed, and of its mailbox, and deletes at
/// most one row for each own `\Seen`.
///
/// Tables that stand for the world stand for the changed world once these are made.
pub fn row_changes(alloc: Global, change: &Change) -> Result<Vec<RowChange>, AllocError>
    requires { (world : World) × IsCurrent change.now world }
    ensures rows { IfOk result (λ changes. steps_in changes.items ≡ steps_of change.now) }
    ensures stands { IfOk result (λ changes. (world : World) (old new : Trees) → IsCurrent change.now world
        → StandFor old world → MakesAll changes.items old new
        → StandFor new (after_writes change.now world)) }
    ensures values { OnOk result ((world : World) → IsCurrent change.now world → WorldHasValues world
        → WorldHasValues (after_writes change.now world)) }
{
    let changes = rows_of_writes(alloc, change.writes())?;
    Ok(changes)
}
