//! Saving a change in a database.

ghost use Rattle.std.specs.Prelude.{◌≡◌, ◌≢◌, [], Err, IsTrue, OnErr, OnOk};
ghost use Rattle.imap_keeper.specs.declared.error.KeepError.TheVariants.{Damaged};
ghost use Rattle.imap_keeper.specs.Keeping.{LeavesOnly, LeavesOr};
ghost use Rattle.imap_restore.specs.Holding.{HoldSplit};
ghost use Rattle.imap_sql_keeper.specs.Keeping.{IsAtRest, Keeps, LeavesMade, Made};
ghost use Rattle.imap_tables.specs.Steps.{IsBack, IsStore};
ghost use Rattle.imap_world.specs.Effects.{after_writes};
ghost use Rattle.imap_world.specs.Ready.{IsCurrent};
ghost use Rattle.imap_world.specs.World.{World};
ghost use Rattle.sqlite.specs.Held.{state};
ghost use Rattle.sqlite.specs.State.{HasCleanDisk};
ghost use Rattle.sqlite.specs.Tree.{Trees};

use crate::refusal::refusal;
use imap_keeper::KeepError;
use imap_message_tables::save_rows;
use imap_records::row_changes;
use imap_tables::{RowChange, check_open};
use imap_world::Change;
use sqlite::{Alter, Connection, Error};
use std::alloc::Global;

/// Makes no change. Fails if the connection is shut.
fn make_none<S: Alter>(conn: &mut Connection<S>) -> Result<(), Error>
    requires store { IsStore (state S.Store conn.old) }
    requires rest { IsAtRest (state S.Store conn.old) }
    ensures rest { IsAtRest (state S.Store conn.new) }
    ensures after { HasCleanDisk (state S.Store conn.new) → IsTrue (state S.Store conn.new).is_open
        → OnOk result (Made [] (state S.Store conn.old) (state S.Store conn.new).now.trees) }
    ensures before { HasCleanDisk (state S.Store conn.new) → IsTrue (state S.Store conn.new).is_open
        → OnErr result (IsBack (state S.Store conn.old) (state S.Store conn.new)) }
    ensures honest { HasCleanDisk (state S.Store conn.new) → HasCleanDisk (state S.Store conn.old) }
    ensures crash { HasCleanDisk (state S.Store conn.new)
        → LeavesMade [] (state S.Store conn.old) (state S.Store conn.new) }
    ensures alone { HasCleanDisk (state S.Store conn.new) → OnOk result ((db : Trees)
        → (state S.Store conn.new).may_leave db → Made [] (state S.Store conn.old) db) }
    ensures open { HasCleanDisk (state S.Store conn.new)
        → OnOk result (IsTrue (state S.Store conn.old).is_open) }
{
    check_open(conn)
}

/// Makes some changes of rows.
fn make_some<S: Alter>(
    conn: &mut Connection<S>,
    alloc: Global,
    rows: &[RowChange],
) -> Result<(), Error>
    requires some { rows.now ≢ [] }
    requires store { IsStore (state S.Store conn.old) }
    requires rest { IsAtRest (state S.Store conn.old) }
    ensures rest { IsAtRest (state S.Store conn.new) }
    ensures after { HasCleanDisk (state S.Store conn.new) → IsTrue (state S.Store conn.new).is_open
        → OnOk result (Made rows.now (state S.Store conn.old) (state S.Store conn.new).now.trees) }
    ensures before { HasCleanDisk (state S.Store conn.new) → IsTrue (state S.Store conn.new).is_open
        → OnErr result (IsBack (state S.Store conn.old) (state S.Store conn.new)) }
    ensures honest { HasCleanDisk (state S.Store conn.new) → HasCleanDisk (state S.Store conn.old) }
    ensures crash { HasCleanDisk (state S.Store conn.new)
        → LeavesMade rows.now (state S.Store conn.old) (state S.Store conn.new) }
    ensures alone { HasCleanDisk (state S.Store conn.new) → OnOk result ((db : Trees)
        → (state S.Store conn.new).may_leave db → Made rows.now (state S.Store conn.old) db) }
    ensures open { HasCleanDisk (state S.Store conn.new)
        → OnOk result (IsTrue (state S.Store conn.old).is_open) }
{
    save_rows(conn, alloc, rows)
}

/// Makes changes of rows, if there are any.
fn make_rows<S: Alter>(
    conn: &mut Connection<S>,
    alloc: Global,
    rows: &[RowChange],
) -> Result<(), Error>
    requires store { IsStore (state S.Store conn.old) }
    requires rest { IsAtRest (state S.Store conn.old) }
    ensures rest { IsAtRest (state S.Store conn.new) }
    ensures after { HasCleanDisk (state S.Store conn.new) → IsTrue (state S.Store conn.new).is_open
        → OnOk result (Made rows.now (state S.Store conn.old) (state S.Store conn.new).now.trees) }
    ensures before { HasCleanDisk (state S.Store conn.new) → IsTrue (state S.Store conn.new).is_open
        → OnErr result (IsBack (state S.Store conn.old) (state S.Store conn.new)) }
    ensures honest { HasCleanDisk (state S.Store conn.new) → HasCleanDisk (state S.Store conn.old) }
    ensures crash { HasCleanDisk (state S.Store conn.new)
        → LeavesMade rows.now (state S.Store conn.old) (state S.Store conn.new) }
    ensures alone { HasCleanDisk (state S.Store conn.new) → OnOk result ((db : Trees)
        → (state S.Store conn.new).may_leave db → Made rows.now (state S.Store conn.old) db) }
    ensures open { HasCleanDisk (state S.Store conn.new)
        → OnOk result (IsTrue (state S.Store conn.old).is_open) }
{
    if rows.is_empty() {
        return make_none(conn);
    }
    make_some(conn, alloc, rows)
}

/// Saves what a change writes. A change that writes no rows changes nothing.
pub(crate) fn save_change<S: Alter>(
    conn: &mut Connection<S>,
    alloc: Global,
    change: &Change,
) -> Result<(), KeepError>
    requires base { (world : World) × Keeps (state S.Store conn.old) world × IsCurrent change.now world }
    requires rest { IsAtRest (state S.Store conn.old) }
    ensures rest { IsAtRest (state S.Store conn.new) }
    ensures ok { (world : World) → Keeps (state S.Store conn.old) world → IsCurrent change.now world
        → OnOk result (Keeps (state S.Store conn.new) (after_writes change.now world)) }
    ensures err { (world : World) → Keeps (state S.Store conn.old) world
        → OnErr result (Keeps (state S.Store conn.new) world) }
    ensures undamaged { result ≡ Err Damaged → ⊥ }
    ensures honest { HasCleanDisk (state S.Store conn.new) → HasCleanDisk (state S.Store conn.old) }
    ensures crash { HasCleanDisk (state S.Store conn.new)
        → (world : World) → Keeps (state S.Store conn.old) world → IsCurrent change.now world
        → LeavesOr (state S.Store conn.old).may_leave (state S.Store conn.new).may_leave
        (λ db. HoldSplit db (after_writes change.now world)) }
    ensures alone { HasCleanDisk (state S.Store conn.new)
        → (world : World) → Keeps (state S.Store conn.old) world → IsCurrent change.now world
        → OnOk result (LeavesOnly (state S.Store conn.new).may_leave
        (λ db. HoldSplit db (after_writes change.now world))) }
    ensures open { HasCleanDisk (state S.Store conn.new)
        → OnOk result (IsTrue (state S.Store conn.old).is_open) }
{
    let rows = row_changes(alloc, change)?;
    match make_rows(conn, alloc, rows.as_slice()) {
        Ok(()) => Ok(()),
        Err(error) => Err(refusal(error)),
    }
}
