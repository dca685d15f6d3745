//! A store of the first version, which had each message in one row, becomes one of this version.

ghost use Rattle.std.specs.Prelude.{◌≡◌, Err, IsTrue, OnErr, OnOk};
ghost use Rattle.imap_keeper.specs.declared.error.KeepError.TheVariants.{Damaged};
ghost use Rattle.imap_keeper.specs.Keeping.{LeavesOnly};
ghost use Rattle.imap_restore.specs.Holding.{HoldFirst};
ghost use Rattle.imap_sql_keeper.specs.Adopting.{IsFirst, IsTakenOver};
ghost use Rattle.imap_sql_keeper.specs.Keeping.{IsAtRest, Rests};
ghost use Rattle.imap_tables.specs.Steps.{IsBack};
ghost use Rattle.imap_tables.specs.Texts.{first_schema};
ghost use Rattle.imap_world.specs.World.{World as Mailboxes};
ghost use Rattle.sqlite.specs.Held.{state};
ghost use Rattle.sqlite.specs.State.{HasCleanDisk, Survives};

use crate::adopting::check_version;
use crate::loading::read_first;
use crate::refusal::{fault, refusal};
use imap_keeper::KeepError;
use imap_message_tables::adopt_rows;
use imap_restore::restore;
use imap_tables::FIRST_VERSION;
use sqlite::{Alter, Connection};
use std::alloc::Global;

/// Checks that the tables of the first version hold a world. Fails with `Damaged` only if they hold
/// none. Returns `alloc`.
fn check_world<S: Alter>(conn: &mut Connection<S>, alloc: Global) -> Result<Global, KeepError>
    requires rest { Rests first_schema (state S.Store conn.old) }
    ensures rest { Rests first_schema (state S.Store conn.new) }
    ensures holds { HasCleanDisk (state S.Store conn.new)
        → OnOk result ((world : Mailboxes) × HoldFirst (state S.Store conn.old).now.trees world) }
    ensures damaged { HasCleanDisk (state S.Store conn.new) → result ≡ Err Damaged
        → (world : Mailboxes) → HoldFirst (state S.Store conn.old).now.trees world → ⊥ }
    ensures open { HasCleanDisk (state S.Store conn.new)
        → OnOk result (IsTrue (state S.Store conn.old).is_open) }
    ensures was_open { HasCleanDisk (state S.Store conn.new)
        → result ≡ Err Damaged → IsTrue (state S.Store conn.old).is_open }
    ensures kept { HasCleanDisk (state S.Store conn.new) → IsTrue (state S.Store conn.new).is_open
        → IsBack (state S.Store conn.old) (state S.Store conn.new) }
    ensures crash { Survives (state S.Store conn.old) (state S.Store conn.new) (λ _. ⊥) }
{
    // What an open connection shows obeys its schema.
    let _ = conn.schema();
    let stored = match read_first(conn, alloc) {
        Ok(stored) => stored,
        Err(error) => return Err(error),
    };
    match restore(alloc, stored) {
        Ok(world) => {
            drop(world);
            Ok(alloc)
        }
        Err(error) => Err(fault(error)),
    }
}

/// Checks that the tables say that they are of the first version, and hold a world. Fails with
/// `Damaged` only if they don't. Returns the allocator of the connection.
fn check_first<S: Alter>(conn: &mut Connection<S>) -> Result<Global, KeepError>
    requires rest { Rests first_schema (state S.Store conn.old) }
    ensures rest { Rests first_schema (state S.Store conn.new) }
    ensures first { HasCleanDisk (state S.Store conn.new)
        → OnOk result (IsFirst (state S.Store conn.old).now.trees) }
    ensures damaged { HasCleanDisk (state S.Store conn.new) → result ≡ Err Damaged
        → IsFirst (state S.Store conn.old).now.trees → ⊥ }
    ensures kept { HasCleanDisk (state S.Store conn.new) → IsTrue (state S.Store conn.new).is_open
        → IsBack (state S.Store conn.old) (state S.Store conn.new) }
    ensures crash { Survives (state S.Store conn.old) (state S.Store conn.new) (λ _. ⊥) }
{
    match check_version(conn, FIRST_VERSION, FIRST_VERSION) {
        Ok(alloc) => check_world(conn, alloc),
        Err(error) => Err(error),
    }
}

/// Moves the messages of tables of the first version, which hold a world, to three tables. If it
/// fails, the tables are as before.
fn move_rows<S: Alter>(conn: &mut Connection<S>, alloc: Global) -> Result<(), KeepError>
    requires rest { Rests first_schema (state S.Store conn.old) }
    requires first { HasCleanDisk (state S.Store conn.old) → IsTrue (state S.Store conn.old).is_open
        → IsFirst (state S.Store conn.old).now.trees }
    ensures rest { OnOk result (IsAtRest (state S.Store conn.new)) }
    ensures taken { HasCleanDisk (state S.Store conn.new) → OnOk result
        (IsTakenOver (state S.Store conn.old).now.trees (state S.Store conn.new).now.trees) }
    ensures open { HasCleanDisk (state S.Store conn.new)
        → OnOk result (IsTrue (state S.Store conn.old).is_open) }
    ensures before { HasCleanDisk (state S.Store conn.new) → IsTrue (state S.Store conn.new).is_open
        → OnErr result (IsBack (state S.Store conn.old) (state S.Store conn.new)) }
    ensures undamaged { HasCleanDisk (state S.Store conn.new) → result ≡ Err Damaged → ⊥ }
    ensures crash { Survives (state S.Store conn.old) (state S.Store conn.new) (λ db.
        IsTrue (state S.Store conn.old).is_open × IsTakenOver (state S.Store conn.old).now.trees db) }
    ensures alone { HasCleanDisk (state S.Store conn.new) → OnOk result
        (LeavesOnly (state S.Store conn.new).may_leave (IsTakenOver (state S.Store conn.old).now.trees)) }
{
    // What an open connection shows obeys its schema.
    let _ = conn.schema();
    let stored = match read_first(conn, alloc) {
        Ok(stored) => stored,
        Err(error) => return Err(error),
    };
    let moved = adopt_rows(conn, alloc, stored.messages.as_slice());
    drop(stored);
    match moved {
        Ok(()) => Ok(()),
        Err(error) => Err(refusal(error)),
    }
}

/// Takes tables of the first version over, in one transaction. Fails with `Damaged` only if they
/// don't say that they are of that version, or hold no world. If it fails, they are as before.
pub(crate) fn take_over<S: Alter>(conn: &mut Connection<S>) -> Result<(), KeepError>
    requires rest { Rests first_schema (state S.Store conn.old) }
    ensures rest { OnOk result (IsAtRest (state S.Store conn.new)) }
    ensures taken { HasCleanDisk (state S.Store conn.new) → OnOk result
        (IsTakenOver (state S.Store conn.old).now.trees (state S.Store conn.new).now.trees) }
    ensures before { HasCleanDisk (state S.Store conn.new) → IsTrue (state S.Store conn.new).is_open
        → OnErr result (IsBack (state S.Store conn.old) (state S.Store conn.new)) }
    ensures damaged { HasCleanDisk (state S.Store conn.new) → result ≡ Err Damaged
        → IsFirst (state S.Store conn.old).now.trees → ⊥ }
    ensures crash { Survives (state S.Store conn.old) (state S.Store conn.new)
        (IsTakenOver (state S.Store conn.old).now.trees) }
    ensures alone { HasCleanDisk (state S.Store conn.new) → OnOk result
        (LeavesOnly (state S.Store conn.new).may_leave (IsTakenOver (state S.Store conn.old).now.trees)) }
{
    match check_first(conn) {
        Ok(alloc) => move_rows(conn, alloc),
        Err(error) => Err(error),
    }
}
