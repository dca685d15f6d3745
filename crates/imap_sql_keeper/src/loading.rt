//! Reading a world from a database.

ghost use Rattle.std.specs.Prelude.{◌≡◌, false, Err, IfOk, IsTrue, OnOk};
ghost use Rattle.imap_keeper.specs.declared.error.KeepError.TheVariants.{Damaged};
ghost use Rattle.imap_keeper.specs.Keeping.{LeavesOnly};
ghost use Rattle.imap_sql_keeper.specs.Keeping.{AreAllRead, IsAtRest, Keeps};
ghost use Rattle.imap_tables.specs.Contents.{AllAddedShow, AllShow, AreAddedStored, AreStored};
ghost use Rattle.imap_tables.specs.Steps.{HasTables, IsBack};
ghost use Rattle.imap_world.specs.Stored.{world_of};
ghost use Rattle.imap_world.specs.World.{World as Mailboxes};
ghost use Rattle.sqlite.specs.Held.{state};
ghost use Rattle.sqlite.specs.State.{HasCleanDisk, Survives};

use crate::refusal::{fault, refusal};
use imap_keeper::KeepError;
use imap_restore::restore_split;
use imap_tables::{AddedTables, StoredTables, read_added, read_tables};
use imap_world::World;
use sqlite::{Alter, Connection};
use std::alloc::Global;

/// Reads the three tables of messages. Fails with `Damaged` only if nothing is read of one of their
/// rows. Returns what was read of the others beside them.
fn read_beside<S: Alter, T: Drop>(
    conn: &mut Connection<S>,
    alloc: Global,
    stored: T,
) -> Result<(T, AddedTables), KeepError>
    requires rest { IsAtRest (state S.Store conn.old) }
    ensures rest { IsAtRest (state S.Store conn.new) }
    ensures same { IfOk result (λ all. all.0 ≡ stored) }
    ensures read { HasCleanDisk (state S.Store conn.new)
        → IfOk result (λ all. AreAddedStored (state S.Store conn.old).now.trees all.1) }
    ensures unread { HasCleanDisk (state S.Store conn.new)
        → result ≡ Err Damaged → AllAddedShow (state S.Store conn.old).now.trees → ⊥ }
    ensures open { HasCleanDisk (state S.Store conn.new)
        → OnOk result (IsTrue (state S.Store conn.old).is_open) }
    ensures was_open { HasCleanDisk (state S.Store conn.new)
        → result ≡ Err Damaged → IsTrue (state S.Store conn.old).is_open }
    ensures kept { HasCleanDisk (state S.Store conn.new) → IsTrue (state S.Store conn.new).is_open
        → IsBack (state S.Store conn.old) (state S.Store conn.new) }
    ensures crash { Survives (state S.Store conn.old) (state S.Store conn.new) (λ _. ⊥) }
{
    match read_added(conn, alloc) {
        Ok(Some(added)) => Ok((stored, added)),
        Ok(None) => Err(KeepError::Damaged),
        Err(error) => Err(refusal(error)),
    }
}

/// Reads the tables but the three of messages, of this version or the first. Fails with `Damaged`
/// only if nothing is read of one of their rows.
pub(crate) fn read_first<S: Alter>(
    conn: &mut Connection<S>,
    alloc: Global,
) -> Result<StoredTables, KeepError>
    requires schema { HasTables (state S.Store conn.old) }
    requires autocommit { conn.old.in_transaction ≡ false }
    ensures autocommit { conn.new.in_transaction ≡ false }
    ensures read { HasCleanDisk (state S.Store conn.new)
        → IfOk result (AreStored (state S.Store conn.old).now.trees) }
    ensures unread { HasCleanDisk (state S.Store conn.new)
        → result ≡ Err Damaged → AllShow (state S.Store conn.old).now.trees → ⊥ }
    ensures open { HasCleanDisk (state S.Store conn.new)
        → OnOk result (IsTrue (state S.Store conn.old).is_open) }
    ensures was_open { HasCleanDisk (state S.Store conn.new)
        → result ≡ Err Damaged → IsTrue (state S.Store conn.old).is_open }
    ensures kept { HasCleanDisk (state S.Store conn.new) → IsTrue (state S.Store conn.new).is_open
        → IsBack (state S.Store conn.old) (state S.Store conn.new) }
    ensures crash { Survives (state S.Store conn.old) (state S.Store conn.new) (λ _. ⊥) }
{
    match read_tables(conn, alloc) {
        Ok(Some(stored)) => Ok(stored),
        Ok(None) => Err(KeepError::Damaged),
        Err(error) => Err(refusal(error)),
    }
}

/// Reads all tables. Fails with `Damaged` only if nothing is read of one of their rows.
pub(crate) fn read_all<S: Alter>(
    conn: &mut Connection<S>,
    alloc: Global,
) -> Result<(StoredTables, AddedTables), KeepError>
    requires rest { IsAtRest (state S.Store conn.old) }
    ensures rest { IsAtRest (state S.Store conn.new) }
    ensures read { HasCleanDisk (state S.Store conn.new)
        → IfOk result (AreAllRead (state S.Store conn.old).now.trees) }
    ensures unread { HasCleanDisk (state S.Store conn.new) → result ≡ Err Damaged
        → AllShow (state S.Store conn.old).now.trees → AllAddedShow (state S.Store conn.old).now.trees → ⊥ }
    ensures open { HasCleanDisk (state S.Store conn.new)
        → OnOk result (IsTrue (state S.Store conn.old).is_open) }
    ensures was_open { HasCleanDisk (state S.Store conn.new)
        → result ≡ Err Damaged → IsTrue (state S.Store conn.old).is_open }
    ensures kept { HasCleanDisk (state S.Store conn.new) → IsTrue (state S.Store conn.new).is_open
        → IsBack (state S.Store conn.old) (state S.Store conn.new) }
    ensures crash { Survives (state S.Store conn.old) (state S.Store conn.new) (λ _. ⊥) }
{
    match read_first(conn, alloc) {
        Ok(stored) => read_beside(conn, alloc, stored),
        Err(error) => Err(error),
    }
}

/// Reads the world that the tables hold. Fails with `Damaged` only if they hold none. Fails if the
/// connection is shut, and not with `Damaged`.
pub(crate) fn load_world<S: Alter>(
    conn: &mut Connection<S>,
    alloc: Global,
) -> Result<World, KeepError>
    requires rest { IsAtRest (state S.Store conn.old) }
    ensures rest { IsAtRest (state S.Store conn.new) }
    ensures found { IfOk result (λ world. Keeps (state S.Store conn.new) (world_of world)) }
    ensures known { HasCleanDisk (state S.Store conn.new)
        → (world : Mailboxes) → Keeps (state S.Store conn.old) world
        → IfOk result (λ found. world_of found ≡ world) }
    ensures damaged { HasCleanDisk (state S.Store conn.new)
        → (world : Mailboxes) → Keeps (state S.Store conn.old) world → result ≡ Err Damaged → ⊥ }
    ensures unchanged { (world : Mailboxes) → Keeps (state S.Store conn.old) world
        → Keeps (state S.Store conn.new) world }
    ensures honest { HasCleanDisk (state S.Store conn.new) → HasCleanDisk (state S.Store conn.old) }
    ensures crash { HasCleanDisk (state S.Store conn.new)
        → LeavesOnly (state S.Store conn.new).may_leave (state S.Store conn.old).may_leave }
    ensures open { HasCleanDisk (state S.Store conn.new)
        → OnOk result (IsTrue (state S.Store conn.old).is_open) }
    ensures read { HasCleanDisk (state S.Store conn.new)
        → result ≡ Err Damaged → IsTrue (state S.Store conn.old).is_open }
{
    // What an open connection shows obeys its schema.
    let _ = conn.schema();
    let (stored, added) = match read_all(conn, alloc) {
        Ok(all) => all,
        Err(error) => return Err(error),
    };
    match restore_split(alloc, stored, added) {
        Ok(world) => Ok(world),
        Err(error) => Err(fault(error)),
    }
}
