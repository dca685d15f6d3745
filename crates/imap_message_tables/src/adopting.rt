//! A store of the first version, which had each message in one row, is taken over.

ghost use Rattle.std.specs.Prelude.{◌≡◌, false, IsTrue, OnErr, OnOk};
ghost use Rattle.imap_message_tables.specs.Adopting.{Adopts, AdoptsRows, IsFirstStore, MovesRows, SetsVersion};
ghost use Rattle.imap_message_tables.specs.Copying.{CopiesRows};
ghost use Rattle.imap_message_tables.specs.Going.{Goes};
ghost use Rattle.imap_tables.specs.Changes.{Then};
ghost use Rattle.imap_tables.specs.Rows.{IsOrderly};
ghost use Rattle.imap_tables.specs.Steps.{Calls, HasSchema, IsBack, IsBegun, Saves, Turns};
ghost use Rattle.imap_tables.specs.Tables.{store_schema};
ghost use Rattle.imap_tables.specs.Texts.{first_schema};
ghost use Rattle.sqlite.specs.Held.{state};
ghost use Rattle.sqlite.specs.State.{HasCleanDisk, Survives};
ghost use Rattle.sqlite.specs.Tree.{Trees};

use crate::copying::copy_messages;
use crate::writing::made;
use imap_tables::{STORE_VERSION, StoredMessage, delete_messages, make_added, update_meta};
use sqlite::{Alter, Connection, Error, Transaction};
use std::alloc::Global;

/// Sets the version of the tables.
fn set_version<S: Alter>(tx: &mut Transaction<'_, S>) -> Result<usize, Error>
    requires schema { HasSchema store_schema (state S.Store tx.old.conn.now) }
    ensures same_reference { tx.new.conn.ghost_name ≡ tx.old.conn.ghost_name }
    ensures call { Calls S.Store tx.old.conn.now tx.new.conn.now (λ old new.
        OnOk result (Turns SetsVersion old new)) }
{
    update_meta(tx, "version", STORE_VERSION)
}

/// Adds the messages in turn, and sets the version.
fn copy_all<S: Alter>(
    tx: &mut Transaction<'_, S>,
    alloc: Global,
    messages: &[StoredMessage],
) -> Result<(), Error>
    requires schema { HasSchema store_schema (state S.Store tx.old.conn.now) }
    requires begun { IsBegun (state S.Store tx.old.conn.now) }
    ensures same_reference { tx.new.conn.ghost_name ≡ tx.old.conn.ghost_name }
    ensures call { Calls S.Store tx.old.conn.now tx.new.conn.now (λ old new.
        OnOk result (Goes (Then (CopiesRows messages.now) SetsVersion) old new)) }
{
    copy_messages(tx, alloc, messages)?;
    made(set_version(tx))
}

/// Deletes the messages that stand in one row each, adds these in turn, and sets the version.
fn move_messages<S: Alter>(
    tx: &mut Transaction<'_, S>,
    alloc: Global,
    messages: &[StoredMessage],
) -> Result<(), Error>
    requires schema { HasSchema store_schema (state S.Store tx.old.conn.now) }
    requires begun { IsBegun (state S.Store tx.old.conn.now) }
    ensures same_reference { tx.new.conn.ghost_name ≡ tx.old.conn.ghost_name }
    ensures call { Calls S.Store tx.old.conn.now tx.new.conn.now (λ old new.
        OnOk result (Turns (MovesRows messages.now) old new)) }
{
    delete_messages(tx)?;
    copy_all(tx, alloc, messages)
}

/// Makes the three tables of messages, and moves the messages there.
fn adopt_in<S: Alter>(
    tx: &mut Transaction<'_, S>,
    alloc: Global,
    messages: &[StoredMessage],
) -> Result<(), Error>
    requires schema { HasSchema first_schema (state S.Store tx.old.conn.now) }
    requires begun { IsBegun (state S.Store tx.old.conn.now) }
    ensures same_reference { tx.new.conn.ghost_name ≡ tx.old.conn.ghost_name }
    ensures call { Calls S.Store tx.old.conn.now tx.new.conn.now (λ old new.
        OnOk result (Adopts messages.now old new)) }
{
    make_added(tx)?;
    move_messages(tx, alloc, messages)
}

/// Takes the tables of the first version over, which have these messages, in one transaction. If it
/// fails, they are as before.
pub fn adopt_rows<S: Alter>(
    conn: &mut Connection<S>,
    alloc: Global,
    messages: &[StoredMessage],
) -> Result<(), Error>
    requires first { IsFirstStore (state S.Store conn.old) }
    requires autocommit { conn.old.in_transaction ≡ false }
    ensures after { HasCleanDisk (state S.Store conn.new)
        → OnOk result (Saves (AdoptsRows messages.now) (state S.Store conn.old) (state S.Store conn.new)) }
    ensures before { HasCleanDisk (state S.Store conn.new) → IsTrue (state S.Store conn.new).is_open
        → OnErr result (IsBack (state S.Store conn.old) (state S.Store conn.new)) }
    ensures autocommit { conn.new.in_transaction ≡ false }
    ensures alone { HasCleanDisk (state S.Store conn.new) → OnOk result ((db : Trees)
        → (state S.Store conn.new).may_leave db → db ≡ (state S.Store conn.new).committed.trees) }
    ensures crash { Survives (state S.Store conn.old) (state S.Store conn.new) (λ db.
        IsTrue (state S.Store conn.old).is_open
        × AdoptsRows messages.now (state S.Store conn.old).now.trees db × IsOrderly db) }
{
    let mut tx = conn.transaction();
    adopt_in(&mut tx, alloc, messages)?;
    tx.commit()
}
