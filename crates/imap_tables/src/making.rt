//! How the tables are made.

ghost use Rattle.std.specs.Prelude.{◌<◌, ◌≡◌, false, IsTrue, OnErr, OnOk};
ghost use Rattle.imap_tables.specs.Rows.{IsOrderly};
ghost use Rattle.imap_tables.specs.Steps.{Calls, HasSchema, IsBegun, IsNewStore, MakesAdded, MakesNext};
ghost use Rattle.imap_tables.specs.Steps.{MakesStore, MakesTables};
ghost use Rattle.imap_tables.specs.Tables.{no_schema, store_schema};
ghost use Rattle.imap_tables.specs.Texts.{first_schema, schema_at, text_at};
ghost use Rattle.sqlite.specs.Held.{state};
ghost use Rattle.sqlite.specs.State.{HasCleanDisk, Survives};
ghost use Rattle.sqlite.specs.Tree.{Trees};

use crate::inserts::insert_meta;
use sqlite::{Alter, Connection, Error, Transaction};

/// The version of the tables.
pub const STORE_VERSION: u32 = 2;

/// The version of the tables once own changes of a user may be missing among the others.
pub const GAPS_VERSION: u32 = 3;

/// The version before, which had each message in one row.
pub const FIRST_VERSION: u32 = 1;

/// The text that makes the table at a place.
fn text_of(at: u32) -> &'static str
    requires low { at < 11 }
    ensures { result.now ≡ text_at at }
{
    match at {
        0 => "CREATE TABLE mailbox (id INTEGER PRIMARY KEY, tree TEXT NOT NULL, \
             path TEXT NOT NULL, validity INTEGER NOT NULL, uidnext INTEGER NOT NULL, \
             shared INTEGER NOT NULL, UNIQUE (tree, path)) STRICT",
        1 =>
            "CREATE TABLE acl (mailbox INTEGER NOT NULL REFERENCES mailbox (id) ON DELETE CASCADE, \
             identifier TEXT NOT NULL, rights INTEGER NOT NULL, PRIMARY KEY (mailbox, \
             identifier)) STRICT",
        2 =>
            "CREATE TABLE message (mailbox INTEGER NOT NULL REFERENCES mailbox (id) ON DELETE CASCADE, \
             uid INTEGER NOT NULL, date TEXT NOT NULL, octets BLOB NOT NULL, \
             flags INTEGER NOT NULL, keywords TEXT NOT NULL, place INTEGER NOT NULL, \
             PRIMARY KEY (mailbox, uid)) STRICT",
        3 =>
            "CREATE TABLE gone (mailbox INTEGER NOT NULL REFERENCES mailbox (id) ON DELETE CASCADE, \
             uid INTEGER NOT NULL, place INTEGER NOT NULL, PRIMARY KEY (mailbox, uid)) STRICT",
        4 =>
            "CREATE TABLE mark (mailbox INTEGER NOT NULL REFERENCES mailbox (id) ON DELETE CASCADE, \
             user TEXT NOT NULL, own INTEGER NOT NULL, before INTEGER NOT NULL, \
             uid INTEGER NOT NULL, seen INTEGER NOT NULL, PRIMARY KEY (mailbox, user, \
             own)) STRICT",
        5 => "CREATE TABLE epoch (tree TEXT NOT NULL, path TEXT NOT NULL, \
             greatest INTEGER NOT NULL, PRIMARY KEY (tree, path)) STRICT",
        6 => "CREATE TABLE sub (user TEXT NOT NULL, tree TEXT NOT NULL, path TEXT NOT NULL, \
             PRIMARY KEY (user, tree, path)) STRICT",
        7 => "CREATE TABLE meta (key TEXT NOT NULL PRIMARY KEY, value INTEGER NOT NULL) STRICT",
        8 =>
            "CREATE TABLE message2 (mailbox INTEGER NOT NULL REFERENCES mailbox (id) ON DELETE CASCADE, \
             uid INTEGER NOT NULL, date TEXT NOT NULL, flags INTEGER NOT NULL, \
             place INTEGER NOT NULL, PRIMARY KEY (mailbox, uid)) STRICT",
        9 =>
            "CREATE TABLE body (mailbox INTEGER NOT NULL REFERENCES mailbox (id) ON DELETE CASCADE, \
             uid INTEGER NOT NULL, octets BLOB NOT NULL, PRIMARY KEY (mailbox, uid)) STRICT",
        _ =>
            "CREATE TABLE keyword (mailbox INTEGER NOT NULL REFERENCES mailbox (id) ON DELETE CASCADE, \
             uid INTEGER NOT NULL, word TEXT NOT NULL, PRIMARY KEY (mailbox, uid, word)) STRICT",
    }
}

/// Makes the table at a place, after those before it.
fn make_table<S: Alter>(tx: &mut Transaction<'_, S>, at: u32) -> Result<usize, Error>
    requires low { at < 11 }
    requires schema { HasSchema (schema_at at) (state S.Store tx.old.conn.now) }
    ensures same_reference { tx.new.conn.ghost_name ≡ tx.old.conn.ghost_name }
    ensures call { Calls S.Store tx.old.conn.now tx.new.conn.now (λ old new.
        OnOk result (MakesNext at old new)) }
{
    let text = text_of(at);
    tx.execute(text, &[])
}

/// Makes the tables `message2` and `body` after those of the first version.
fn make_two<S: Alter>(tx: &mut Transaction<'_, S>) -> Result<(), Error>
    requires schema { HasSchema first_schema (state S.Store tx.old.conn.now) }
    requires begun { IsBegun (state S.Store tx.old.conn.now) }
    ensures same_reference { tx.new.conn.ghost_name ≡ tx.old.conn.ghost_name }
    ensures call { Calls S.Store tx.old.conn.now tx.new.conn.now (λ old new.
        OnOk result (MakesAdded 10 old new)) }
{
    make_table(tx, 8)?;
    make_table(tx, 9)?;
    Ok(())
}

/// Makes the three tables of messages after those of the first version, which keep their rows.
pub fn make_added<S: Alter>(tx: &mut Transaction<'_, S>) -> Result<(), Error>
    requires schema { HasSchema first_schema (state S.Store tx.old.conn.now) }
    requires begun { IsBegun (state S.Store tx.old.conn.now) }
    ensures same_reference { tx.new.conn.ghost_name ≡ tx.old.conn.ghost_name }
    ensures call { Calls S.Store tx.old.conn.now tx.new.conn.now (λ old new.
        OnOk result (MakesAdded 11 old new)) }
{
    make_two(tx)?;
    make_table(tx, 10)?;
    Ok(())
}

/// Makes all tables in turn.
fn make_all<S: Alter>(tx: &mut Transaction<'_, S>) -> Result<(), Error>
    requires schema { HasSchema no_schema (state S.Store tx.old.conn.now) }
    requires begun { IsTrue (state S.Store tx.old.conn.now).in_transaction }
    ensures same_reference { tx.new.conn.ghost_name ≡ tx.old.conn.ghost_name }
    ensures made { HasCleanDisk (state S.Store tx.new.conn.now)
        → OnOk result (MakesTables (state S.Store tx.new.conn.now)) }
    ensures kept { HasCleanDisk (state S.Store tx.new.conn.now)
        → IsTrue (state S.Store tx.new.conn.now).is_open
        → (state S.Store tx.new.conn.now).committed ≡ (state S.Store tx.old.conn.now).committed }
    ensures survives { Survives (state S.Store tx.old.conn.now) (state S.Store tx.new.conn.now) (λ _. ⊥) }
{
    'tables: for at in 0u32..11 {
        make_table(tx, at)?;
    }
    Ok(())
}

/// Makes all tables, and puts their version.
fn make_all_of<S: Alter>(tx: &mut Transaction<'_, S>) -> Result<(), Error>
    requires schema { HasSchema no_schema (state S.Store tx.old.conn.now) }
    requires begun { IsTrue (state S.Store tx.old.conn.now).in_transaction }
    ensures same_reference { tx.new.conn.ghost_name ≡ tx.old.conn.ghost_name }
    ensures made { HasCleanDisk (state S.Store tx.new.conn.now)
        → OnOk result (MakesStore (state S.Store tx.new.conn.now)) }
    ensures kept { HasCleanDisk (state S.Store tx.new.conn.now)
        → IsTrue (state S.Store tx.new.conn.now).is_open
        → (state S.Store tx.new.conn.now).committed ≡ (state S.Store tx.old.conn.now).committed }
    ensures survives { Survives (state S.Store tx.old.conn.now) (state S.Store tx.new.conn.now) (λ _. ⊥) }
{
    make_all(tx)?;
    insert_meta(tx, "version", STORE_VERSION)?;
    Ok(())
}

/// Makes all tables in one transaction, and puts their version.
pub fn make_store<S: Alter>(conn: &mut Connection<S>) -> Result<(), Error>
    requires schema { HasSchema no_schema (state S.Store conn.old) }
    requires autocommit { conn.old.in_transaction ≡ false }
    ensures made { HasCleanDisk (state S.Store conn.new)
        → OnOk result (IsNewStore (state S.Store conn.new).committed.trees) }
    ensures orderly { HasCleanDisk (state S.Store conn.new)
        → OnOk result (IsOrderly (state S.Store conn.new).committed.trees) }
    ensures schema { HasCleanDisk (state S.Store conn.new)
        → OnOk result ((state S.Store conn.new).now.schema ≡ store_schema) }
    ensures before { HasCleanDisk (state S.Store conn.new) → IsTrue (state S.Store conn.new).is_open
        → OnErr result ((state S.Store conn.new).committed ≡ (state S.Store conn.old).committed) }
    ensures autocommit { conn.new.in_transaction ≡ false }
    ensures alone { HasCleanDisk (state S.Store conn.new) → OnOk result ((db : Trees)
        → (state S.Store conn.new).may_leave db → db ≡ (state S.Store conn.new).committed.trees) }
    ensures crash { Survives (state S.Store conn.old) (state S.Store conn.new) (λ db.
        IsNewStore db × IsOrderly db) }
{
    let mut tx = conn.transaction();
    make_all_of(&mut tx)?;
    tx.commit()
}
