//! Taking a database over.

ghost use Rattle.std.specs.Prelude.{◌≡◌, ◌≢◌, ◌↔◌, ◌⊎◌, false, Err, IfErr, IfOk, IsTrue, OnErr, OnOk};
ghost use Rattle.std.specs.List.{AllByRecursion};
ghost use Rattle.imap_keeper.specs.declared.error.KeepError.TheVariants.{Damaged};
ghost use Rattle.imap_keeper.specs.Keeping.{LeavesOnly};
ghost use Rattle.imap_restore.specs.Holding.{MetaShows};
ghost use Rattle.imap_sql_keeper.specs.Adopting.{FindsStore, IsAdopted, IsDamaged, IsNew, IsTakenOver};
ghost use Rattle.imap_sql_keeper.specs.Adopting.{IsVersion, SaysStore, SaysVersion};
ghost use Rattle.imap_sql_keeper.specs.Keeping.{IsAtRest};
ghost use Rattle.imap_tables.specs.Rows.{IsOrderly};
ghost use Rattle.imap_tables.specs.Steps.{HasTables, IsBack, IsNewStore};
ghost use Rattle.imap_tables.specs.Tables.{no_schema};
ghost use Rattle.imap_tables.specs.Texts.{first_schema};
ghost use Rattle.imap_tables.specs.Stored.{IsMeta, ShowsMeta};
ghost use Rattle.imap_tables.specs.declared.stored.StoredMeta.{StoredMeta as Meta};
ghost use Rattle.sqlite.specs.Held.{state};
ghost use Rattle.sqlite.specs.Order.{Row as Values};
ghost use Rattle.sqlite.specs.State.{HasCleanDisk, Survives};
ghost use Rattle.sqlite.specs.Tree.{Trees};
ghost use Rattle.sqlite.specs.declared.error.Error.TheVariants.{SqliteFailure};
ghost use Rattle.sqlite.specs.declared.error.ErrorCode.TheVariants.{OutOfMemory};
ghost use Rattle.sqlite_rules.specs.Lists.{Has};

use crate::refusal::{damage, refusal};
use crate::taking::take_over;
use imap_keeper::KeepError;
use imap_tables::{
    FromRow, GAPS_VERSION, STORE_VERSION, StoredMeta, is_blank, is_first_store, is_store,
    make_store, read_meta,
};
use sqlite::{Alter, Connection, Error, Row};
use std::alloc::Global;

/// Whether a row of `meta` says that the tables are of this version.
fn is_version(row: &Row, version: u32) -> Result<bool, Error>
    ensures ok { IfOk result (λ is. IsTrue is ↔ IsVersion version row.now) }
    ensures unread { IfErr result (λ e. e ≢ SqliteFailure OutOfMemory → ShowsMeta row.now → ⊥) }
{
    let meta = StoredMeta::read(row)?;
    Ok(meta.key.as_str() == "version" && meta.value == version)
}

/// Whether one of the rows of `meta` says that the tables are of this version.
fn have_version(rows: &[Row], version: u32) -> Result<bool, Error>
    ensures ok { IfOk result (λ have.
        IsTrue have ↔ ((row : Values) × Has rows.now row × IsVersion version row)) }
    ensures unread { IfErr result (λ e. e ≢ SqliteFailure OutOfMemory
        → ((row : Values) → Has rows.now row → ShowsMeta row) → ⊥) }
{
    'rows: for row in rows {
        if is_version(row, version)? {
            return Ok(true);
        }
    }
    Ok(false)
}

/// Whether one of the rows of `meta` says that the tables are of one of two versions.
fn have_either(rows: &[Row], version: u32, other: u32) -> Result<bool, Error>
    ensures ok { IfOk result (λ have. IsTrue have
        ↔ (((row : Values) × Has rows.now row × IsVersion version row)
        ⊎ ((row : Values) × Has rows.now row × IsVersion other row))) }
    ensures unread { IfErr result (λ e. e ≢ SqliteFailure OutOfMemory
        → ((row : Values) → Has rows.now row → ShowsMeta row) → ⊥) }
{
    if have_version(rows, version)? {
        return Ok(true);
    }
    have_version(rows, other)
}

/// Checks that the tables say that they are of one of two versions. Fails with `Damaged` if they
/// don't, or if a row of `meta` can't be read. Returns the allocator of the connection.
pub(crate) fn check_version<S: Alter>(
    conn: &mut Connection<S>,
    version: u32,
    other: u32,
) -> Result<Global, KeepError>
    requires schema { HasTables (state S.Store conn.old) }
    requires autocommit { conn.old.in_transaction ≡ false }
    ensures autocommit { conn.new.in_transaction ≡ false }
    ensures says { HasCleanDisk (state S.Store conn.new)
        → OnOk result (SaysVersion version (state S.Store conn.old).now.trees
        ⊎ SaysVersion other (state S.Store conn.old).now.trees) }
    ensures kept { HasCleanDisk (state S.Store conn.new) → IsTrue (state S.Store conn.new).is_open
        → IsBack (state S.Store conn.old) (state S.Store conn.new) }
    ensures damaged { HasCleanDisk (state S.Store conn.new) → result ≡ Err Damaged
        → MetaShows (state S.Store conn.old).now.trees
        → SaysVersion version (state S.Store conn.old).now.trees
        ⊎ SaysVersion other (state S.Store conn.old).now.trees → ⊥ }
    ensures crash { Survives (state S.Store conn.old) (state S.Store conn.new) (λ _. ⊥) }
{
    let rows = match read_meta(conn) {
        Ok(rows) => rows,
        Err(error) => return Err(refusal(error)),
    };
    let alloc = *rows.allocator();
    match have_either(rows.as_slice(), version, other) {
        Ok(true) => Ok(alloc),
        Ok(false) => Err(KeepError::Damaged),
        Err(error) => Err(damage(error)),
    }
}

/// Checks that the tables are those of a store of a version that is read as it is.
fn check_store<S: Alter>(conn: &mut Connection<S>) -> Result<(), KeepError>
    requires rest { IsAtRest (state S.Store conn.old) }
    ensures rest { IsAtRest (state S.Store conn.new) }
    ensures says { HasCleanDisk (state S.Store conn.new)
        → OnOk result (SaysStore (state S.Store conn.old).now.trees) }
    ensures kept { HasCleanDisk (state S.Store conn.new) → IsTrue (state S.Store conn.new).is_open
        → IsBack (state S.Store conn.old) (state S.Store conn.new) }
    ensures damaged { HasCleanDisk (state S.Store conn.new) → result ≡ Err Damaged
        → MetaShows (state S.Store conn.old).now.trees
        → SaysStore (state S.Store conn.old).now.trees → ⊥ }
    ensures crash { Survives (state S.Store conn.old) (state S.Store conn.new) (λ _. ⊥) }
{
    match check_version(conn, STORE_VERSION, GAPS_VERSION) {
        Ok(_) => Ok(()),
        Err(error) => Err(error),
    }
}

/// Makes the tables in a database that has none.
fn make_new<S: Alter>(conn: &mut Connection<S>) -> Result<(), KeepError>
    requires blank { (state S.Store conn.old).now.schema ≡ no_schema }
    requires autocommit { conn.old.in_transaction ≡ false }
    requires settled { IsTrue (state S.Store conn.old).is_open
        → (state S.Store conn.old).now ≡ (state S.Store conn.old).committed }
    ensures rest { OnOk result (IsAtRest (state S.Store conn.new)) }
    ensures made { HasCleanDisk (state S.Store conn.new) → IsTrue (state S.Store conn.new).is_open
        → OnOk result (IsNewStore (state S.Store conn.new).now.trees
        × IsOrderly (state S.Store conn.new).now.trees) }
    ensures before { HasCleanDisk (state S.Store conn.new) → IsTrue (state S.Store conn.new).is_open
        → OnErr result ((state S.Store conn.new).committed ≡ (state S.Store conn.old).committed) }
    ensures undamaged { result ≡ Err Damaged → ⊥ }
    ensures crash { Survives (state S.Store conn.old) (state S.Store conn.new) IsNew }
    ensures alone { HasCleanDisk (state S.Store conn.new) → OnOk result ((db : Trees)
        → (state S.Store conn.new).may_leave db → IsNew db) }
{
    match make_store(conn) {
        Ok(()) => {
            // Nothing waits to be committed.
            let _ = conn.is_autocommit();
            Ok(())
        }
        Err(error) => Err(refusal(error)),
    }
}

/// Finds the tables of a store, or makes them in a database that has none. Takes those of the first
/// version over.
pub(crate) fn find_store<S: Alter>(conn: &mut Connection<S>) -> Result<(), KeepError>
    ensures rest { OnOk result (IsAtRest (state S.Store conn.new)) }
    ensures finds { HasCleanDisk (state S.Store conn.new) → IsTrue (state S.Store conn.new).is_open
        → OnOk result (FindsStore (state S.Store conn.old) (state S.Store conn.new)) }
    ensures before { HasCleanDisk (state S.Store conn.new) → IsTrue (state S.Store conn.new).is_open
        → OnErr result ((state S.Store conn.new).committed ≡ (state S.Store conn.old).committed) }
    ensures damaged { HasCleanDisk (state S.Store conn.new) → result ≡ Err Damaged
        → IsDamaged (state S.Store conn.old) }
    ensures crash { Survives (state S.Store conn.old) (state S.Store conn.new)
        (IsAdopted (state S.Store conn.old)) }
    ensures alone { HasCleanDisk (state S.Store conn.new)
        → OnOk result ((state S.Store conn.old).now.schema ≡ no_schema
        → (db : Trees) → (state S.Store conn.new).may_leave db → IsNew db) }
    ensures taken { HasCleanDisk (state S.Store conn.new)
        → OnOk result ((state S.Store conn.old).now.schema ≡ first_schema
        → LeavesOnly (state S.Store conn.new).may_leave (IsTakenOver (state S.Store conn.old).now.trees)) }
{
    if !conn.is_autocommit() {
        return Err(KeepError::Refused);
    }
    if is_blank(conn.schema()) {
        return make_new(conn);
    }
    if is_store(conn.schema()) {
        return check_store(conn);
    }
    if !is_first_store(conn.schema()) {
        return Err(KeepError::Damaged);
    }
    take_over(conn)
}
