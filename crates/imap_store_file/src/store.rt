//! The store in a file.
//!
//! Pages of a new store end in a sum (SQLite's `cksumvfs`), so that a changed bit is found when the store is opened. A
//! store without sums is taken as it is.

ghost use Rattle.std.specs.Prelude.{IsTrue};

use crate::pair::{Pair, look_at_pair};
use crate::store_look::IDENTITY_KEYS;
use imap_options::LogLevel;
use imap_service::{
    ServiceError, StoreFault, cut_log, make_missing, make_private, remove_made, report_unread,
};
use imap_sql_keeper::SqlKeeper;
use sqlite::{Alter, Connection, Error, ErrorCode, File, FileStore, Options, Unknown, params};
use sqlite_disk::{Disk, Files};
use sqlite_std_file::OpenError;
use std::alloc::Global;
use std::hash::{BuildHasher, RandomState};
use std::io::ErrorKind;
use std::random::RandomSource;

/// How many pages that were read, and how many that were written, are kept in memory. The mailboxes are there besides, so
/// that few pages are read again.
const PAGES: usize = 500;

/// A keeper in a file. Functions that let it go take a keeper over any store: the proof of one alone is long.
pub(crate) type FileKeeper = SqlKeeper<FileStore<File>>;

/// Takes the database in the file over, which is made if it is missing. It and the files beside it can then be read
/// and written by their owner alone. A log that an earlier run left is put back into the database, if it was begun over
/// this store. A file that is refused stays as it is, and so does its log. `path` has no link in it.
pub(crate) fn open(
    rt: &HostRuntime,
    path: &str,
    level: LogLevel,
) -> Result<FileKeeper, ServiceError> {
    let pair = look_at_pair(rt, path)?;
    if let Some(log) = pair.log {
        report_unread(rt, level, log);
    }
    let made = make_missing(rt, path)?;
    match open_pair(rt, path, &pair) {
        Ok(keeper) => Ok(keeper),
        Err(error) => {
            remove_made(rt, path, made)?;
            Err(error)
        }
    }
}

/// Puts the log back, and takes the database over. A store without an identity is given one first.
fn open_pair(rt: &HostRuntime, path: &str, pair: &Pair) -> Result<FileKeeper, ServiceError> {
    let fresh = random_number(rt)?;
    let pair = known_pair(rt, path, pair, fresh)?;
    let known = pair.store.identity();
    let identity = known.unwrap_or(fresh);
    settle_log(rt, path, &pair, identity)?;
    if known.is_none() {
        identify(rt, path, identity)?;
    }
    let keeper = adopt(connect(rt, path, identity))?;
    private(rt, path, keeper)
}

/// Puts the log of a store without an identity back, since the log may have that, if a stop came before it was put back.
/// Returns what the two say then.
fn known_pair(rt: &HostRuntime, path: &str, pair: &Pair, seed: u64) -> Result<Pair, ServiceError> {
    if pair.store.identity().is_some() || !pair.is_written() {
        return Ok(*pair);
    }
    put_log_back(connect(rt, path, seed))?;
    look_at_pair(rt, path)
}

/// Puts the log back, so that the next one is begun over the store with this identity. One without frames that was begun
/// elsewhere is cut off.
fn settle_log(
    rt: &HostRuntime,
    path: &str,
    pair: &Pair,
    identity: u64,
) -> Result<(), ServiceError> {
    if pair.is_written() {
        return put_log_back(connect(rt, path, identity));
    }
    if pair.is_begun_elsewhere(identity) {
        // While the database is open, no other program writes to its log.
        let conn = connect(rt, path, identity)?;
        let cut = cut_log(rt, path);
        drop_connection(conn);
        return cut;
    }
    Ok(())
}

/// Lets a connection over any store go, since the proof over a file of the system is long.
fn drop_connection<S: Alter + Drop>(conn: Connection<S>) {
    drop(conn);
}

/// Gives the store this identity, and puts it into the file itself. Makes the tables of a store if the database has none.
fn identify(rt: &HostRuntime, path: &str, identity: u64) -> Result<(), ServiceError> {
    let conn = adopt(connect(rt, path, identity))?.release();
    put_log_back(identified(conn, identity))
}

/// Writes the identity of the store.
fn identified<S: Alter + Drop>(
    mut conn: Connection<S>,
    identity: u64,
) -> Result<Connection<S>, ServiceError> {
    match write_identity(&mut conn, identity) {
        Ok(()) => Ok(conn),
        Err(error) => {
            drop(conn);
            Err(fault(error))
        }
    }
}

fn write_identity<S: Alter>(conn: &mut Connection<S>, identity: u64) -> Result<(), Error> {
    let [high, low] = IDENTITY_KEYS;
    let halves = ((identity >> 32) as u32, (identity % (1 << 32)) as u32);
    conn.execute(
        "INSERT INTO meta (key, value) VALUES (?1, ?2), (?3, ?4)",
        params![high, halves.0, low, halves.1],
    )?;
    Ok(())
}

/// Makes the files of the database private.
fn private<K: Drop>(rt: &HostRuntime, path: &str, keeper: K) -> Result<K, ServiceError> {
    match make_private(rt, path) {
        Ok(()) => Ok(keeper),
        Err(error) => {
            drop(keeper);
            Err(error)
        }
    }
}

/// Takes a database over.
pub(crate) fn adopt<S: Alter + Drop>(
    conn: Result<Connection<S>, ServiceError>,
) -> Result<SqlKeeper<S>, ServiceError> {
    match SqlKeeper::adopt(conn?) {
        Ok(keeper) => Ok(keeper),
        Err((conn, error)) => {
            drop(conn);
            Err(ServiceError::of_tables(error))
        }
    }
}

/// Ends the keeper with which serving ended so. If its rows stand for no mailboxes, one of them is named.
pub(crate) fn end<S: Alter + Drop>(
    alloc: Global,
    keeper: SqlKeeper<S>,
    error: ServiceError,
) -> ServiceError {
    if !error.is_damage() {
        drop(keeper);
        return error;
    }
    error.with_row(keeper.into_damage(alloc))
}

/// Puts the log back into the database, and closes it.
pub(crate) fn close<D: Disk + Drop>(conn: Connection<FileStore<D>>) -> Result<(), ServiceError> {
    match conn.close() {
        Ok(()) => Ok(()),
        Err(error) => Err(fault(error)),
    }
}

/// Does the same if the database could be opened.
fn put_log_back<D: Disk + Drop>(
    conn: Result<Connection<FileStore<D>>, ServiceError>,
) -> Result<(), ServiceError> {
    match conn {
        Ok(conn) => close(conn),
        Err(error) => Err(error),
    }
}

/// Opens the database in the file. The salts of its logs are made of `seed`.
pub(crate) fn connect(
    rt: &HostRuntime,
    path: &str,
    seed: u64,
) -> Result<Connection<FileStore<File>>, ServiceError> {
    match sqlite_std_file::open(rt, path, Unknown) {
        Ok(files) => connect_files(rt.alloc(), files, options(seed)),
        Err(error) => Err(file_fault(error)),
    }
}

pub(crate) fn connect_files<D: Disk + Drop>(
    alloc: Global,
    files: Files<D>,
    options: Options,
) -> Result<Connection<FileStore<D>>, ServiceError>
    requires log { IsTrue (D.Disk.is_usable files.log) }
    requires database { IsTrue (D.Disk.is_usable files.db) }
{
    match Connection::open_files_with(alloc, files, options, true) {
        Ok(conn) => Ok(conn),
        Err((error, left)) => {
            drop(left);
            Err(fault(error))
        }
    }
}

/// How a database is opened. The salts of its logs are made of `seed`.
pub(crate) fn options(seed: u64) -> Options {
    Options {
        cache_pages: PAGES,
        spill_pages: PAGES,
        ..Options::new(seed)
    }
}

/// Returns a number that nobody can guess.
fn random_number(rt: &impl RandomSource) -> Result<u64, ServiceError> {
    match RandomState::new(rt) {
        Ok(state) => Ok(state.hash_one(&0u8)),
        Err(_) => Err(ServiceError::Store(StoreFault::CannotOpen)),
    }
}

/// Why the files of a database can't be opened.
fn file_fault(error: OpenError) -> ServiceError {
    match error {
        OpenError::OutOfMemory => ServiceError::Memory,
        OpenError::Busy => ServiceError::Store(StoreFault::InUse),
        OpenError::Io(error) if error.kind() == ErrorKind::OutOfMemory => ServiceError::Memory,
        OpenError::Io(_) | OpenError::HotJournal => ServiceError::Store(StoreFault::CannotOpen),
    }
}

/// Why a database can't be opened.
pub(crate) fn fault(error: Error) -> ServiceError {
    match error {
        Error::SqliteFailure(ErrorCode::OutOfMemory) => ServiceError::Memory,
        Error::SqliteFailure(ErrorCode::DatabaseBusy) => ServiceError::Store(StoreFault::InUse),
        Error::SqliteFailure(ErrorCode::NotADatabase | ErrorCode::DatabaseCorrupt) => {
            ServiceError::Store(StoreFault::NotADatabase)
        }
        Error::SqliteFailure(ErrorCode::CannotOpen) => ServiceError::Store(StoreFault::CannotOpen),
        Error::SqliteFailure(ErrorCode::DiskFull) => ServiceError::Store(StoreFault::Full),
        _ => ServiceError::Store(StoreFault::Disk),
    }
}
