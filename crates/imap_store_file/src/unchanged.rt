//! A store that is looked at, and stays as it is.
//!
//! `sqlite` opens a database for reading and writing, and makes its log if it has none. It writes nothing to a database
//! with the tables of a store, and only at its end puts a log back. All others are opened as copies in memory: in these
//! the tables of a store are made, or those of the first version are taken over.

ghost use Rattle.std.specs.Prelude.{IfOk, IsTrue};
ghost use Rattle.sqlite_disk.specs.Memory.{memory_is_usable};

use crate::pair::{Pair, look_at_pair};
use crate::store::{FileKeeper, adopt, connect, connect_files, options};
use crate::store_look::StoreLook;
use imap_options::LogLevel;
use imap_service::{MadeFiles, ServiceError, StoreFault, make_missing, remove_made, report_unread};
use imap_sql_keeper::SqlKeeper;
use sqlite::FileStore;
use sqlite_disk::{Disk, Files, Memory};
use std::alloc::{AllocError, Global};
use std::fs;
use std::io::{self, ErrorKind};

/// A store that is looked at.
pub(crate) enum Unchanged {
    /// In its file, beside which these were made.
    InFile(FileKeeper, MadeFiles),
    /// In a copy of its files.
    InMemory(SqlKeeper<FileStore<Memory>>),
}

/// Opens the store in the file, which stays as it is. `path` has no link in it.
pub(crate) fn open_unchanged(
    rt: &HostRuntime,
    path: &str,
    level: LogLevel,
) -> Result<Unchanged, ServiceError> {
    let pair = look_at_pair(rt, path)?;
    if let Some(log) = pair.log {
        report_unread(rt, level, log);
    }
    match pair.store {
        StoreLook::Nothing => Err(ServiceError::Store(StoreFault::NotADatabase)),
        _ if stays(&pair) => open_in_file(rt, path),
        _ => open_in_memory(rt, path),
    }
}

/// Whether `sqlite` writes nothing to the two when it opens them.
fn stays(pair: &Pair) -> bool {
    let is_store = matches!(
        pair.store,
        StoreLook::Database {
            has_tables: true,
            ..
        }
    );
    match pair.log {
        Some(log) => is_store && log.unread == 0 && log.length > 0,
        None => is_store,
    }
}

fn open_in_file(rt: &HostRuntime, path: &str) -> Result<Unchanged, ServiceError> {
    let made = make_missing(rt, path)?;
    match adopt(connect(rt, path, 0)) {
        Ok(keeper) => Ok(Unchanged::InFile(keeper, made)),
        Err(error) => {
            remove_made(rt, path, made)?;
            Err(error)
        }
    }
}

fn open_in_memory(rt: &HostRuntime, path: &str) -> Result<Unchanged, ServiceError> {
    let alloc = rt.alloc();
    let log = format!(in alloc; "{path}-wal")?;
    let log = memory_of(alloc, fs::read(rt, log.as_str()))?;
    let db = memory_of(alloc, fs::read(rt, path))?;
    let conn = connect_files(alloc, Files { log, db }, options(0));
    Ok(Unchanged::InMemory(adopt(conn)?))
}

/// Returns a file in memory with these octets, and one without an octet if there is no such file.
fn memory_of(alloc: Global, read: io::Result<Vec<u8>>) -> Result<Memory, ServiceError>
    ensures { IfOk result (λ file. IsTrue (memory_is_usable file)) }
{
    let octets = match read {
        Ok(octets) => octets,
        Err(error) if error.kind() == ErrorKind::NotFound => Vec::new(alloc),
        Err(error) if error.kind() == ErrorKind::OutOfMemory => return Err(ServiceError::Memory),
        Err(_) => return Err(ServiceError::Store(StoreFault::CannotOpen)),
    };
    let mut file = Memory::new(alloc);
    match file.write_at(0, octets.as_slice()) {
        Ok(()) => Ok(file),
        Err(_) => Err(ServiceError::from(AllocError)),
    }
}
