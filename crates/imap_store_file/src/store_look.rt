//! What the file of a store says by itself, without its log.

use crate::database_file::{DatabaseFile, SCHEMA_ROOT};
use imap_service::{ServiceError, StoreFault};
use sqlite_value::row::Row;
use sqlite_value::value::ValueRef;
use std::alloc::Global;
use std::fs::{self, File};
use std::io::{self, ErrorKind};

/// The keys of table `meta` under which the two halves of a store's identity stand, the greater half first.
pub(crate) const IDENTITY_KEYS: [&str; 2] = ["identity_high", "identity_low"];

/// A table that each store of this version has, and none of the first.
const STORE_TABLE: &[u8] = b"message2";

const META_TABLE: &[u8] = b"meta";

/// What a file says by itself.
#[derive(Clone, Copy)]
pub(crate) enum StoreLook {
    /// There is no file, or one without an octet.
    Nothing,
    /// It is no database.
    Foreign,
    /// It is a database. `identity` is that of its store.
    Database {
        has_tables: bool,
        identity: Option<u64>,
    },
}

impl StoreLook {
    /// The identity of the store, if it has one.
    pub(crate) fn identity(self) -> Option<u64> {
        match self {
            StoreLook::Database { identity, .. } => identity,
            StoreLook::Nothing | StoreLook::Foreign => None,
        }
    }
}

/// Looks at the file at the path. A page that is none of a table is for the database to refuse.
pub(crate) fn look_at_store(rt: &HostRuntime, path: &str) -> Result<StoreLook, ServiceError> {
    let file = match fs::open(rt, path) {
        Ok(file) => file,
        Err(error) if error.kind() == ErrorKind::NotFound => return Ok(StoreLook::Nothing),
        Err(error) => return Err(fault(error)),
    };
    look_at_file(rt.alloc(), file)
}

fn look_at_file(alloc: Global, file: File) -> Result<StoreLook, ServiceError> {
    match file.metadata() {
        Ok(found) if found.len() == 0 => return Ok(StoreLook::Nothing),
        Ok(_) => {}
        Err(error) => return Err(fault(error)),
    }
    match DatabaseFile::read(file) {
        Ok(Some(database)) => look_at_database(alloc, &database),
        Ok(None) => Ok(StoreLook::Foreign),
        Err(error) => Err(fault(error)),
    }
}

fn look_at_database(alloc: Global, database: &DatabaseFile) -> Result<StoreLook, ServiceError> {
    let tables = rows_or_none(alloc, database, SCHEMA_ROOT)?;
    let identity = match root_of(tables.as_slice(), META_TABLE) {
        Some(root) => identity_in(rows_or_none(alloc, database, root)?.as_slice()),
        None => None,
    };
    Ok(StoreLook::Database {
        has_tables: root_of(tables.as_slice(), STORE_TABLE).is_some(),
        identity,
    })
}

/// Returns the rows of a table, and none if one of its pages is none of a table.
fn rows_or_none(
    alloc: Global,
    database: &DatabaseFile,
    root: u32,
) -> Result<Vec<Row>, ServiceError> {
    match database.rows(alloc, root) {
        Ok(rows) => Ok(rows),
        Err(error) if error.kind() == ErrorKind::InvalidData => Ok(Vec::new(alloc)),
        Err(error) => Err(fault(error)),
    }
}

/// Returns the root of the table with this name, by the rows of the table that lists all: kind, name, table, root, text.
fn root_of(tables: &[Row], name: &[u8]) -> Option<u32> {
    for row in tables {
        let is_named = matches!(row.get(0), ValueRef::Text(b"table"))
            && matches!(row.get(1), ValueRef::Text(found) if found == name);
        if let (true, ValueRef::Int(root)) = (is_named, row.get(3)) {
            return u32::try_from(root).ok();
        }
    }
    None
}

/// Returns the identity in the rows of table `meta`: key and value.
fn identity_in(rows: &[Row]) -> Option<u64> {
    let [high, low] = IDENTITY_KEYS;
    let high = number_in(rows, high)?;
    let low = number_in(rows, low)?;
    Some(u64::from(high) << 32 | u64::from(low))
}

fn number_in(rows: &[Row], key: &str) -> Option<u32> {
    for row in rows {
        let is_named = matches!(row.get(0), ValueRef::Text(found) if found == key.as_bytes());
        if let (true, ValueRef::Int(number)) = (is_named, row.get(1)) {
            return u32::try_from(number).ok();
        }
    }
    None
}

fn fault(error: io::Error) -> ServiceError {
    match error.kind() {
        ErrorKind::OutOfMemory => ServiceError::Memory,
        _ => ServiceError::Store(StoreFault::CannotOpen),
    }
}
