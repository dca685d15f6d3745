//! Why serving ends.

use crate::store_table::StoreTable;
use imap_host::{OpenError, SeatError};
use imap_keeper::{Damage, KeepError, RowFault};
use imap_options::SocketPath;
use std::alloc::{AllocError, AllocFailed};
use std::io;
use thiserror::Error;

/// Why serving ended, or didn't begin.
#[derive(Clone, Copy, Debug, Error, PartialEq, Eq)]
pub enum ServiceError {
    #[error("standard output failed")]
    Output,
    #[error("no connection comes any more")]
    NoConnection,
    #[error("port {number}: {kind}")]
    Port {
        number: u16,
        kind: io::ErrorKind,
    },
    #[error("socket file {path}: {fault}")]
    SocketFile {
        path: SocketPath,
        fault: SocketFault,
    },
    /// The process may not open as many files as connections may need.
    #[error("{needed} open files are needed, and {allowed} are allowed (ulimit -n)")]
    Descriptors {
        needed: u64,
        allowed: u64,
    },
    #[error("out of memory")]
    Memory,
    #[error("{0}")]
    Store(StoreFault),
}

/// Why a socket file can't be had.
#[derive(Clone, Copy, Debug, Error, PartialEq, Eq)]
pub enum SocketFault {
    #[error("another program listens there")]
    InUse,
    #[error("a file is there that is no socket")]
    NoSocket,
    #[error("its folder is missing")]
    NoFolder,
    #[error("{0}")]
    Other(io::ErrorKind),
}

/// Why a store can't be used.
#[derive(Clone, Copy, Debug, Error, PartialEq, Eq)]
pub enum StoreFault {
    #[error("another program uses it")]
    InUse,
    #[error("there is no such file")]
    Missing,
    #[error("it is no database, or a damaged one")]
    NotADatabase,
    #[error("its folder is missing, or it may not be read and written")]
    CannotOpen,
    /// There is no file, or it has no octet, and its log has frames.
    #[error("it is missing or empty, and the log beside it is not")]
    Lost,
    /// The log was begun over another store.
    #[error("the log beside it is that of another store")]
    StrayLog,
    #[error("its disk is full")]
    Full,
    #[error("its disk failed")]
    Disk,
    #[error("it refused to be read or changed")]
    Refused,
    #[error("its tables are those of another program, or table meta has no row that says this version, \
        or an earlier one is damaged")]
    OtherTables,
    #[error("its rows stand for no mailboxes")]
    Damaged,
    /// One of its rows is damaged. `row` is the number by which SQL knows it, `rowid`.
    #[error("table {table}, row {row}: {fault}")]
    Row {
        table: StoreTable,
        row: i64,
        fault: RowFault,
    },
}

impl ServiceError {
    /// Why the tables of a database aren't taken over.
    pub fn of_tables(error: KeepError) -> ServiceError {
        match error {
            KeepError::Damaged => ServiceError::Store(StoreFault::OtherTables),
            _ => ServiceError::from(error),
        }
    }

    /// Whether rows of the store stand for no mailboxes, and none of them is named.
    pub fn is_damage(&self) -> bool {
        *self == ServiceError::Store(StoreFault::Damaged)
    }

    /// The same, with the row that is named.
    pub fn with_row(self, named: Option<Damage>) -> ServiceError {
        match named {
            Some(damage) => match StoreTable::named(damage.table) {
                Some(table) => ServiceError::Store(StoreFault::Row {
                    table,
                    row: damage.row,
                    fault: damage.fault,
                }),
                None => self,
            },
            None => self,
        }
    }
}

impl From<AllocError> for ServiceError {
    fn from(_error: AllocError) -> ServiceError {
        ServiceError::Memory
    }
}

impl<T: Drop> From<AllocFailed<T>> for ServiceError {
    fn from(_error: AllocFailed<T>) -> ServiceError {
        ServiceError::Memory
    }
}

impl From<KeepError> for ServiceError {
    fn from(error: KeepError) -> ServiceError {
        match error {
            KeepError::Memory => ServiceError::Memory,
            KeepError::Refused => ServiceError::Store(StoreFault::Refused),
            KeepError::Damaged => ServiceError::Store(StoreFault::Damaged),
        }
    }
}

impl From<OpenError> for ServiceError {
    fn from(error: OpenError) -> ServiceError {
        match error {
            OpenError::Memory => ServiceError::Memory,
            OpenError::Store => ServiceError::Store(StoreFault::Refused),
            OpenError::Damaged => ServiceError::Store(StoreFault::Damaged),
        }
    }
}

impl From<SeatError> for ServiceError {
    fn from(_error: SeatError) -> ServiceError {
        // A ledger has more parts than there are ports with all their seats.
        ServiceError::Memory
    }
}
