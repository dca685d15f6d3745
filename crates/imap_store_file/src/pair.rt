//! A database and its log, and whether they belong together.

use crate::salts::are_of_store;
use crate::store_look::{StoreLook, look_at_store};
use imap_service::{
    LogLook, ServiceError, StoreFault, look_at_log, report_service_error, report_store_fault,
};
use std::alloc::Global;
use std::io::ErrorKind;
use std::path::PathBuf;
use std::process::ExitCode;
use std::rt::Files;
use std::{fmt, fs};

/// What a database and its log say, each by itself.
#[derive(Clone, Copy)]
pub(crate) struct Pair {
    pub(crate) store: StoreLook,
    pub(crate) log: Option<LogLook>,
}

impl Pair {
    /// Whether the log has frames, or the end of some.
    fn has_frames(&self) -> bool {
        self.log.is_some_and(|log: LogLook| log.has_frames())
    }

    /// Whether the log has frames that are read when the database is opened.
    pub(crate) fn is_written(&self) -> bool {
        self.log.is_some_and(|log: LogLook| log.is_written)
    }

    /// Whether the log was begun over another store than the one with this identity.
    pub(crate) fn is_begun_elsewhere(&self, identity: u64) -> bool {
        match self.log.and_then(|log: LogLook| log.salts) {
            Some(salts) => !are_of_store(salts, identity),
            None => false,
        }
    }
}

/// Looks at a database and its log. Fails if they don't belong together, or the file is no database.
pub(crate) fn look_at_pair(rt: &HostRuntime, path: &str) -> Result<Pair, ServiceError> {
    let pair = Pair {
        store: look_at_store(rt, path)?,
        log: look_at_log(rt, path)?,
    };
    match fault_of_pair(&pair) {
        Some(fault) => Err(ServiceError::Store(fault)),
        None => Ok(pair),
    }
}

/// Why the two can't be opened together. Of a store without an identity nobody knows which log is its own.
fn fault_of_pair(pair: &Pair) -> Option<StoreFault> {
    match pair.store {
        StoreLook::Nothing => pair.has_frames().then_some(StoreFault::Lost),
        StoreLook::Foreign => Some(StoreFault::NotADatabase),
        StoreLook::Database { identity, .. } => {
            let is_stray = identity.is_some_and(|identity: u64| pair.is_begun_elsewhere(identity));
            (is_stray && pair.is_written()).then_some(StoreFault::StrayLog)
        }
    }
}

/// Returns the path of the database with no link in it. If nothing is there, it is the path itself.
pub(crate) fn real_path<R: Files + AllocGlobal>(
    rt: &R,
    path: &str,
) -> Result<PathBuf<Global>, ServiceError> {
    match fs::canonicalize(rt, path) {
        Ok(real) => Ok(real),
        Err(error) => match error.kind() {
            ErrorKind::NotFound => Ok(PathBuf::from(String::from_str(rt.alloc(), path)?)),
            ErrorKind::OutOfMemory => Err(ServiceError::Memory),
            _ => Err(ServiceError::Store(StoreFault::CannotOpen)),
        },
    }
}

/// A fault of a database and its log, in words that name both.
#[derive(Clone, Copy)]
struct PairFault<'a> {
    path: &'a str,
    is_lost: bool,
}

impl fmt::Display for PairFault<'_> {
    fn fmt<W: fmt::Write>(&self, f: &mut fmt::Formatter<W>) -> fmt::Result {
        let path = self.path;
        if self.is_lost {
            write!(
                f,
                "{path} is missing or empty, and {path}-wal has changes of it: put it back, or move the log away"
            )
        } else {
            write!(
                f,
                "{path}-wal is no log of {path}: put back the file that it belongs to, or move the log away"
            )
        }
    }
}

/// Tells standard error why the database at the path can't be used. Returns the exit status.
pub(crate) fn report_fault_at(rt: &impl Eprint, path: &str, error: ServiceError) -> ExitCode {
    let is_lost = match error {
        ServiceError::Store(StoreFault::Lost) => true,
        ServiceError::Store(StoreFault::StrayLog) => false,
        _ => return report_service_error(rt, error),
    };
    report_store_fault(rt, &PairFault { path, is_lost })
}
