//! Files that their owner alone may read and write.

use crate::service_error::{ServiceError, StoreFault};
use std::alloc::AllocError;
use std::fs::{self, OpenOptions, Permissions};
use std::io;
use std::os::unix::fs::{OpenOptionsExt, PermissionsExt};
use std::rt::Files;

/// Reading and writing, by the owner alone.
pub(crate) const OWNER_ALONE: u32 = 0o600;

/// What stands beside a database: its log, and what other programs that read it share.
const BESIDE: [&str; 2] = ["-wal", "-shm"];

/// The files that were made of a database and its log.
#[derive(Clone, Copy)]
pub struct MadeFiles {
    has_database: bool,
    has_log: bool,
}

/// Makes a database and its log, without an octet, if they are missing: so they are their owner's from the first on.
/// Returns which were made.
pub fn make_missing<R: Files + AllocGlobal>(rt: &R, path: &str) -> Result<MadeFiles, ServiceError> {
    let log = log_of(rt, path)?;
    Ok(MadeFiles {
        has_database: is_made(rt, path),
        has_log: is_made(rt, log.as_str()),
    })
}

/// Removes those that were made.
pub fn remove_made<R: Files + AllocGlobal>(
    rt: &R,
    path: &str,
    made: MadeFiles,
) -> Result<(), ServiceError> {
    let log = log_of(rt, path)?;
    // What stays has no octet that counts.
    if made.has_log {
        let _removed = fs::remove_file(rt, log.as_str());
    }
    if made.has_database {
        let _removed = fs::remove_file(rt, path);
    }
    Ok(())
}

/// Cuts a log that was put back into its database, so that the next one begins anew.
pub fn cut_log<R: Files + AllocGlobal>(rt: &R, path: &str) -> Result<(), ServiceError> {
    let log = log_of(rt, path)?;
    let mut options = OpenOptions::new();
    options.write(true).truncate(true);
    match options.open(rt, log.as_str()) {
        Ok(_) => Ok(()),
        Err(error) => Err(fault_of(&error)),
    }
}

fn log_of<R: AllocGlobal>(rt: &R, path: &str) -> Result<String, AllocError> {
    format!(in rt.alloc(); "{path}{}", BESIDE[0])
}

/// Makes a file if it is missing. Returns whether it did. A fault shows when the database is opened.
fn is_made<R: Files>(rt: &R, path: &str) -> bool {
    let mut options = OpenOptions::new();
    options.write(true).create_new(true).mode(OWNER_ALONE);
    options.open(rt, path).is_ok()
}

/// Lets the owner alone read and write a database and the files beside it, as far as they are there.
pub fn make_private<R: Files + AllocGlobal>(rt: &R, path: &str) -> Result<(), ServiceError> {
    restrict(rt, path)?;
    for end in &BESIDE {
        let name = format!(in rt.alloc(); "{path}{end}")?;
        restrict(rt, name.as_str())?;
    }
    Ok(())
}

fn restrict<R: Files>(rt: &R, path: &str) -> Result<(), ServiceError> {
    match fs::set_permissions(rt, path, Permissions::from_mode(OWNER_ALONE)) {
        Ok(()) => Ok(()),
        Err(error) if error.kind() == io::ErrorKind::NotFound => Ok(()),
        Err(error) => Err(fault_of(&error)),
    }
}

fn fault_of(error: &io::Error) -> ServiceError {
    match error.kind() {
        io::ErrorKind::OutOfMemory => ServiceError::Memory,
        _ => ServiceError::Store(StoreFault::CannotOpen),
    }
}
