//! Why mailboxes aren't written or read.

use imap_world::WorldError;
use std::alloc::{AllocError, AllocFailed, Global};
use std::io;
use thiserror::Error;

/// Why mailboxes aren't written or read, or not all of them.
#[derive(Debug, Drop, Error)]
pub enum MaildirError {
    #[error("out of memory")]
    Memory,
    /// A file or a folder can't be made or read.
    #[error("{path}: {kind}")]
    File { path: String, kind: io::ErrorKind },
    /// A Maildir's path is that of no mailbox.
    #[error("{path}: no mailbox has a folder of this name")]
    Name { path: String },
    /// A line of the file of access control lists, counted from 1, is no entry of a mailbox's list.
    #[error("line {line} of the file acl: it is no entry of a mailbox's list")]
    List { line: usize },
    /// A line of the file of states, counted from 1, has another form.
    #[error("line {line} of the file state: it has another form")]
    State { line: usize },
    /// The mailbox of a folder can't be changed.
    #[error("{path}: {error}")]
    Change { path: String, error: WorldError },
    /// A message has NUL, which stands in no message of IMAP (RFC 9051, section 4.3.1).
    #[error("{path}: each NUL is replaced by the octet 0x80")]
    Nul { path: String },
    /// Another file of the folder has the UID of a file.
    #[error("{path}: another file here has its UID")]
    Twice { path: String },
    /// The store refused.
    #[error("the store refused")]
    Refused,
}

impl MaildirError {
    /// Whether nothing can be written or read after it.
    pub(crate) fn is_last(&self) -> bool {
        match self {
            MaildirError::Memory | MaildirError::Refused => true,
            MaildirError::File { kind, .. } => matches!(
                kind,
                io::ErrorKind::StorageFull
                    | io::ErrorKind::QuotaExceeded
                    | io::ErrorKind::ReadOnlyFilesystem
            ),
            _ => false,
        }
    }

    /// A message at the path has NUL.
    pub(crate) fn of_nul(alloc: Global, path: &str) -> MaildirError {
        match String::from_str(alloc, path) {
            Ok(path) => MaildirError::Nul { path },
            Err(_) => MaildirError::Memory,
        }
    }

    /// Another file has the UID of the file at the path.
    pub(crate) fn of_twice(alloc: Global, path: &str) -> MaildirError {
        match String::from_str(alloc, path) {
            Ok(path) => MaildirError::Twice { path },
            Err(_) => MaildirError::Memory,
        }
    }

    /// Why the file or folder at the path can't be made or read.
    pub(crate) fn of_file(alloc: Global, path: &str, kind: io::ErrorKind) -> MaildirError {
        if kind == io::ErrorKind::OutOfMemory {
            return MaildirError::Memory;
        }
        match String::from_str(alloc, path) {
            Ok(path) => MaildirError::File { path, kind },
            Err(_) => MaildirError::Memory,
        }
    }

    /// The path is that of no mailbox.
    pub(crate) fn of_name(alloc: Global, path: &str) -> MaildirError {
        match String::from_str(alloc, path) {
            Ok(path) => MaildirError::Name { path },
            Err(_) => MaildirError::Memory,
        }
    }

    /// Why the mailbox of the folder at the path can't be changed.
    pub(crate) fn of_change(alloc: Global, path: &str, error: WorldError) -> MaildirError {
        if error == WorldError::Memory {
            return MaildirError::Memory;
        }
        match String::from_str(alloc, path) {
            Ok(path) => MaildirError::Change { path, error },
            Err(_) => MaildirError::Memory,
        }
    }
}

impl From<AllocError> for MaildirError {
    fn from(_error: AllocError) -> MaildirError {
        MaildirError::Memory
    }
}

impl<T: Drop> From<AllocFailed<T>> for MaildirError {
    fn from(_error: AllocFailed<T>) -> MaildirError {
        MaildirError::Memory
    }
}
