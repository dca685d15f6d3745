//! Files of secrets.

use std::alloc::AllocError;
use std::os::unix::fs::PermissionsExt;
use std::rt::Files;
use std::{fs, io};

/// The rights of others than its owner to read and write a file.
const OTHERS: u32 = 0o077;

/// How many octets a secret may have.
const MAX_SECRET: usize = 1024;

/// Why a secret isn't had.
#[derive(Clone, Copy)]
pub enum SecretFault {
    Memory,
    /// In words.
    Unread(&'static str),
}

impl From<AllocError> for SecretFault {
    fn from(_error: AllocError) -> SecretFault {
        SecretFault::Memory
    }
}

/// The files from which secrets are read.
pub trait SecretFiles {
    /// Returns the text of the file.
    fn read(&self, path: &str) -> Result<String, SecretFault>;
}

impl<R: Files + AllocGlobal + Eprint> SecretFiles for R {
    /// Tells standard error if others than its owner may read or write the file.
    fn read(&self, path: &str) -> Result<String, SecretFault> {
        match fs::read_to_string(self, path) {
            Ok(text) => {
                if is_open(self, path) {
                    let _said = eprintln!(self;
                        "imapd: secret file {path}: others than its owner may read or write it"
                    );
                }
                Ok(text)
            }
            Err(error) => match error.kind() {
                io::ErrorKind::OutOfMemory => Err(SecretFault::Memory),
                kind => Err(SecretFault::Unread(why_unread(kind))),
            },
        }
    }
}

/// Whether others than its owner may read or write the file.
fn is_open<R: Files>(rt: &R, path: &str) -> bool {
    match fs::metadata(rt, path) {
        Ok(metadata) => metadata.permissions().mode() & OTHERS != 0,
        Err(_) => false,
    }
}

/// Why a file can't be read, in words.
pub(crate) fn why_unread(kind: io::ErrorKind) -> &'static str {
    match kind {
        io::ErrorKind::NotFound => "there is no such file",
        io::ErrorKind::PermissionDenied => "the file may not be read",
        io::ErrorKind::InvalidData => "the file is no text in UTF-8",
        _ => "the file can't be read",
    }
}

/// Returns the first line of a file of a secret, without its line end. Returns `None` if it is no secret: if it is
/// empty, has NUL, or is longer than 1,024 octets.
pub fn first_line(text: &str) -> Option<&str> {
    let line = text.lines().next()?;
    if line.is_empty() || line.len() > MAX_SECRET || line.contains('\0') {
        return None;
    }
    Some(line)
}
