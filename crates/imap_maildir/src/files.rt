//! Folders and files that are made.

use crate::maildir_error::MaildirError;
use std::fs::{DirBuilder, FileTimes, OpenFile, OpenOptions};
use std::io::{self, Write};
use std::os::unix::fs::{DirBuilderExt, OpenOptionsExt};
use std::rt::Files;
use std::time::SystemTime;

/// Reading, writing and, of a folder, going into it, by the owner alone.
const OWNER_ALONE: u32 = 0o700;

const OWNERS_FILE: u32 = 0o600;

/// Makes a folder. Fails if it is there.
pub(crate) fn make_folder<R: Files + AllocGlobal>(rt: &R, path: &str) -> Result<(), MaildirError> {
    let mut builder = DirBuilder::new();
    builder.mode(OWNER_ALONE);
    match builder.create(rt, path) {
        Ok(()) => Ok(()),
        Err(error) => Err(MaildirError::of_file(rt.alloc(), path, error.kind())),
    }
}

/// Makes a folder, and those above it that are missing.
pub(crate) fn make_folders<R: Files + AllocGlobal>(rt: &R, path: &str) -> Result<(), MaildirError> {
    let mut builder = DirBuilder::new();
    builder.recursive(true).mode(OWNER_ALONE);
    match builder.create(rt, path) {
        Ok(()) => Ok(()),
        Err(error) => Err(MaildirError::of_file(rt.alloc(), path, error.kind())),
    }
}

/// Makes a file with these octets, and the time of its last change if there is one. Fails if it is there.
pub(crate) fn make_file<R: Files + AllocGlobal>(
    rt: &R,
    path: &str,
    octets: &[u8],
    changed: Option<SystemTime>,
) -> Result<(), MaildirError> {
    match write_new(rt, path, octets, changed) {
        Ok(()) => Ok(()),
        Err(error) => Err(MaildirError::of_file(rt.alloc(), path, error.kind())),
    }
}

fn write_new<R: Files>(
    rt: &R,
    path: &str,
    octets: &[u8],
    changed: Option<SystemTime>,
) -> io::Result<()> {
    let mut options = OpenOptions::new();
    options.write(true).create_new(true).mode(OWNERS_FILE);
    let mut file = options.open(rt, path)?;
    file.write_all(octets)?;
    match changed {
        Some(time) => file.set_times(FileTimes::new().set_modified(time)),
        None => Ok(()),
    }
}
