//! Folders that are read.

use crate::faults::pass_over;
use crate::maildir_error::MaildirError;
use crate::progress::Progress;
use std::alloc::Global;
use std::fs::{self, DirEntry};
use std::io::{self, ErrorKind};
use std::rt::Files;

/// How many folders are looked at.
const MAX_FOLDERS: usize = 1_000_000;

/// Returns the names of what is in the folder, in the order of their octets. Names that aren't UTF-8 are passed over. Fails
/// with `File` if the folder can't be read.
pub(crate) fn names_in<R: Files + AllocGlobal + Clone + Drop, P: Progress>(
    rt: &R,
    path: &str,
    faults: &mut u64,
    progress: &mut P,
) -> Result<Vec<String>, MaildirError> {
    let entries = match fs::read_dir(rt, path) {
        Ok(entries) => entries,
        Err(error) => return Err(MaildirError::of_file(rt.alloc(), path, error.kind())),
    };
    let mut names = Vec::new(rt.alloc());
    for entry in entries {
        if let Err(kind) = push_name(&mut names, rt.alloc(), entry) {
            pass_over(
                progress,
                faults,
                MaildirError::of_file(rt.alloc(), path, kind),
            )?;
        }
    }
    names.sort_unstable();
    Ok(names)
}

/// Appends the name of what was found in a folder.
fn push_name<R: Files + Drop>(
    names: &mut Vec<String>,
    alloc: Global,
    entry: io::Result<DirEntry<R>>,
) -> Result<(), ErrorKind> {
    match entry {
        Ok(entry) => push_text(names, alloc, entry.file_name()),
        Err(error) => Err(error.kind()),
    }
}

fn push_text(names: &mut Vec<String>, alloc: Global, name: &str) -> Result<(), ErrorKind> {
    let Ok(name) = String::from_str(alloc, name) else {
        return Err(ErrorKind::OutOfMemory);
    };
    match names.push(name) {
        Ok(()) => Ok(()),
        Err(_) => Err(ErrorKind::OutOfMemory),
    }
}

/// Returns whether a folder is at the path, or what a link there leads to is one.
fn is_folder<R: Files + AllocGlobal>(rt: &R, path: &str) -> Result<bool, MaildirError> {
    match fs::metadata(rt, path) {
        Ok(found) => Ok(found.is_dir()),
        Err(error) => Err(MaildirError::of_file(rt.alloc(), path, error.kind())),
    }
}

/// Returns the paths of the Maildirs in a folder and in those below it, in the order of their octets: of all folders that
/// have a `cur`. Folders that can't be read are passed over. Fails with `File` if the first can't be read, or if there are
/// more than a million.
pub(crate) fn find_maildirs<R: Files + AllocGlobal + Clone + Drop, P: Progress>(
    rt: &R,
    folder: &str,
    faults: &mut u64,
    progress: &mut P,
) -> Result<Vec<String>, MaildirError> {
    let mut left = Vec::new(rt.alloc());
    let mut found = Vec::new(rt.alloc());
    if let Err(error) = fs::read_dir(rt, folder) {
        return Err(MaildirError::of_file(rt.alloc(), folder, error.kind()));
    }
    let top = String::from_str(rt.alloc(), folder)?;
    left.push(top)?;
    for _ in 0..MAX_FOLDERS {
        match left.pop() {
            Some(path) => look_into(rt, path, &mut left, &mut found, faults, progress)?,
            None => {
                found.sort_unstable();
                return Ok(found);
            }
        }
    }
    Err(MaildirError::of_file(rt.alloc(), folder, ErrorKind::QuotaExceeded))
}

/// Appends the folder to `found` if it is a Maildir, and the folders in it to `left`.
fn look_into<R: Files + AllocGlobal + Clone + Drop, P: Progress>(
    rt: &R,
    path: String,
    left: &mut Vec<String>,
    found: &mut Vec<String>,
    faults: &mut u64,
    progress: &mut P,
) -> Result<(), MaildirError> {
    match names_in(rt, path.as_str(), faults, progress) {
        Ok(names) => {
            if push_folders(rt, path.as_str(), &names, left, faults, progress)? {
                found.push(path)?;
            }
            Ok(())
        }
        Err(error) => pass_over(progress, faults, error),
    }
}

/// Appends the paths of the folders among what has these names in the folder. Returns whether a `cur` is there.
fn push_folders<R: Files + AllocGlobal, P: Progress>(
    rt: &R,
    folder: &str,
    names: &[String],
    folders: &mut Vec<String>,
    faults: &mut u64,
    progress: &mut P,
) -> Result<bool, MaildirError> {
    let mut is_maildir = false;
    for name in names {
        match name.as_str() {
            "cur" => is_maildir = true,
            "new" | "tmp" => {}
            name => {
                if let Err(error) = push_folder(rt, folder, name, folders) {
                    pass_over(progress, faults, error)?;
                }
            }
        }
    }
    Ok(is_maildir)
}

/// Appends the path of what has this name in the folder, if it is a folder.
fn push_folder<R: Files + AllocGlobal>(
    rt: &R,
    folder: &str,
    name: &str,
    folders: &mut Vec<String>,
) -> Result<(), MaildirError> {
    let path = format!(in rt.alloc(); "{folder}/{name}")?;
    if is_folder(rt, path.as_str())? {
        folders.push(path)?;
    }
    Ok(())
}
