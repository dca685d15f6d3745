//! The files of a Maildir's messages.

use crate::faults::pass_over;
use crate::folders::names_in;
use crate::maildir_error::MaildirError;
use crate::progress::Progress;
use imap_maildir_names::is_own_file;
use std::alloc::AllocError;
use std::io::ErrorKind;
use std::rt::Files;

/// The file of a message.
#[derive(Drop)]
pub(crate) struct MessageFile {
    path: String,
    /// The number with which its name begins: a UID, or the second in which it came. 0 if it begins with none.
    number: u64,
    /// Whether `dump` wrote it.
    is_own: bool,
}

impl MessageFile {
    pub(crate) fn path(&self) -> &str {
        self.path.as_str()
    }

    /// The UID that the message had, if `dump` wrote the file.
    pub(crate) fn uid(&self) -> Option<u32> {
        if self.is_own {
            u32::try_from(self.number).ok()
        } else {
            None
        }
    }

    /// The file's own name, without the folders above it.
    pub(crate) fn name(&self) -> &str {
        match self.path.as_str().rsplit_once('/') {
            Some((_, name)) => name,
            None => self.path.as_str(),
        }
    }
}

/// Returns the files in `new` and `cur` of the Maildir, first those that `dump` wrote, in the order of the numbers with which
/// their names begin, and of their paths. A folder that can't be read is passed over.
pub(crate) fn message_files<R: Files + AllocGlobal + Clone + Drop, P: Progress>(
    rt: &R,
    maildir: &str,
    faults: &mut u64,
    progress: &mut P,
) -> Result<Vec<MessageFile>, MaildirError> {
    let mut files = Vec::new(rt.alloc());
    for part in ["cur", "new"] {
        if let Err(error) = push_files(rt, maildir, part, &mut files, faults, progress) {
            pass_over_part(part, faults, progress, error)?;
        }
    }
    files
        .as_mut_slice()
        .sort_by_key(rt.alloc(), |file| (!file.is_own, file.number))?;
    Ok(files)
}

/// Passes over a folder that can't be read. A `new` may be missing.
fn pass_over_part<P: Progress>(
    part: &str,
    faults: &mut u64,
    progress: &mut P,
    error: MaildirError,
) -> Result<(), MaildirError> {
    let is_missing = matches!(
        &error,
        MaildirError::File {
            kind: ErrorKind::NotFound,
            ..
        }
    );
    if part == "new" && is_missing {
        drop(error);
        return Ok(());
    }
    pass_over(progress, faults, error)
}

/// Appends the files in a folder of the Maildir, but for those whose names begin with a dot.
fn push_files<R: Files + AllocGlobal + Clone + Drop, P: Progress>(
    rt: &R,
    maildir: &str,
    part: &str,
    files: &mut Vec<MessageFile>,
    faults: &mut u64,
    progress: &mut P,
) -> Result<(), MaildirError> {
    let folder = format!(in rt.alloc(); "{maildir}/{part}")?;
    let names = names_in(rt, folder.as_str(), faults, progress)?;
    for name in &names {
        if !name.starts_with('.') {
            push_file(rt, folder.as_str(), name.as_str(), files)?;
        }
    }
    Ok(())
}

fn push_file<R: AllocGlobal>(
    rt: &R,
    folder: &str,
    name: &str,
    files: &mut Vec<MessageFile>,
) -> Result<(), AllocError> {
    let path = format!(in rt.alloc(); "{folder}/{name}")?;
    let number = number_of(name);
    files.push(MessageFile {
        path,
        number,
        is_own: is_own_file(name),
    })?;
    Ok(())
}

/// Returns the number before the first dot. 0 if there is none.
fn number_of(name: &str) -> u64 {
    match name.split('.').next() {
        Some(front) => front.parse::<u64>().unwrap_or(0),
        None => 0,
    }
}
