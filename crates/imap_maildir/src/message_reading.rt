//! Messages that are read from files.

use crate::maildir_error::MaildirError;
use crate::message_files::MessageFile;
use crate::moments::{date_at, moment_of};
use imap_batch::NewMessage;
use imap_lex::Octets;
use imap_maildir_names::{LetteredKeyword, file_moment, is_own_file, message_flags};
use imap_syntax::{DateTime, has_nul};
use std::alloc::{AllocError, Global};
use std::fs;
use std::io::{self, ErrorKind};
use std::rt::Files;
use std::time::SystemTime;

/// The octets of a file, and the time of its last change.
#[derive(Drop)]
struct FileContent {
    octets: Vec<u8>,
    changed: SystemTime,
}

/// A message that was read.
#[derive(Drop)]
pub(crate) struct ReadMessage {
    pub(crate) message: NewMessage,
    /// Whether its file has NUL, which the message hasn't.
    pub(crate) had_nul: bool,
}

/// Reads a message. The file's own name has its flags, and its moment if `dump` wrote the file; else the time of the file's
/// last change is its internal date. Fails with `File` if the file can't be read, or if its year has over four digits.
pub(crate) fn read_message<R: Files + AllocGlobal>(
    rt: &R,
    file: &MessageFile,
    keywords: &[LetteredKeyword],
) -> Result<ReadMessage, MaildirError> {
    let content = match read_file(rt, file.path()) {
        Ok(content) => content,
        Err(error) => return Err(MaildirError::of_file(rt.alloc(), file.path(), error.kind())),
    };
    let Some(date) = date_of(file.name(), content.changed) else {
        return Err(MaildirError::of_file(rt.alloc(), file.path(), ErrorKind::InvalidData));
    };
    let flags = message_flags(rt.alloc(), file.name(), keywords)?;
    let had_nul = has_nul(content.octets.as_slice());
    let octets = octets_of(rt.alloc(), file.name(), content.octets)?;
    Ok(ReadMessage {
        message: NewMessage {
            date,
            octets,
            flags: flags.shared,
            seen: flags.seen,
        },
        had_nul,
    })
}

/// The internal date of a message by the name of its file, and else by the time of the file's last change.
fn date_of(name: &str, changed: SystemTime) -> Option<DateTime> {
    date_at(file_moment(name).unwrap_or(moment_of(changed)))
}

fn read_file<R: Files + AllocGlobal>(rt: &R, path: &str) -> io::Result<FileContent> {
    let found = fs::metadata(rt, path)?;
    // The read of a pipe may wait for ever.
    if !found.is_file() {
        return Err(io::Error::from(ErrorKind::InvalidInput));
    }
    let changed = found.modified()?;
    let octets = fs::read(rt, path)?;
    Ok(FileContent { octets, changed })
}

/// Returns the octets of a message. Lines of a file that this program wrote are taken as they are.
fn octets_of(alloc: Global, name: &str, octets: Vec<u8>) -> Result<Octets, AllocError> {
    let octets = without_nul(octets);
    if is_own_file(name) {
        Octets::from_vec(octets)
    } else {
        Octets::from_vec(with_line_ends(alloc, octets)?)
    }
}

/// Returns the octets with 0x80 in the place of each NUL.
pub fn without_nul(mut octets: Vec<u8>) -> Vec<u8> {
    for octet in octets.as_mut_slice() {
        if *octet == 0 {
            *octet = 0x80;
        }
    }
    octets
}

/// Returns the octets with CR before each LF that has none, as a message has them (RFC 5322, section 2.3).
pub fn with_line_ends(alloc: Global, octets: Vec<u8>) -> Result<Vec<u8>, AllocError> {
    let lone = count_lone(octets.as_slice());
    if lone == 0 {
        return Ok(octets);
    }
    let mut ended = Vec::new(alloc);
    let mut before = 0;
    for octet in octets.as_slice() {
        if *octet == b'\n' && before != b'\r' {
            ended.push(b'\r')?;
        }
        ended.push(*octet)?;
        before = *octet;
    }
    Ok(ended)
}

/// Returns how many LF have no CR before them.
fn count_lone(octets: &[u8]) -> usize {
    let mut lone: usize = 0;
    let mut before = 0;
    for octet in octets {
        if *octet == b'\n' && before != b'\r' {
            lone = lone.saturating_add(1);
        }
        before = *octet;
    }
    lone
}
