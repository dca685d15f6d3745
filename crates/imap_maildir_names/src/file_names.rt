//! The file of a message.

use crate::keyword_letters::KeywordLetters;
use imap_mailbox::Row;
use std::alloc::{AllocError, Global};

/// Returns the path of a message's file in a mailbox's folder: `cur/UID.imapd,S=OCTETS,T=SECONDS:2,LETTERS`, where the
/// letters are those of its flags, as Maildir has them, and of its keywords. `moment` are the seconds from the beginning
/// of 1970 to its internal date, less than 0 before.
pub fn message_file(
    alloc: Global,
    folder: &str,
    row: &Row<'_>,
    moment: i64,
    keywords: &KeywordLetters,
) -> Result<String, AllocError> {
    let mut path = front(alloc, folder, row.uid, row.octets.as_slice().len())?;
    push_moment(alloc, &mut path, moment)?;
    push_letters(&mut path, row)?;
    keywords.push(&mut path, row.flags.keywords.as_slice())?;
    Ok(path)
}

fn front(alloc: Global, folder: &str, uid: u32, octets: usize) -> Result<String, AllocError> {
    format!(in alloc; "{folder}/cur/{uid}.imapd,S={octets}")
}

fn push_moment(alloc: Global, path: &mut String, moment: i64) -> Result<(), AllocError> {
    let text = format!(in alloc; ",T={moment}:2,")?;
    path.push_str(text.as_str())
}

/// Appends the letters of the flags, in the order of the alphabet.
fn push_letters(path: &mut String, row: &Row<'_>) -> Result<(), AllocError> {
    let letters = [
        (row.flags.draft, 'D'),
        (row.flags.flagged, 'F'),
        (row.flags.answered, 'R'),
        (row.seen, 'S'),
        (row.flags.deleted, 'T'),
    ];
    for (is_set, letter) in letters {
        if is_set {
            path.push(letter)?;
        }
    }
    Ok(())
}

/// Returns what [`message_file`] writes before the flags into the name of a file, and after the UID, if the name has its
/// form: `S=OCTETS`, and in later versions `,T=SECONDS`.
fn own_fields(name: &str) -> Option<&str> {
    let (uid, later) = name.split_once(".imapd,")?;
    if uid.is_empty() || !uid.bytes().all(|octet| octet.is_ascii_digit()) {
        return None;
    }
    match later.split_once(':') {
        Some((fields, _)) => Some(fields),
        None => Some(later),
    }
}

/// Whether this is the name of a file that [`message_file`] names.
pub fn is_own_file(name: &str) -> bool {
    own_fields(name).is_some()
}

/// Returns the moment that the name of a file has, in seconds from the beginning of 1970, or `None` if it has none or isn't
/// one that [`message_file`] writes.
pub fn file_moment(name: &str) -> Option<i64> {
    for field in own_fields(name)?.split(',') {
        if let Some(seconds) = field.strip_prefix("T=") {
            return seconds.parse::<i64>().ok();
        }
    }
    None
}
