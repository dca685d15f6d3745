//! Folders of Maildir++, the layout of Dovecot and Courier.

use imap_names::{Name, NameError, read_full};
use imap_utf7::decode;
use std::alloc::{AllocError, Global};

/// Returns the text of a level, which stands in modified UTF-7, or else in UTF-8.
fn push_level(alloc: Global, text: &mut String, level: &str) -> Result<(), AllocError> {
    text.push('/')?;
    match decode(alloc, level.as_bytes())? {
        Some(decoded) => text.push_str(decoded.as_str()),
        None => text.push_str(level),
    }
}

/// Returns the mailbox of a user, or of the Shared tree for `None`, whose levels stand in this text with `delimiter`
/// between them. Each is modified UTF-7, or else UTF-8. Returns `None` if no mailbox has this name.
pub fn name_of_levels(
    alloc: Global,
    owner: Option<&str>,
    levels: &str,
    delimiter: char,
) -> Result<Option<Name>, AllocError> {
    let mut text = match owner {
        Some(owner) => format!(in alloc; "Other Users/{owner}")?,
        None => String::from_str(alloc, "Shared")?,
    };
    for level in levels.split(delimiter) {
        push_level(alloc, &mut text, level)?;
    }
    match read_full(alloc, text.as_bytes()) {
        Ok(name) => Ok(Some(name)),
        Err(NameError::Memory) => Err(AllocError),
        Err(_) => Ok(None),
    }
}
