//! Subscriptions, as other servers keep them beside a Maildir.

use crate::layouts::name_of_levels;
use imap_names::Name;
use std::alloc::{AllocError, Global};

/// Returns the names in a file `subscriptions` of Dovecot. After a first line `V<tab>2` each line has the levels of a name
/// with tabs between them, and without it with `/`, or with `.` if it has no `/`. Lines that name no mailbox are passed
/// over.
pub fn read_subscriptions(alloc: Global, owner: &str, text: &str) -> Result<Vec<Name>, AllocError> {
    let mut names = Vec::new(alloc);
    let mut has_tabs = false;
    for line in text.lines() {
        if line.starts_with("V\t") {
            has_tabs = true;
        } else {
            push_name(alloc, &mut names, owner, line, delimiter_of(line, has_tabs))?;
        }
    }
    Ok(names)
}

fn delimiter_of(line: &str, has_tabs: bool) -> char {
    if has_tabs {
        '\t'
    } else if line.contains('/') {
        '/'
    } else {
        '.'
    }
}

/// Returns the names in a file `courierimapsubscribed` of Courier: one a line, in modified UTF-7, below `INBOX.`.
pub fn read_courier_subscriptions(
    alloc: Global,
    owner: &str,
    text: &str,
) -> Result<Vec<Name>, AllocError> {
    let mut names = Vec::new(alloc);
    for line in text.lines() {
        let below = line.strip_prefix("INBOX.").unwrap_or(line);
        push_name(alloc, &mut names, owner, below, '.')?;
    }
    Ok(names)
}

fn push_name(
    alloc: Global,
    names: &mut Vec<Name>,
    owner: &str,
    levels: &str,
    delimiter: char,
) -> Result<(), AllocError> {
    if let Some(name) = name_of_levels(alloc, Some(owner), levels, delimiter)? {
        names.push(name)?;
    }
    Ok(())
}
