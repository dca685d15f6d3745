//! How folders stand for mailboxes.

use imap_maildir_names::{mailbox_name, name_of_levels};
use imap_names::Name;
use std::alloc::{AllocError, Global};

/// How folders stand for mailboxes.
#[derive(Clone, Copy, PartialEq, Eq)]
pub enum Layout {
    /// As `dump` writes them, but that a user's folder is one of Maildir++ where it can't be another: if it has a `cur`, or
    /// folders whose names begin with a dot.
    Recognised,
    /// As `dump` writes them.
    Dump,
    /// The folder of each user, and that of the Shared tree, are as in Maildir++: it is the user's INBOX, and folders in it
    /// whose names begin with a dot are the other mailboxes.
    Maildirpp,
}

/// A folder in one of Maildir++.
#[derive(Clone, Copy)]
pub(crate) struct MaildirppFolder<'a> {
    /// The owner, as the name of the folder has it, or `None` for the Shared tree.
    owner: Option<&'a str>,
    /// The levels with dots between them, or `None` for the INBOX.
    levels: Option<&'a str>,
}

impl<'a> MaildirppFolder<'a> {
    /// Returns the folder of Maildir++ that has this path below the folder of all, or `None` if it is none.
    pub(crate) fn at(below: &'a str) -> Option<MaildirppFolder<'a>> {
        let (owner, levels) = match below.strip_prefix("Other Users/") {
            Some(rest) => match rest.split_once('/') {
                Some((owner, levels)) => (Some(owner), Some(levels)),
                None => (Some(rest), None),
            },
            None => (None, below.strip_prefix("Shared/")),
        };
        let Some(levels) = levels else {
            owner?;
            return Some(MaildirppFolder { owner, levels });
        };
        let levels = levels.strip_prefix('.')?;
        if levels.contains('/') {
            return None;
        }
        Some(MaildirppFolder {
            owner,
            levels: Some(levels),
        })
    }

    /// Returns its mailbox, or `None` if no mailbox has this name.
    fn name(&self, alloc: Global) -> Result<Option<Name>, AllocError> {
        name_of_levels(alloc, self.owner, self.levels.unwrap_or("INBOX"), '.')
    }
}

/// The mailbox of a folder.
#[derive(Drop)]
pub(crate) struct Found {
    /// `None` if no mailbox has a folder of this name.
    pub(crate) name: Option<Name>,
    /// Whether it was read as one of Maildir++.
    pub(crate) is_maildirpp: bool,
}

/// Returns the mailbox of the folder at this path below the folder of all.
pub(crate) fn find_name(alloc: Global, below: &str, layout: Layout) -> Result<Found, AllocError> {
    let folder = match layout {
        Layout::Dump => None,
        Layout::Recognised | Layout::Maildirpp => MaildirppFolder::at(below),
    };
    match folder {
        Some(folder) => Ok(Found {
            name: folder.name(alloc)?,
            is_maildirpp: true,
        }),
        None if layout == Layout::Maildirpp => Ok(Found {
            name: None,
            is_maildirpp: false,
        }),
        None => Ok(Found {
            name: mailbox_name(alloc, below)?,
            is_maildirpp: false,
        }),
    }
}
