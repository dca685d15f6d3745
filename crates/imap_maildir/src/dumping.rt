//! Mailboxes written as folders of messages.

use crate::faults::{pass_over, pass_over_failed};
use crate::files::{make_file, make_folder, make_folders};
use crate::lists::push_list;
use crate::maildir_error::MaildirError;
use crate::moments::{seconds_of, time_of};
use crate::progress::Progress;
use crate::state_lines::{push_unlettered, state_lines};
use imap_mailbox::{Mailbox, Near, Row};
use imap_maildir_names::{KeywordLetters, mailbox_folder, message_file};
use imap_names::Name;
use imap_world::{MailboxEntry, World};
use std::alloc::Global;
use std::rt::Files;

/// The number of messages after which progress is told.
const STRIDE: u64 = 1_000;

/// The folders in a Maildir.
const PARTS: &[&str] = &["cur", "new", "tmp"];

/// How much was written.
#[derive(Clone, Copy)]
pub struct Dumped {
    pub mailboxes: u64,
    pub messages: u64,
    /// How many mailboxes, lists and messages couldn't be written.
    pub faults: u64,
}

impl Dumped {
    /// Counts a message that was written.
    fn count_message<P: Progress>(&mut self, progress: &mut P) {
        self.messages = self.messages.saturating_add(1);
        if self.messages % STRIDE == 0 {
            progress.done(self.messages);
        }
    }
}

/// What the files beside the folders of mailboxes say of them.
#[derive(Drop)]
struct Beside {
    /// The lines of the file `acl`.
    lists: Vec<u8>,
    /// Lines of the file `state`, of keywords that have no letter.
    keywords: Vec<u8>,
}

/// Writes all mailboxes below a folder, which is made: each as a folder by its name in full, with the folders `cur`, `new` and
/// `tmp`, each message as a file in `cur`, and its keywords in `dovecot-keywords`. `\Seen` is that of the mailbox's owner, and
/// of nobody in the Shared tree. The file `acl` has the access control lists of what was written; the file `state` all
/// subscriptions, how far UIDs and mod-sequences had come, others' `\Seen`, and keywords for which no letter is left. What
/// can't be written is left out: `progress` is told of it. Fails if the folder is there or can't be made, and once the disk is
/// full.
pub fn dump<R: Files + AllocGlobal, P: Progress>(
    rt: &R,
    world: &World,
    folder: &str,
    progress: &mut P,
) -> Result<Dumped, MaildirError> {
    make_folder(rt, folder)?;
    let mut beside = Beside {
        lists: Vec::new(rt.alloc()),
        keywords: Vec::new(rt.alloc()),
    };
    let mut dumped = Dumped {
        mailboxes: 0,
        messages: 0,
        faults: 0,
    };
    for (name, entry) in world.mailboxes().entries() {
        dump_mailbox(rt, folder, name, entry, &mut beside, &mut dumped, progress)?;
    }
    make_file_in(rt, folder, "acl", beside.lists.as_slice())?;
    dump_state(rt, folder, world, beside.keywords.as_slice())?;
    Ok(dumped)
}

/// Writes the file `state`, with these lines of keywords.
fn dump_state<R: Files + AllocGlobal>(
    rt: &R,
    folder: &str,
    world: &World,
    keywords: &[u8],
) -> Result<(), MaildirError> {
    let mut lines = state_lines(rt.alloc(), world)?;
    lines.extend_from_slice(keywords)?;
    make_file_in(rt, folder, "state", lines.as_slice())
}

/// Appends the access control list of a mailbox to the lines of the file `acl`.
fn push_mailbox(
    lists: &mut Vec<u8>,
    alloc: Global,
    name: &Name,
    entry: &MailboxEntry,
) -> Result<(), MaildirError> {
    let path = mailbox_folder(alloc, ".", name)?;
    push_list(lists, path.as_str(), &entry.acl)?;
    Ok(())
}

/// Makes a file with these octets in a folder.
fn make_file_in<R: Files + AllocGlobal>(
    rt: &R,
    folder: &str,
    file: &str,
    octets: &[u8],
) -> Result<(), MaildirError> {
    let path = format!(in rt.alloc(); "{folder}/{file}")?;
    make_file(rt, path.as_str(), octets, None)
}

/// Writes a mailbox. One whose folder can't be made is passed over.
fn dump_mailbox<R: Files + AllocGlobal, P: Progress>(
    rt: &R,
    below: &str,
    name: &Name,
    entry: &MailboxEntry,
    beside: &mut Beside,
    dumped: &mut Dumped,
    progress: &mut P,
) -> Result<(), MaildirError> {
    let folder = mailbox_folder(rt.alloc(), below, name)?;
    if let Err(error) = make_maildir(rt, folder.as_str()) {
        return pass_over(progress, &mut dumped.faults, error);
    }
    dumped.mailboxes = dumped.mailboxes.saturating_add(1);
    push_mailbox(&mut beside.lists, rt.alloc(), name, entry)?;
    let mailbox = entry.messages.as_ref();
    let keywords = dump_messages(
        rt,
        folder.as_str(),
        mailbox,
        owner_of(name),
        dumped,
        progress,
    )?;
    push_unlettered(&mut beside.keywords, rt.alloc(), name, mailbox, &keywords)?;
    let done = dump_keywords(rt, folder.as_str(), &keywords);
    drop(keywords);
    pass_over_failed(progress, &mut dumped.faults, done)
}

/// Makes the folders of a mailbox.
fn make_maildir<R: Files + AllocGlobal>(rt: &R, folder: &str) -> Result<(), MaildirError> {
    for part in PARTS {
        let path = format!(in rt.alloc(); "{folder}/{part}")?;
        make_folders(rt, path.as_str())?;
    }
    Ok(())
}

/// Returns the name of the mailbox's owner, and no text in the Shared tree.
fn owner_of(name: &Name) -> &str {
    match name.owner() {
        Some(owner) => owner.as_str(),
        None => "",
    }
}

/// Writes the file `dovecot-keywords` of a mailbox, if it has keywords.
fn dump_keywords<R: Files + AllocGlobal>(
    rt: &R,
    folder: &str,
    keywords: &KeywordLetters,
) -> Result<(), MaildirError> {
    let lines = keywords.lines()?;
    if lines.is_empty() {
        return Ok(());
    }
    make_file_in(rt, folder, "dovecot-keywords", lines.as_slice())
}

/// Writes the messages of a mailbox. Returns the letters of its keywords.
fn dump_messages<R: Files + AllocGlobal, P: Progress>(
    rt: &R,
    folder: &str,
    mailbox: &Mailbox,
    user: &str,
    dumped: &mut Dumped,
    progress: &mut P,
) -> Result<KeywordLetters, MaildirError> {
    let mut keywords = KeywordLetters::new(rt.alloc());
    let rows = mailbox.rows(user);
    let mut near = Near::start();
    for place in 0..rows.len() {
        let row = rows.get_near(place, &mut near);
        keywords.learn(row.flags.keywords.as_slice())?;
        match dump_message(rt, folder, &row, &keywords) {
            Ok(()) => dumped.count_message(progress),
            Err(error) => pass_over(progress, &mut dumped.faults, error)?,
        }
    }
    Ok(keywords)
}

fn dump_message<R: Files + AllocGlobal>(
    rt: &R,
    folder: &str,
    row: &Row<'_>,
    keywords: &KeywordLetters,
) -> Result<(), MaildirError> {
    let moment = seconds_of(row.date);
    let path = message_file(rt.alloc(), folder, row, moment, keywords)?;
    make_file(rt, path.as_str(), row.octets.as_slice(), time_of(moment))
}
