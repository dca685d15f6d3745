//! What the folders of a dump don't say, one fact a line.

use crate::uid_ranges::{UidRange, push_uids, read_uids};
use imap_mailbox::{Mailbox, Near};
use imap_maildir_names::{KeywordLetters, mailbox_folder, mailbox_name};
use imap_names::{Name, UserName};
use imap_syntax::Atom;
use imap_values::beside;
use imap_world::{MailboxEntry, World};
use std::alloc::{AllocError, Global};
use std::str;

/// How far the UIDs and mod-sequences of a mailbox had come.
#[derive(Clone, Copy)]
pub struct UidState {
    pub validity: u32,
    /// UIDNEXT.
    pub next: u32,
    /// The greatest HIGHESTMODSEQ that a user had.
    pub highest: u64,
}

/// A line of the file `state`.
#[derive(Drop)]
pub enum StateLine {
    /// The user subscribed to the name.
    Subscribed(UserName, Name),
    /// How far the mailbox had come.
    Uids(Name, UidState),
    /// The user, who isn't the owner of the mailbox, has seen these messages.
    Seen(UserName, Name, Vec<UidRange>),
    /// These messages of the mailbox have the keyword, which has no letter.
    Keyword(Atom, Name, Vec<UidRange>),
}

/// The users whom the file has: each who has an INBOX, which the server makes for all whom it serves.
fn users_of(alloc: Global, world: &World) -> Result<Vec<&UserName>, AllocError> {
    let mut users = Vec::new(alloc);
    for (name, _) in world.mailboxes().entries() {
        if name.is_inbox() {
            if let Some(owner) = name.owner() {
                users.push(owner)?;
            }
        }
    }
    Ok(users)
}

/// Returns the lines of the file `state` that are of users and mailboxes. Fields have tabs between them:
///
/// - `subscribed`, a user, and the folder of a mailbox to whose name the user subscribed;
/// - `mailbox`, a folder, UIDVALIDITY, UIDNEXT and the greatest HIGHESTMODSEQ that a user has there;
/// - `seen`, a user, the folder of a mailbox that isn't the user's, and the UIDs of messages that the user has seen.
pub(crate) fn state_lines(alloc: Global, world: &World) -> Result<Vec<u8>, AllocError> {
    let users = users_of(alloc, world)?;
    let mut lines = Vec::new(alloc);
    for user in users.as_slice() {
        push_subscriptions(&mut lines, alloc, world, user)?;
    }
    for (name, entry) in world.mailboxes().entries() {
        push_mailbox(&mut lines, alloc, name, entry, users.as_slice())?;
    }
    Ok(lines)
}

fn push_subscriptions(
    lines: &mut Vec<u8>,
    alloc: Global,
    world: &World,
    user: &UserName,
) -> Result<(), AllocError> {
    let Some(names) = world.subscriptions(user.as_str()) else {
        return Ok(());
    };
    for (name, _) in names.entries() {
        push_fields(lines, alloc, "subscribed", user.as_str(), name)?;
        lines.push(b'\n')?;
    }
    Ok(())
}

/// Appends the beginning of a line: its kind, a user or a keyword, and the folder of the name.
fn push_fields(
    lines: &mut Vec<u8>,
    alloc: Global,
    kind: &str,
    subject: &str,
    name: &Name,
) -> Result<(), AllocError> {
    let folder = mailbox_folder(alloc, ".", name)?;
    let text = format!(in alloc; "{kind}\t{subject}\t{folder}")?;
    lines.extend_from_slice(text.as_bytes())
}

fn push_mailbox(
    lines: &mut Vec<u8>,
    alloc: Global,
    name: &Name,
    entry: &MailboxEntry,
    users: &[&UserName],
) -> Result<(), AllocError> {
    let mailbox = entry.messages.as_ref();
    push_uid_state(lines, alloc, name, entry.validity, mailbox, users)?;
    for user in users {
        if mailbox.own_len(user.as_str()) != 0 && !is_owner(name, user) {
            push_seen(lines, alloc, name, mailbox, user)?;
        }
    }
    Ok(())
}

fn is_owner(name: &Name, user: &UserName) -> bool {
    match name.owner() {
        Some(owner) => owner.as_str() == user.as_str(),
        None => false,
    }
}

fn push_uid_state(
    lines: &mut Vec<u8>,
    alloc: Global,
    name: &Name,
    validity: u32,
    mailbox: &Mailbox,
    users: &[&UserName],
) -> Result<(), AllocError> {
    let folder = mailbox_folder(alloc, ".", name)?;
    let (next, highest) = (mailbox.next_uid(), greatest(mailbox, users));
    let text = format!(in alloc; "mailbox\t{folder}\t{validity}\t{next}\t{highest}\n")?;
    lines.extend_from_slice(text.as_bytes())
}

/// The greatest HIGHESTMODSEQ of a user.
fn greatest(mailbox: &Mailbox, users: &[&UserName]) -> u64 {
    let mut greatest = mailbox.highest("");
    for user in users {
        greatest = greatest.max(mailbox.highest(user.as_str()));
    }
    greatest
}

/// Appends the line of the messages that the user has seen, if there are some.
fn push_seen(
    lines: &mut Vec<u8>,
    alloc: Global,
    name: &Name,
    mailbox: &Mailbox,
    user: &UserName,
) -> Result<(), AllocError> {
    let seen = seen_uids(alloc, mailbox, user.as_str())?;
    if seen.is_empty() {
        return Ok(());
    }
    push_fields(lines, alloc, "seen", user.as_str(), name)?;
    push_last(lines, alloc, seen.as_slice())
}

/// Appends the last field of a line.
fn push_last(lines: &mut Vec<u8>, alloc: Global, uids: &[u32]) -> Result<(), AllocError> {
    lines.push(b'\t')?;
    push_uids(lines, alloc, uids)?;
    lines.push(b'\n')?;
    Ok(())
}

fn seen_uids(alloc: Global, mailbox: &Mailbox, user: &str) -> Result<Vec<u32>, AllocError> {
    let rows = mailbox.rows(user);
    let mut near = Near::start();
    let mut uids = Vec::new(alloc);
    for place in 0..rows.len() {
        let row = rows.get_near(place, &mut near);
        if row.seen {
            uids.push(row.uid)?;
        }
    }
    Ok(uids)
}

/// Appends a line for each keyword of a mailbox that has no letter: `keyword`, the keyword, the folder, and the UIDs of the
/// messages that have it.
pub(crate) fn push_unlettered(
    lines: &mut Vec<u8>,
    alloc: Global,
    name: &Name,
    mailbox: &Mailbox,
    letters: &KeywordLetters,
) -> Result<(), AllocError> {
    if !letters.are_all_used() {
        return Ok(());
    }
    let mut found = unlettered(alloc, mailbox, letters)?;
    found.as_mut_slice().sort_by(alloc, |one, other| one.0.as_slice().cmp(other.0.as_slice()))?;
    let mut last: Option<&Atom> = None;
    let mut uids = Vec::new(alloc);
    for (keyword, uid) in found.as_slice() {
        if !is_word(last, keyword) {
            push_keyword(lines, alloc, name, last, uids.as_slice())?;
            uids.clear();
            last = Some(keyword);
        }
        uids.push(*uid)?;
    }
    push_keyword(lines, alloc, name, last, uids.as_slice())
}

fn is_word(last: Option<&Atom>, keyword: &Atom) -> bool {
    match last {
        Some(last) => last.as_slice() == keyword.as_slice(),
        None => false,
    }
}

/// The keywords without a letter, each with the UID of a message that has it, in the order of UIDs.
fn unlettered<'a>(
    alloc: Global,
    mailbox: &'a Mailbox,
    letters: &KeywordLetters,
) -> Result<Vec<(&'a Atom, u32)>, AllocError> {
    let mut found = Vec::new(alloc);
    for message in mailbox.messages() {
        for keyword in message.flags.keywords.as_slice() {
            if !letters.contains(keyword) {
                found.push((keyword, message.uid))?;
            }
        }
    }
    Ok(found)
}

/// Appends the line of a keyword and the messages that have it.
fn push_keyword(
    lines: &mut Vec<u8>,
    alloc: Global,
    name: &Name,
    keyword: Option<&Atom>,
    uids: &[u32],
) -> Result<(), AllocError> {
    let Some(keyword) = keyword else {
        return Ok(());
    };
    match str::from_utf8(keyword.as_slice()) {
        Ok(word) => {
            push_fields(lines, alloc, "keyword", word, name)?;
            push_last(lines, alloc, uids)
        }
        Err(_) => Ok(()),
    }
}

/// Reads a line of the file `state`. Returns `None` if it has another form.
pub fn read_state_line(alloc: Global, line: &str) -> Result<Option<StateLine>, AllocError> {
    match line.split_once('\t') {
        Some(("subscribed", fields)) => read_subscribed(alloc, fields),
        Some(("mailbox", fields)) => read_uid_state(alloc, fields),
        Some(("seen", fields)) => read_seen(alloc, fields),
        Some(("keyword", fields)) => read_keyword(alloc, fields),
        _ => Ok(None),
    }
}

/// The mailbox of a folder.
fn read_folder(alloc: Global, folder: &str) -> Result<Option<Name>, AllocError> {
    mailbox_name(alloc, folder.trim_start_matches("./"))
}

fn read_subscribed(alloc: Global, fields: &str) -> Result<Option<StateLine>, AllocError> {
    let Some((user, folder)) = fields.split_once('\t') else {
        return Ok(None);
    };
    match read_user_and_name(alloc, user, folder)? {
        Some((user, name)) => Ok(Some(StateLine::Subscribed(user, name))),
        None => Ok(None),
    }
}

fn read_user_and_name(
    alloc: Global,
    user: &str,
    folder: &str,
) -> Result<Option<(UserName, Name)>, AllocError> {
    let Some(user) = UserName::read(alloc, user)? else {
        return Ok(None);
    };
    let (name, user) = beside(read_folder(alloc, folder), user)?;
    match name {
        Some(name) => Ok(Some((user, name))),
        None => Ok(None),
    }
}

fn read_uid_state(alloc: Global, fields: &str) -> Result<Option<StateLine>, AllocError> {
    let Some((folder, numbers)) = fields.split_once('\t') else {
        return Ok(None);
    };
    let Some(state) = read_numbers(numbers) else {
        return Ok(None);
    };
    match read_folder(alloc, folder)? {
        Some(name) => Ok(Some(StateLine::Uids(name, state))),
        None => Ok(None),
    }
}

fn read_numbers(fields: &str) -> Option<UidState> {
    let (validity, rest) = fields.split_once('\t')?;
    let (next, highest) = rest.split_once('\t')?;
    Some(UidState {
        validity: validity.parse().ok()?,
        next: next.parse().ok()?,
        highest: highest.parse().ok()?,
    })
}

fn read_seen(alloc: Global, fields: &str) -> Result<Option<StateLine>, AllocError> {
    let Some((user, rest)) = fields.split_once('\t') else {
        return Ok(None);
    };
    let Some((folder, uids)) = rest.split_once('\t') else {
        return Ok(None);
    };
    let Some(uids) = read_uids(alloc, uids)? else {
        return Ok(None);
    };
    let (read, uids) = beside(read_user_and_name(alloc, user, folder), uids)?;
    match read {
        Some((user, name)) => Ok(Some(StateLine::Seen(user, name, uids))),
        None => Ok(None),
    }
}

fn read_keyword(alloc: Global, fields: &str) -> Result<Option<StateLine>, AllocError> {
    let Some((word, rest)) = fields.split_once('\t') else {
        return Ok(None);
    };
    let Some((folder, uids)) = rest.split_once('\t') else {
        return Ok(None);
    };
    let Some(uids) = read_uids(alloc, uids)? else {
        return Ok(None);
    };
    let (read, uids) = beside(read_word_and_name(alloc, word, folder), uids)?;
    match read {
        Some((word, name)) => Ok(Some(StateLine::Keyword(word, name, uids))),
        None => Ok(None),
    }
}

fn read_word_and_name(
    alloc: Global,
    word: &str,
    folder: &str,
) -> Result<Option<(Atom, Name)>, AllocError> {
    let Some(word) = Atom::read(alloc, word.as_bytes())? else {
        return Ok(None);
    };
    let (name, word) = beside(read_folder(alloc, folder), word)?;
    match name {
        Some(name) => Ok(Some((word, name))),
        None => Ok(None),
    }
}
