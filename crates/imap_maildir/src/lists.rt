//! Access control lists as a text.

use crate::faults::pass_over_failed;
use crate::kept_mailboxes::KeptMailboxes;
use crate::maildir_error::MaildirError;
use crate::progress::Progress;
use bitflags::Flags;
use imap_keeper::Keeper;
use imap_maildir_names::mailbox_name;
use imap_names::Name;
use imap_rights::{Acl, Entry, Identifier, IdentifierError, Rights, RightsChange, read_rights};
use imap_values::beside;
use imap_world::{Effect, World};
use std::alloc::{AllocError, Global};
use std::fs;
use std::io::ErrorKind;
use std::rt::Files;

/// Appends a line for each entry: the mailbox's folder, the identifier and the rights, with a tab between them. Of a list
/// without entries the line is the folder alone.
pub(crate) fn push_list(out: &mut Vec<u8>, folder: &str, acl: &Acl) -> Result<(), AllocError> {
    if acl.is_empty() {
        out.extend_from_slice(folder.as_bytes())?;
        out.push(b'\n')?;
        return Ok(());
    }
    for entry in acl.entries() {
        out.extend_from_slice(folder.as_bytes())?;
        out.push(b'\t')?;
        out.extend_from_slice(entry.identifier.as_bytes())?;
        out.push(b'\t')?;
        entry.rights.push_letters(out)?;
        out.push(b'\n')?;
    }
    Ok(())
}

/// The list that a mailbox has in a file `acl`.
#[derive(Drop)]
pub struct MailboxList {
    /// Its first line, counted from 1.
    pub line: usize,
    pub name: Name,
    pub entries: Vec<Entry>,
}

/// Reads the lists of a file `acl`. Lines of one mailbox that follow one another are one list. Fails with `List` if a line
/// has another form than `dump` writes.
pub fn read_lists(alloc: Global, text: &str) -> Result<Vec<MailboxList>, MaildirError> {
    let mut lists = Vec::new(alloc);
    for (before, line) in text.lines().enumerate() {
        let number = before.saturating_add(1);
        if !read_line(alloc, &mut lists, number, line)? {
            return Err(MaildirError::List { line: number });
        }
    }
    Ok(lists)
}

/// Appends what a line says. Returns false if it has another form.
fn read_line(
    alloc: Global,
    lists: &mut Vec<MailboxList>,
    number: usize,
    line: &str,
) -> Result<bool, AllocError> {
    let (path, entry) = match line.split_once('\t') {
        Some((path, entry)) => (path, Some(entry)),
        None => (line, None),
    };
    let Some(name) = mailbox_name(alloc, path.trim_start_matches("./"))? else {
        return Ok(false);
    };
    let list = list_of(alloc, lists, number, name)?;
    match entry {
        Some(entry) => read_entry(alloc, &mut list.entries, entry),
        None => Ok(true),
    }
}

/// Returns the last list if it is that of the mailbox, and else appends one.
fn list_of<'a>(
    alloc: Global,
    lists: &'a mut Vec<MailboxList>,
    line: usize,
    name: Name,
) -> Result<&'a mut MailboxList, AllocError> {
    let is_last = match lists.last() {
        Some(last) => last.name.is_same(&name),
        None => false,
    };
    if !is_last {
        let entries = Vec::new(alloc);
        lists.push(MailboxList {
            line,
            name,
            entries,
        })?;
    }
    lists.last_mut().ok_or(AllocError)
}

/// Appends the entry of an identifier and its rights, with a tab between them. Returns false if it is none.
fn read_entry(alloc: Global, entries: &mut Vec<Entry>, text: &str) -> Result<bool, AllocError> {
    let Some((identifier, letters)) = text.split_once('\t') else {
        return Ok(false);
    };
    let Some(RightsChange::Replace(rights)) = read_rights(letters.as_bytes()) else {
        return Ok(false);
    };
    match Identifier::read(alloc, identifier.as_bytes()) {
        Ok(identifier) => {
            entries.push(Entry { identifier, rights })?;
            Ok(true)
        }
        Err(IdentifierError::Memory) => Err(AllocError),
        Err(IdentifierError::Invalid) => Ok(false),
    }
}

/// Gives each mailbox of the folder's file `acl` the list that it has there. Changes nothing if there is no such file, or
/// if one of its lines has another form. Lists of mailboxes that are missing are passed over.
pub(crate) fn load_lists<R: Files + AllocGlobal, K: Keeper, P: Progress>(
    rt: &R,
    kept: &mut KeptMailboxes<K>,
    folder: &str,
    faults: &mut u64,
    progress: &mut P,
) -> Result<(), MaildirError> {
    let path = format!(in rt.alloc(); "{folder}/acl")?;
    match fs::read_to_string(rt, path.as_str()) {
        Ok(text) => set_lists(rt.alloc(), kept, text.as_str(), faults, progress),
        Err(error) => match error.kind() {
            ErrorKind::NotFound => Ok(()),
            kind => Err(MaildirError::of_file(rt.alloc(), path.as_str(), kind)),
        },
    }
}

/// Gives each mailbox of the lines the list that it has there.
fn set_lists<K: Keeper, P: Progress>(
    alloc: Global,
    kept: &mut KeptMailboxes<K>,
    text: &str,
    faults: &mut u64,
    progress: &mut P,
) -> Result<(), MaildirError> {
    let lists = read_lists(alloc, text)?;
    for list in &lists {
        let done = set_list(alloc, kept, list);
        pass_over_failed(progress, faults, done)?;
    }
    Ok(())
}

/// Gives a mailbox a list: removes the entries that it hasn't, then sets its own.
fn set_list<K: Keeper>(
    alloc: Global,
    kept: &mut KeptMailboxes<K>,
    list: &MailboxList,
) -> Result<(), MaildirError> {
    for identifier in &others(alloc, kept.world(), list)? {
        set_rights(alloc, kept, list, identifier, Rights::empty())?;
    }
    for entry in &list.entries {
        set_rights(alloc, kept, list, &entry.identifier, entry.rights)?;
    }
    Ok(())
}

/// Returns the identifiers of the mailbox's list that the other list doesn't have.
fn others(alloc: Global, world: &World, list: &MailboxList) -> Result<Vec<Identifier>, AllocError> {
    let mut others = Vec::new(alloc);
    if let Some(entry) = world.mailbox(&list.name.as_ref()) {
        for held in entry.acl.entries() {
            if !has_entry(list, held.identifier.as_bytes()) {
                others.push(held.identifier.try_copy(alloc)?)?;
            }
        }
    }
    Ok(others)
}

fn has_entry(list: &MailboxList, identifier: &[u8]) -> bool {
    for entry in &list.entries {
        if entry.identifier.as_bytes() == identifier {
            return true;
        }
    }
    false
}

fn set_rights<K: Keeper>(
    alloc: Global,
    kept: &mut KeptMailboxes<K>,
    list: &MailboxList,
    identifier: &Identifier,
    rights: Rights,
) -> Result<(), MaildirError> {
    let effect = replacing(alloc, &list.name, identifier, rights)?;
    match kept.make(alloc, effect) {
        Ok(()) => Ok(()),
        Err(fault) => Err(fault.of_line(list.line)),
    }
}

fn replacing(
    alloc: Global,
    name: &Name,
    identifier: &Identifier,
    rights: Rights,
) -> Result<Effect, AllocError> {
    let (name, identifier) = beside(name.try_copy(), identifier.try_copy(alloc)?)?;
    Ok(Effect::SetRights(name, identifier, RightsChange::Replace(rights)))
}
