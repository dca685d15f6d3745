//! Mailboxes read from folders of messages.

use crate::faults::pass_over;
use crate::folders::find_maildirs;
use crate::kept_mailboxes::KeptMailboxes;
use crate::kept_uids::wanted_validity;
use crate::layout::{Found, Layout, find_name};
use crate::lists::load_lists;
use crate::mailbox_loading::load_messages;
use crate::maildir_error::MaildirError;
use crate::progress::Progress;
use crate::reading::Goal;
use crate::states::States;
use crate::subscribing::load_subscriptions;
use crate::uid_pairs::{LoadedUids, UidEntries};
use imap_keeper::Keeper;
use imap_names::{Name, UserName};
use imap_values::beside;
use imap_world::Effect;
use std::alloc::{AllocError, Global};
use std::rt::Files;

/// How much was read.
#[derive(Clone, Copy)]
pub struct Loaded {
    pub mailboxes: u64,
    /// How many messages were added.
    pub added: u64,
    /// How many were there already.
    pub met: u64,
    /// How many files, folders and lines were passed over, or read with a change.
    pub faults: u64,
}

impl Loaded {
    /// Counts a message that was read.
    pub(crate) fn count_met(&mut self, is_met: bool) {
        if is_met {
            self.met = self.met.saturating_add(1);
        }
    }
}

/// A Maildir, and the mailbox that it is.
#[derive(Drop)]
struct Maildir {
    path: String,
    name: Name,
    /// Whether it is one of Maildir++.
    is_maildirpp: bool,
}

/// Reads all mailboxes below a folder, as [`dump`](crate::dump) or Maildir++ has them: each Maildir there is the mailbox of
/// its path, with its messages, their flags and moments, the lists of the file `acl`, and what the file `state` says. A mailbox
/// that is missing is made, and keeps UIDVALIDITY and UIDs if the file has them, and mod-sequences that are greater than all
/// of before; in the Shared tree the administrator owns it. A message that a mailbox has, with these octets and this moment, isn't
/// added again, so that a load that was ended may be begun once more. Each change is saved before the next is begun. Lines
/// end with CRLF afterwards, but in files that `dump` wrote, which are taken as they are. What can't be read is passed over:
/// `progress` is told of it. Fails if the folder can't be read, a line of `acl` has another form, or the store refuses.
pub fn load<R: Files + AllocGlobal + Clone + Drop, K: Keeper, P: Progress>(
    rt: &R,
    kept: &mut KeptMailboxes<K>,
    administrator: &UserName,
    folder: &str,
    layout: Layout,
    progress: &mut P,
) -> Result<Loaded, MaildirError> {
    let mut loaded = Loaded {
        mailboxes: 0,
        added: 0,
        met: 0,
        faults: 0,
    };
    let faults = &mut loaded.faults;
    let states = States::read(rt, folder, faults, progress)?;
    let found = named_maildirs(rt, folder, layout, faults, progress)?;
    let maildirs = made_maildirs(
        rt.alloc(),
        kept,
        administrator,
        &states,
        found,
        faults,
        progress,
    )?;
    let folders = user_folders(rt.alloc(), maildirs.as_slice())?;
    for folder in &folders {
        progress.found_maildirpp(folder.path);
    }
    load_lists(rt, kept, folder, faults, progress)?;
    let uids = load_all_messages(
        rt,
        kept,
        administrator,
        &states,
        maildirs.as_slice(),
        &mut loaded,
        progress,
    )?;
    for folder in &folders {
        load_subscriptions(
            rt,
            kept,
            folder.path,
            folder.owner,
            &mut loaded.faults,
            progress,
        )?;
    }
    states.load(
        rt.alloc(),
        kept,
        administrator,
        &uids,
        &mut loaded.faults,
        progress,
    )?;
    Ok(loaded)
}

/// Adds the messages of all Maildirs. Returns the UIDs that they had and have.
fn load_all_messages<R: Files + AllocGlobal + Clone + Drop, K: Keeper, P: Progress>(
    rt: &R,
    kept: &mut KeptMailboxes<K>,
    administrator: &UserName,
    states: &States,
    maildirs: &[Maildir],
    loaded: &mut Loaded,
    progress: &mut P,
) -> Result<LoadedUids, MaildirError> {
    let mut entries = UidEntries::new(rt.alloc());
    for maildir in maildirs {
        let name = &maildir.name;
        let goal = Goal {
            path: maildir.path.as_str(),
            name,
            user: name.owner().unwrap_or(administrator),
        };
        let state = states.uids(&name.as_ref());
        let pairs = load_messages(rt, kept, goal, state, loaded, progress)?;
        let (name, pairs) = beside(name.try_copy(), pairs)?;
        entries.push(name, pairs)?;
        loaded.mailboxes = loaded.mailboxes.saturating_add(1);
    }
    Ok(entries.into_map(rt.alloc()))
}

/// A user's folder in Maildir++.
#[derive(Clone, Copy)]
struct UserFolder<'a> {
    path: &'a str,
    owner: &'a UserName,
}

/// Returns the folders of the users whose mailboxes are Maildirs of Maildir++, in the order of their paths. That of a user may
/// have no `cur`, and then is no mailbox.
fn user_folders(alloc: Global, maildirs: &[Maildir]) -> Result<Vec<UserFolder<'_>>, AllocError> {
    let mut folders = Vec::new(alloc);
    for maildir in maildirs {
        if maildir.is_maildirpp {
            if let Some(owner) = maildir.name.owner() {
                let path = user_path(maildir);
                folders.push(UserFolder { path, owner })?;
            }
        }
    }
    folders
        .as_mut_slice()
        .sort_unstable_by(|one, other| one.path.cmp(other.path));
    folders.dedup_by(|one, other| one.path == other.path);
    Ok(folders)
}

/// The path of the user's folder: an INBOX is the folder itself.
fn user_path(maildir: &Maildir) -> &str {
    let path = maildir.path.as_str();
    if maildir.name.is_inbox() {
        return path;
    }
    match path.rsplit_once('/') {
        Some((folder, _)) => folder,
        None => path,
    }
}

/// Finds the Maildirs below the folder. Those of no mailbox are passed over.
fn named_maildirs<R: Files + AllocGlobal + Clone + Drop, P: Progress>(
    rt: &R,
    folder: &str,
    layout: Layout,
    faults: &mut u64,
    progress: &mut P,
) -> Result<Vec<Maildir>, MaildirError> {
    let mut maildirs = Vec::new(rt.alloc());
    for path in find_maildirs(rt, folder, faults, progress)? {
        let found = find_name(rt.alloc(), below(folder, path.as_str()), layout)?;
        match named(path, found) {
            Ok(maildir) => maildirs.push(maildir)?,
            Err(error) => pass_over(progress, faults, error)?,
        }
    }
    Ok(maildirs)
}

/// The rest of a path below the folder.
fn below<'a>(folder: &str, path: &'a str) -> &'a str {
    path.strip_prefix(folder)
        .unwrap_or("")
        .trim_start_matches('/')
}

fn named(path: String, found: Found) -> Result<Maildir, MaildirError> {
    let Found { name, is_maildirpp } = found;
    match name {
        Some(name) => Ok(Maildir {
            path,
            name,
            is_maildirpp,
        }),
        None => Err(MaildirError::Name { path }),
    }
}

/// Makes the mailboxes of Maildirs that are missing, and returns the Maildirs. One whose mailbox can't be made is passed
/// over.
fn made_maildirs<K: Keeper, P: Progress>(
    alloc: Global,
    kept: &mut KeptMailboxes<K>,
    administrator: &UserName,
    states: &States,
    found: Vec<Maildir>,
    faults: &mut u64,
    progress: &mut P,
) -> Result<Vec<Maildir>, MaildirError> {
    let mut made = Vec::new(alloc);
    for maildir in found {
        match make_missing(alloc, kept, administrator, states, &maildir) {
            Ok(()) => made.push(maildir)?,
            Err(error) => pass_over(progress, faults, error)?,
        }
    }
    Ok(made)
}

/// Makes the mailbox of a Maildir if it is missing, with the UIDVALIDITY that it had, if that can be.
fn make_missing<K: Keeper>(
    alloc: Global,
    kept: &mut KeptMailboxes<K>,
    administrator: &UserName,
    states: &States,
    maildir: &Maildir,
) -> Result<(), MaildirError> {
    let name = &maildir.name;
    if kept.world().mailbox(&name.as_ref()).is_some() {
        return Ok(());
    }
    let wanted = wanted_validity(states.uids(&name.as_ref()));
    let first = kept.world().next_validity(&name.as_ref()).unwrap_or(wanted);
    if !name.is_inbox() {
        // No UIDVALIDITY is given twice under a name: those before are used up.
        for _ in first..wanted {
            let effect = creation(administrator, name)?;
            change(alloc, kept, maildir, effect)?;
            let effect = Effect::Delete(name.try_copy()?);
            change(alloc, kept, maildir, effect)?;
        }
    }
    let effect = creation(administrator, name)?;
    change(alloc, kept, maildir, effect)
}

fn creation(administrator: &UserName, name: &Name) -> Result<Effect, AllocError> {
    let owner = name.owner().unwrap_or(administrator).try_copy()?;
    if name.is_inbox() {
        Ok(Effect::CreateInbox(owner))
    } else {
        Ok(Effect::Create(owner, name.try_copy()?))
    }
}

fn change<K: Keeper>(
    alloc: Global,
    kept: &mut KeptMailboxes<K>,
    maildir: &Maildir,
    effect: Effect,
) -> Result<(), MaildirError> {
    match kept.make(alloc, effect) {
        Ok(()) => Ok(()),
        Err(fault) => Err(fault.of_folder(alloc, maildir.path.as_str())),
    }
}
