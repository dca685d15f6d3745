//! The files of a Maildir, read one after another.

use crate::faults::pass_over;
use crate::held_messages::HeldMessages;
use crate::kept_mailboxes::KeptMailboxes;
use crate::kept_uids::KeptUids;
use crate::maildir_error::MaildirError;
use crate::message_files::MessageFile;
use crate::message_reading::read_message;
use crate::pending::Pending;
use crate::progress::Progress;
use crate::state_lines::UidState;
use crate::uid_pairs::UidPair;
use imap_batch::NewMessage;
use imap_keeper::Keeper;
use imap_maildir_names::{LetteredKeyword, read_keywords};
use imap_names::{Name, UserName};
use imap_values::beside;
use std::alloc::{AllocError, Global};
use std::fs;
use std::io::ErrorKind;
use std::rt::Files;

/// Where the messages of a Maildir go.
#[derive(Clone, Copy)]
pub(crate) struct Goal<'a> {
    /// The Maildir's path.
    pub(crate) path: &'a str,
    /// The mailbox.
    pub(crate) name: &'a Name,
    /// Its owner, and the administrator in the Shared tree.
    pub(crate) user: &'a UserName,
}

/// Where a message of a file stands.
#[derive(Clone, Copy)]
pub(crate) enum Turn {
    /// It keeps its UID, which the mailbox has given before.
    There(u32),
    /// It keeps its UID, which the mailbox hasn't given yet.
    Comes(u32),
    /// It gets any UID.
    Free,
}

/// What is known while the files of a Maildir are read.
#[derive(Drop)]
pub(crate) struct Reading {
    keywords: Vec<LetteredKeyword>,
    held: HeldMessages,
    /// The messages that the mailbox hasn't, and that wait to be saved.
    pub(crate) pending: Pending,
    /// UIDs that are kept, if they are.
    keeps: Option<KeptUids>,
    /// Whether a message was added whose UID is kept.
    has_added: bool,
    pairs: Vec<UidPair>,
}

impl Reading {
    /// Begins to read the files of a Maildir. Keywords that can't be read are passed over. UIDs are kept as far as `state`
    /// says, if the mailbox has its UIDVALIDITY.
    pub(crate) fn begin<R: Files + AllocGlobal, K: Keeper, P: Progress>(
        rt: &R,
        kept: &KeptMailboxes<K>,
        goal: Goal<'_>,
        state: Option<UidState>,
        faults: &mut u64,
        progress: &mut P,
    ) -> Result<Reading, MaildirError> {
        let keywords = match keywords_of(rt, goal.path) {
            Ok(keywords) => keywords,
            Err(error) => {
                pass_over(progress, faults, error)?;
                Vec::new(rt.alloc())
            }
        };
        let (held, keywords) = beside(held_in(rt.alloc(), kept, goal.name), keywords)?;
        Ok(Reading {
            keywords,
            held,
            pending: Pending::new(rt.alloc()),
            keeps: kept_uids(rt.alloc(), kept, goal.name, state),
            has_added: false,
            pairs: Vec::new(rt.alloc()),
        })
    }

    /// Reads the message in a file.
    pub(crate) fn read<R: Files + AllocGlobal, P: Progress>(
        &self,
        rt: &R,
        file: &MessageFile,
        faults: &mut u64,
        progress: &mut P,
    ) -> Result<NewMessage, MaildirError> {
        let read = read_message(rt, file, self.keywords.as_slice())?;
        if read.had_nul {
            pass_over(
                progress,
                faults,
                MaildirError::of_nul(rt.alloc(), file.path()),
            )?;
        }
        Ok(read.message)
    }

    /// Where the message of a file stands that had this UID, if the mailbox gives `next` to the next one.
    pub(crate) fn turn(&self, uid: Option<u32>, next: u32) -> Turn {
        match (&self.keeps, uid) {
            (Some(_), Some(uid)) if uid < next => Turn::There(uid),
            (Some(keeps), Some(uid)) if uid < keeps.next() => Turn::Comes(uid),
            _ => Turn::Free,
        }
    }

    /// UIDNEXT as it was, if UIDs are kept.
    pub(crate) fn kept_next(&self) -> Option<u32> {
        match &self.keeps {
            Some(keeps) => Some(keeps.next()),
            None => None,
        }
    }

    /// Whether a message was added whose UID is kept.
    pub(crate) fn has_added(&self) -> bool {
        self.has_added
    }

    /// From here on messages get any UID.
    pub(crate) fn keep_none(&mut self) {
        self.keeps = None;
    }

    /// Notes a message that the mailbox has under its UID.
    pub(crate) fn meet_kept(
        &mut self,
        alloc: Global,
        uid: u32,
        message: NewMessage,
    ) -> Result<(), AllocError> {
        self.held.meet(&message);
        self.note_kept(alloc, uid, &message)
    }

    /// Lets a message wait that keeps its UID. Its `\Draft` is the other way round until it is settled.
    pub(crate) fn push_kept(
        &mut self,
        alloc: Global,
        uid: u32,
        mut message: NewMessage,
    ) -> Result<(), AllocError> {
        self.note_kept(alloc, uid, &message)?;
        self.has_added = true;
        message.flags.draft = !message.flags.draft;
        self.pending.push(message)
    }

    fn note_kept(
        &mut self,
        alloc: Global,
        uid: u32,
        message: &NewMessage,
    ) -> Result<(), AllocError> {
        if let Some(keeps) = &mut self.keeps {
            keeps.note(alloc, uid, &message.flags)?;
        }
        self.pairs.push(UidPair { old: uid, new: uid })?;
        Ok(())
    }

    /// Meets a message if the mailbox has it, and lets it wait otherwise. Returns whether it was met. `uid` is the UID that it
    /// had, `next` the one that it gets.
    pub(crate) fn meet_or_push(
        &mut self,
        uid: Option<u32>,
        next: u32,
        message: NewMessage,
    ) -> Result<bool, AllocError> {
        let met = self.held.meet(&message);
        if let Some(old) = uid {
            self.pairs.push(UidPair {
                old,
                new: met.unwrap_or(next),
            })?;
        }
        if met.is_none() {
            self.pending.push(message)?;
        }
        Ok(met.is_some())
    }

    /// Settles UIDs that are kept.
    pub(crate) fn settle<K: Keeper>(
        &self,
        alloc: Global,
        kept: &mut KeptMailboxes<K>,
        goal: Goal<'_>,
    ) -> Result<(), MaildirError> {
        match &self.keeps {
            Some(keeps) => keeps.settle(alloc, kept, goal.path, goal.user, goal.name),
            None => Ok(()),
        }
    }

    /// The UIDs that messages had and have.
    pub(crate) fn into_pairs(self) -> Vec<UidPair> {
        self.pairs
    }
}

/// The UIDs that the mailbox keeps.
fn kept_uids<K: Keeper>(
    alloc: Global,
    kept: &KeptMailboxes<K>,
    name: &Name,
    state: Option<UidState>,
) -> Option<KeptUids> {
    let entry = kept.world().mailbox(&name.as_ref())?;
    KeptUids::begin(alloc, entry, state)
}

/// Returns the keywords of the Maildir's file `dovecot-keywords`. There are none if there is no such file.
fn keywords_of<R: Files + AllocGlobal>(
    rt: &R,
    maildir: &str,
) -> Result<Vec<LetteredKeyword>, MaildirError> {
    let path = format!(in rt.alloc(); "{maildir}/dovecot-keywords")?;
    match fs::read_to_string(rt, path.as_str()) {
        Ok(text) => Ok(read_keywords(rt.alloc(), text.as_str())?),
        Err(error) => match error.kind() {
            ErrorKind::NotFound | ErrorKind::IsADirectory => Ok(Vec::new(rt.alloc())),
            kind => Err(MaildirError::of_file(rt.alloc(), path.as_str(), kind)),
        },
    }
}

/// Returns the messages that a mailbox has.
fn held_in<K: Keeper>(
    alloc: Global,
    kept: &KeptMailboxes<K>,
    name: &Name,
) -> Result<HeldMessages, AllocError> {
    match kept.world().mailbox(&name.as_ref()) {
        Some(entry) => HeldMessages::of(alloc, entry.messages.as_ref()),
        None => Ok(HeldMessages::none(alloc)),
    }
}
