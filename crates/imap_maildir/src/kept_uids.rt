//! UIDs, UIDVALIDITY and mod-sequences that a mailbox keeps when it moves.
//!
//! A mailbox gets its messages in the order of their UIDs, and one without octets in the place of each that is gone, so that
//! each has the UID that it had. Their flag `\Draft` is first the other way round. Then flags change until mod-sequences have
//! come as far as they had, then each message gets its flags, and what stood in the places of others goes. So what a client
//! learns since the greatest mod-sequence that it knew is all messages and all that are gone (RFC 7162, section 3.1.4.1), and
//! it reads none anew.

use crate::flagging::{MAX_CHANGES, change_messages, mark, row_of};
use crate::kept_mailboxes::KeptMailboxes;
use crate::maildir_error::MaildirError;
use crate::state_lines::UidState;
use imap_batch::{Batch, FlagUpdate, NewMessage};
use imap_keeper::Keeper;
use imap_lex::Octets;
use imap_mailbox::{Mailbox, SharedFlags};
use imap_names::{Name, UserName};
use imap_syntax::DateTime;
use imap_values::TryCopy;
use imap_world::MailboxEntry;
use std::alloc::{AllocError, Global};

/// The greatest UIDVALIDITY that is kept: a mailbox is made and deleted as often.
const MAX_VALIDITY: u32 = 10_000;

/// The greatest UIDNEXT that is kept.
const MAX_NEXT: u32 = 10_000_000;

/// The greatest mod-sequence that is kept.
const MAX_HIGHEST: u64 = 10_000_000;

/// Whether a mailbox can be brought as far.
fn can_keep(state: UidState) -> bool {
    state.validity <= MAX_VALIDITY && state.next <= MAX_NEXT && state.highest <= MAX_HIGHEST
}

/// The UIDVALIDITY that a mailbox gets: its own, or another one if its UIDs can't be kept.
pub(crate) fn wanted_validity(state: Option<UidState>) -> u32 {
    match state {
        Some(state) if can_keep(state) => state.validity,
        Some(state) if state.validity < MAX_VALIDITY => state.validity.saturating_add(1),
        _ => 1,
    }
}

/// A message, and the flags that it gets.
#[derive(Drop)]
struct Settled {
    uid: u32,
    flags: SharedFlags,
}

/// The UIDs that a mailbox keeps.
#[derive(Drop)]
pub(crate) struct KeptUids {
    state: UidState,
    /// In the order of UIDs.
    settled: Vec<Settled>,
}

impl KeptUids {
    /// Begins to keep UIDs, if the mailbox has the UIDVALIDITY.
    pub(crate) fn begin(
        alloc: Global,
        entry: &MailboxEntry,
        state: Option<UidState>,
    ) -> Option<KeptUids> {
        let state = state?;
        if entry.validity != state.validity || !can_keep(state) {
            return None;
        }
        Some(KeptUids {
            state,
            settled: Vec::new(alloc),
        })
    }

    /// UIDNEXT, as it was.
    pub(crate) fn next(&self) -> u32 {
        self.state.next
    }

    /// The message gets its flags at the end. Messages are noted in the order of UIDs.
    pub(crate) fn note(
        &mut self,
        alloc: Global,
        uid: u32,
        flags: &SharedFlags,
    ) -> Result<(), AllocError> {
        let flags = flags.try_copy(alloc)?;
        self.settled.push(Settled { uid, flags })?;
        Ok(())
    }

    fn has(&self, uid: u32) -> bool {
        let found = self
            .settled
            .as_slice()
            .binary_search_by(|settled| settled.uid.cmp(&uid));
        found.is_ok()
    }

    /// Brings mod-sequences as far as they had come, gives each message its flags, and takes away what stands in the places of
    /// others. It may be begun again if it was ended: a message that has its flags has a greater mod-sequence.
    pub(crate) fn settle<K: Keeper>(
        &self,
        alloc: Global,
        kept: &mut KeptMailboxes<K>,
        path: &str,
        user: &UserName,
        name: &Name,
    ) -> Result<(), MaildirError> {
        let left = match kept.world().mailbox(&name.as_ref()) {
            Some(entry) => self.unsettled(alloc, entry.messages.as_ref())?,
            None => Vec::new(alloc),
        };
        self.mark_all(alloc, kept, path, user, name, left.as_slice(), false)?;
        raise(alloc, kept, path, user, name, self.state.highest)?;
        self.mark_all(alloc, kept, path, user, name, left.as_slice(), true)?;
        self.take_away(alloc, kept, path, user, name)
    }

    /// The places of those messages that have not got their flags. Two changes at a time may have raised mod-sequences by one
    /// too much.
    fn unsettled(&self, alloc: Global, mailbox: &Mailbox) -> Result<Vec<usize>, AllocError> {
        let rows = mailbox.rows("");
        let last = self.state.highest.saturating_add(1);
        let mut left = Vec::new(alloc);
        for (place, settled) in self.settled.iter().enumerate() {
            if let Some(row) = row_of(&rows, settled.uid) {
                if row.number <= last {
                    left.push(place)?;
                }
            }
        }
        Ok(left)
    }

    /// Gives each of the messages at these places its flags, or these with `\Draft` the other way round.
    fn mark_all<K: Keeper>(
        &self,
        alloc: Global,
        kept: &mut KeptMailboxes<K>,
        path: &str,
        user: &UserName,
        name: &Name,
        left: &[usize],
        is_last: bool,
    ) -> Result<(), MaildirError> {
        for some in left.chunks(MAX_CHANGES) {
            let marks = match kept.world().mailbox(&name.as_ref()) {
                Some(entry) => self.marks(alloc, entry.messages.as_ref(), some, is_last)?,
                None => Vec::new(alloc),
            };
            mark(alloc, kept, path, user, name, marks)?;
        }
        Ok(())
    }

    /// The changes for some of the messages: for each whose `\Draft` is another one.
    fn marks(
        &self,
        alloc: Global,
        mailbox: &Mailbox,
        some: &[usize],
        is_last: bool,
    ) -> Result<Vec<FlagUpdate>, AllocError> {
        let mut marks = Vec::new(alloc);
        for place in some {
            if let Some(settled) = self.settled.as_slice().get(*place) {
                let is_draft = settled.flags.draft == is_last;
                if is_drafted(mailbox, settled.uid) == Some(!is_draft) {
                    marks.push(drafted(alloc, settled.uid, &settled.flags, is_draft)?)?;
                }
            }
        }
        Ok(marks)
    }

    /// Expunges the messages that stand in the places of others.
    fn take_away<K: Keeper>(
        &self,
        alloc: Global,
        kept: &mut KeptMailboxes<K>,
        path: &str,
        user: &UserName,
        name: &Name,
    ) -> Result<(), MaildirError> {
        let uids = match kept.world().mailbox(&name.as_ref()) {
            Some(entry) => self.others(alloc, entry.messages.as_ref())?,
            None => Vec::new(alloc),
        };
        for some in uids.as_slice().chunks(MAX_CHANGES) {
            let batch = Batch::expunging(alloc, user, Vec::from_slice(alloc, some)?)?;
            change_messages(alloc, kept, path, name, batch)?;
        }
        Ok(())
    }

    /// The UIDs of messages that stand in the places of others.
    fn others(&self, alloc: Global, mailbox: &Mailbox) -> Result<Vec<u32>, AllocError> {
        let mut uids = Vec::new(alloc);
        for message in mailbox.messages() {
            if message.octets.as_slice().is_empty()
                && message.uid < self.state.next
                && !self.has(message.uid)
            {
                uids.push(message.uid)?;
            }
        }
        Ok(uids)
    }
}

/// Whether the message has `\Draft`, if it is there.
fn is_drafted(mailbox: &Mailbox, uid: u32) -> Option<bool> {
    match mailbox.find(uid) {
        Some(message) => Some(message.flags.draft),
        None => None,
    }
}

/// What stands in the place of a message that is gone.
pub(crate) fn in_place(alloc: Global, date: DateTime) -> Result<NewMessage, AllocError> {
    Ok(NewMessage {
        date,
        octets: Octets::from_vec(Vec::new(alloc))?,
        flags: SharedFlags::new(alloc),
        seen: false,
    })
}

/// The change by which a message gets the flags, and `\Draft` so.
fn drafted(
    alloc: Global,
    uid: u32,
    flags: &SharedFlags,
    is_draft: bool,
) -> Result<FlagUpdate, AllocError> {
    let mut flags = flags.try_copy(alloc)?;
    flags.draft = is_draft;
    Ok(FlagUpdate {
        uid,
        flags: Some(flags),
        seen: None,
    })
}

/// Changes flags and changes them back until HIGHESTMODSEQ has come as far. A mailbox without messages stays as it is.
fn raise<K: Keeper>(
    alloc: Global,
    kept: &mut KeptMailboxes<K>,
    path: &str,
    user: &UserName,
    name: &Name,
    highest: u64,
) -> Result<(), MaildirError> {
    // Each turn raises it by two or more.
    for _ in 0..highest {
        let count = match kept.world().mailbox(&name.as_ref()) {
            Some(entry) => raising_count(entry.messages.as_ref(), highest),
            None => 0,
        };
        if count == 0 {
            return Ok(());
        }
        for _ in 0..2 {
            let marks = match kept.world().mailbox(&name.as_ref()) {
                Some(entry) => turned(alloc, entry.messages.as_ref(), count)?,
                None => Vec::new(alloc),
            };
            mark(alloc, kept, path, user, name, marks)?;
        }
    }
    Ok(())
}

/// Of how many messages flags change, and change back. 0 if none has to, or none is there.
fn raising_count(mailbox: &Mailbox, highest: u64) -> usize {
    let lacking = highest.saturating_sub(mailbox.highest(""));
    let wanted = lacking.div_ceil(2).min(MAX_CHANGES as u64) as usize;
    wanted.min(mailbox.len())
}

/// The changes of `\Draft` of the first messages.
fn turned(alloc: Global, mailbox: &Mailbox, count: usize) -> Result<Vec<FlagUpdate>, AllocError> {
    let mut marks = Vec::new(alloc);
    for message in mailbox.messages().iter().take(count) {
        marks.push(drafted(alloc, message.uid, &message.flags, !message.flags.draft)?)?;
    }
    Ok(marks)
}

/// Whether the mailbox has this message under this UID.
pub(crate) fn has_message(mailbox: &Mailbox, uid: u32, message: &NewMessage) -> bool {
    match mailbox.find(uid) {
        Some(found) => found.octets.as_slice() == message.octets.as_slice(),
        None => false,
    }
}
