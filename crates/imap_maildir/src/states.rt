//! The file `state` of a dump: what it says, and how that is made.

use crate::faults::{pass_over, pass_over_failed};
use crate::flagging::{mark_keyword, mark_seen};
use crate::kept_mailboxes::KeptMailboxes;
use crate::maildir_error::MaildirError;
use crate::progress::Progress;
use crate::state_lines::{StateLine, UidState, read_state_line};
use crate::subscribing::subscribe;
use crate::uid_pairs::LoadedUids;
use crate::uid_ranges::UidRange;
use imap_keeper::Keeper;
use imap_name_map::NameMap;
use imap_names::{Name, NameRef, UserName};
use std::alloc::{AllocError, Global};
use std::fs;
use std::io::ErrorKind;
use std::rt::Files;

/// A line that was read, and its number, counted from 1.
#[derive(Drop)]
struct NumberedLine {
    number: usize,
    line: StateLine,
}

/// What the file `state` says.
#[derive(Drop)]
pub(crate) struct States {
    path: String,
    lines: Vec<NumberedLine>,
    uids: NameMap<UidState>,
}

impl States {
    /// Reads the file of the folder. It says nothing if there is no such file. Lines of another form are passed over.
    pub(crate) fn read<R: Files + AllocGlobal, P: Progress>(
        rt: &R,
        folder: &str,
        faults: &mut u64,
        progress: &mut P,
    ) -> Result<States, MaildirError> {
        let path = format!(in rt.alloc(); "{folder}/state")?;
        let text = match fs::read_to_string(rt, path.as_str()) {
            Ok(text) => text,
            Err(error) => match error.kind() {
                ErrorKind::NotFound => String::new(rt.alloc()),
                kind => {
                    let error = MaildirError::of_file(rt.alloc(), path.as_str(), kind);
                    pass_over(progress, faults, error)?;
                    String::new(rt.alloc())
                }
            },
        };
        let lines = read_lines(rt.alloc(), text.as_str(), faults, progress)?;
        let uids = uid_states(rt.alloc(), lines.as_slice())?;
        Ok(States { path, lines, uids })
    }

    /// How far the mailbox had come.
    pub(crate) fn uids(&self, name: &NameRef<'_>) -> Option<UidState> {
        self.uids.get(name).copied()
    }

    /// Makes what the lines say of users and keywords. `uids` has which messages those of the dump have become.
    pub(crate) fn load<K: Keeper, P: Progress>(
        &self,
        alloc: Global,
        kept: &mut KeptMailboxes<K>,
        administrator: &UserName,
        uids: &LoadedUids,
        faults: &mut u64,
        progress: &mut P,
    ) -> Result<(), MaildirError> {
        for line in &self.lines {
            let done = self.load_line(alloc, kept, administrator, uids, line);
            pass_over_failed(progress, faults, done)?;
        }
        Ok(())
    }

    fn load_line<K: Keeper>(
        &self,
        alloc: Global,
        kept: &mut KeptMailboxes<K>,
        administrator: &UserName,
        uids: &LoadedUids,
        line: &NumberedLine,
    ) -> Result<(), MaildirError> {
        let path = self.path.as_str();
        match &line.line {
            StateLine::Subscribed(user, name) => subscribe(alloc, kept, path, user, name),
            StateLine::Uids(_, _) => Ok(()),
            StateLine::Seen(user, name, ranges) => {
                let uids = found_uids(alloc, uids, name, ranges.as_slice(), line.number)?;
                mark_seen(alloc, kept, path, user, name, uids.as_slice())
            }
            StateLine::Keyword(word, name, ranges) => {
                let uids = found_uids(alloc, uids, name, ranges.as_slice(), line.number)?;
                let user = name.owner().unwrap_or(administrator);
                mark_keyword(alloc, kept, path, user, name, word, uids.as_slice())
            }
        }
    }
}

/// The UIDs that the messages in these ranges have in the mailbox. Fails with `State` if no folder of the mailbox was read.
fn found_uids(
    alloc: Global,
    uids: &LoadedUids,
    name: &Name,
    ranges: &[UidRange],
    line: usize,
) -> Result<Vec<u32>, MaildirError> {
    match uids.found(alloc, &name.as_ref(), ranges)? {
        Some(found) => Ok(found),
        None => Err(MaildirError::State { line }),
    }
}

fn read_lines<P: Progress>(
    alloc: Global,
    text: &str,
    faults: &mut u64,
    progress: &mut P,
) -> Result<Vec<NumberedLine>, MaildirError> {
    let mut lines = Vec::new(alloc);
    for (before, line) in text.lines().enumerate() {
        let number = before.saturating_add(1);
        match read_state_line(alloc, line)? {
            Some(line) => lines.push(NumberedLine { number, line })?,
            None => pass_over(progress, faults, MaildirError::State { line: number })?,
        }
    }
    Ok(lines)
}

/// What the lines say of UIDs. Nothing, if they say it of a mailbox twice.
fn uid_states(alloc: Global, lines: &[NumberedLine]) -> Result<NameMap<UidState>, AllocError> {
    let mut entries = Vec::new(alloc);
    for line in lines {
        if let StateLine::Uids(name, state) = &line.line {
            entries.push((name.try_copy()?, *state))?;
        }
    }
    Ok(NameMap::from_entries(entries).unwrap_or(NameMap::new(alloc)))
}
