//! Messages that FETCH reads, and of which it sets `\Seen` (RFC 9051, section 6.4.5).

ghost use Rattle.std.specs.Prelude.{◌≡◌, ◌<◌, ◌^◌, ◌++◌, ◌-◌, [], ◌∷◌, Some, OnOk, option_map, if◌then◌else◌};
ghost use Rattle.imap_mailbox.specs.Lent.{row_shown};
ghost use Rattle.imap_messages.specs.Reading as specs;

use crate::wanted::Wanted;
use imap_batch::FlagUpdate;
use imap_mailbox::Row;
use imap_modseq::MAX_EVENTS;
use imap_print::Response;
use std::alloc::{AllocError, Global};

/// What FETCH has found so far: lines of messages, marks of those of which it sets `\Seen`, and UIDs of those
/// of which it tells FLAGS.
#[derive(Drop)]
pub(crate) struct Reading {
    /// Whether the command sets `\Seen`.
    pub(crate) sets: bool,
    /// HIGHESTMODSEQ for the user after the marks.
    pub(crate) highest: u64,
    /// The number of changes of the user's own `\Seen` after the marks.
    pub(crate) own: u64,
    pub(crate) lines: Vec<Response>,
    pub(crate) marks: Vec<FlagUpdate>,
    pub(crate) told: Vec<u32>,
}

impl Reading {
    /// Begins with nothing found.
    pub(crate) fn new(alloc: Global, sets: bool, highest: u64, own: u64) -> Reading
        ensures sets { result.sets ≡ sets }
        ensures highest { result.highest ≡ highest }
        ensures own { result.own ≡ own }
        ensures lines { result.lines.items ≡ [] }
        ensures marks { result.marks.items ≡ [] }
        ensures told { result.told.items ≡ [] }
    {
        Reading {
            sets,
            highest,
            own,
            lines: Vec::new(alloc),
            marks: Vec::new(alloc),
            told: Vec::new(alloc),
        }
    }

    /// Adds the message with the number, if it is there.
    pub(crate) fn add_if_there(
        &mut self,
        alloc: Global,
        wanted: &Wanted,
        number: u32,
        row: &Option<Row<'_>>,
    ) -> Result<(), AllocError>
        requires { self.old.highest < 2 ^ 64 - 1 }
        ensures { let message = option_map row_shown row.now in
            OnOk result (specs.IsAdded wanted.now number message self.old self.new) }
    {
        match row {
            Some(row) => self.add(alloc, wanted, number, row),
            None => Ok(()),
        }
    }

    fn add(
        &mut self,
        alloc: Global,
        wanted: &Wanted,
        number: u32,
        row: &Row<'_>,
    ) -> Result<(), AllocError>
        requires { self.old.highest < 2 ^ 64 - 1 }
        ensures { let message = Some (row_shown row.now) in
            OnOk result (specs.IsAdded wanted.now number message self.old self.new) }
    {
        let set = is_set(self.sets, self.own, row);
        let line = wanted.line(alloc, set, number, &row_read(set, self.highest, row))?;
        self.lines.push(line)?;
        push_mark(&mut self.marks, self.sets, row)?;
        push_told(&mut self.told, wanted.has_flags() || set, row.uid)?;
        if set {
            self.highest += 1;
            self.own += 1;
        }
        Ok(())
    }
}

/// Whether `\Seen` of the message is set: it wasn't, and the user has a change left.
fn is_set(sets: bool, own: u64, row: &Row<'_>) -> bool
    ensures { result ≡ specs.is_set sets own (row_shown row.now) }
{
    sets && (!row.seen && own < MAX_EVENTS)
}

/// The message as the user's next change leaves it, if `\Seen` is set.
fn row_read<'a>(set: bool, highest: u64, row: &Row<'a>) -> Row<'a>
    requires { highest < 2 ^ 64 - 1 }
    ensures { row_shown result ≡ specs.row_read set highest (row_shown row.now) }
{
    Row {
        uid: row.uid,
        date: row.date,
        octets: row.octets,
        flags: row.flags,
        seen: set || row.seen,
        number: if set { highest + 1 } else { row.number },
    }
}

fn push_mark(marks: &mut Vec<FlagUpdate>, sets: bool, row: &Row<'_>) -> Result<(), AllocError>
    ensures { let mark = specs.marks_of sets (row_shown row.now) in
        OnOk result (marks.new.items ≡ marks.old.items ++ mark) }
{
    if sets && !row.seen {
        marks.push(FlagUpdate {
            uid: row.uid,
            flags: None,
            seen: Some(true),
        })?;
    }
    Ok(())
}

fn push_told(told: &mut Vec<u32>, tells: bool, uid: u32) -> Result<(), AllocError>
    ensures { OnOk result (told.new.items ≡ told.old.items ++ (if tells then uid ∷ [] else [])) }
{
    if tells {
        told.push(uid)?;
    }
    Ok(())
}
