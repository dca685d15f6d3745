//! What a session is told of its mailbox.
//!
//! After a command of its own the session's messages before the next one that the batch marks are as it
//! knows them, if the last of them has the UID that is known at its place: known lists and rows rise, and
//! each row up to what was told is known. One look stands for all of them. If it is another one, half of
//! the run is tried.

ghost use Rattle.std.specs.Prelude.{◌≡◌, ℕ, [], ◌++◌, true, false, IfOk, if◌then◌else◌};
ghost use Rattle.imap_print.specs.declared.response.Response.TheVariants as response;
ghost use Rattle.std.specs.List.{AllByRecursion};
ghost use Rattle.imap_print.specs.Lines.{IsPrintable};
ghost use Rattle.imap_print.specs.Sets.{rise_above};
ghost use Rattle.imap_mailbox.specs.Shown.{Content};
ghost use Rattle.imap_mailbox.specs.Summary.{AreRising};
ghost use Rattle.imap_session.specs.Notices.{notices, vanished_line};
ghost use Rattle.imap_session.specs.Delta.{IsDeltaOf, Brings};
ghost use Rattle.imap_session.specs.InStep.{IsInStep};

use crate::delta::Delta;
use crate::known_list::KnownList;
use crate::lines::{vanished_lines, with_exists};
use crate::options::NoticeOptions;
use crate::row_cursor::RowCursor;
use crate::walk::{Walk, compare, uids_left};
use imap_print::Response;
use std::alloc::{AllocError, Global};

/// Untagged lines, and what they make of the known list.
#[derive(Drop)]
pub struct Notices {
    pub lines: Vec<Response>,
    pub delta: Delta,
}

impl KnownList {
    /// Returns the untagged lines that a session is told at the end of a command (RFC 9051, sections 5.2,
    /// 7.4.1, 7.5.1 and 7.5.2; RFC 7162, section 3.2.10), and the change of what it knows.
    ///
    /// `rows` are the messages as they will be after the command, and `highest` is the mod-sequence
    /// HIGHESTMODSEQ then. The session was told all up to the mod-sequence `up_to`. `told` are the UIDs,
    /// rising, of messages of which the command's own lines told all: these become known without a further
    /// line. Takes no walk if `highest` is not above `up_to` and no expunged message is to be told. Fails
    /// only for want of memory.
    pub fn notices<C: RowCursor>(
        &self,
        alloc: Global,
        rows: &mut C,
        options: &NoticeOptions,
        told: &[u32],
        up_to: u64,
        highest: u64,
    ) -> Result<Notices, AllocError>
        requires step { (c : Content) × IsInStep up_to highest self.now.list (C.rest rows.old) c }
        requires told { AreRising told.now }
        ensures lines { IfOk result (λ n. n.lines.items
            ≡ notices options.now up_to told.now self.now.list (C.rest rows.old)) }
        ensures delta { IfOk result (λ n. IsDeltaOf options.now up_to self.now.list (C.rest rows.old) n.delta) }
        ensures brings { IfOk result (λ n. Brings options.now self.now.list (C.rest rows.old) n.delta) }
        ensures printable { IfOk result (λ n. AllByRecursion IsPrintable n.lines.items) }
    {
        if highest <= up_to && (!options.expunges || self.len() == rows.len()) {
            return Ok(no_notices(alloc));
        }
        find_notices(alloc, self, rows, options, told, up_to)
    }
}

fn no_notices(alloc: Global) -> Notices
    ensures lines { result.lines.items ≡ [] }
    ensures changed { result.delta.changed ≡ false }
    ensures gone { result.delta.gone.items ≡ [] }
    ensures added { result.delta.added.items ≡ [] }
{
    Notices {
        lines: Vec::new(alloc),
        delta: Delta {
            changed: false,
            gone: Vec::new(alloc),
            added: Vec::new(alloc),
        },
    }
}

/// Finds notices by a walk.
fn find_notices<C: RowCursor>(
    alloc: Global,
    known: &KnownList,
    rows: &mut C,
    options: &NoticeOptions,
    told: &[u32],
    up_to: u64,
) -> Result<Notices, AllocError>
    requires step { (highest : ℕ) × ((c : Content)
        × IsInStep up_to highest known.now.list (C.rest rows.old) c) }
    requires told { AreRising told.now }
    ensures lines { IfOk result (λ n. n.lines.items
        ≡ notices options.now up_to told.now known.now.list (C.rest rows.old)) }
    ensures delta { IfOk result (λ n. IsDeltaOf options.now up_to known.now.list (C.rest rows.old) n.delta) }
    ensures brings { IfOk result (λ n. Brings options.now known.now.list (C.rest rows.old) n.delta) }
    ensures printable { IfOk result (λ n. AllByRecursion IsPrintable n.lines.items) }
{
    let walk = compare(alloc, known, rows, up_to, options, told)?;
    let added = uids_left(alloc, rows)?;
    let Walk {
        number,
        gone,
        expunges,
        vanished,
        changed,
        fetches,
    } = walk;
    let lines = expunge_lines(alloc, expunges, vanished, options.qresync)?;
    let lines = with_exists(lines, number - 1, added.len())?;
    let lines = joined(lines, fetches.into_vec())?;
    Ok(Notices {
        lines,
        delta: Delta {
            changed,
            gone,
            added,
        },
    })
}

/// The lines of expunged messages.
fn expunge_lines(
    alloc: Global,
    expunges: Vec<Response>,
    vanished: Vec<u32>,
    qresync: bool,
) -> Result<Vec<Response>, AllocError>
    requires { rise_above 0 vanished.items ≡ true }
    ensures { IfOk result (λ lines. lines.items
        ≡ (if qresync then vanished_line vanished.items else expunges.items)) }
{
    if qresync {
        vanished_lines(alloc, vanished)
    } else {
        Ok(expunges)
    }
}

pub(crate) fn joined(front: Vec<Response>, back: Vec<Response>) -> Result<Vec<Response>, AllocError>
    ensures { IfOk result (λ lines. lines.items ≡ front.items ++ back.items) }
{
    let mut lines = front;
    let mut others = back;
    lines.append(&mut others)?;
    Ok(lines)
}
