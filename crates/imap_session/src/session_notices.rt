//! What a session is told at the end of a command.

ghost use Rattle.std.specs.Prelude.{◌≡◌, IfOk, IfSome, Some};
ghost use Rattle.std.specs.List.{AllByRecursion};
ghost use Rattle.imap_mailbox.specs.Summary.{AreRising};
ghost use Rattle.imap_print.specs.Lines.{IsPrintable};
ghost use Rattle.imap_session.specs.State.{IsTellingFor, selection_of, state_of};
ghost use Rattle.imap_session.specs.Told.{IsInStepIfSelected, session_lines, session_telling};

use crate::known_update::KnownUpdate;
use crate::notices::Notices;
use crate::options::NoticeOptions;
use crate::row_cursor::RowCursor;
use crate::session::{Selected, Session};
use imap_print::Response;
use std::alloc::{AllocError, Global};

/// Untagged lines, and what the session then knows.
#[derive(Drop)]
pub struct SessionNotices {
    pub lines: Vec<Response>,
    /// `None` if the session stays as it is. Then there is no line.
    pub told: Option<KnownUpdate>,
}

impl Session {
    /// Returns the untagged lines that the session is told at the end of a command (RFC 9051, sections 5.2,
    /// 7.4.1, 7.5.1 and 7.5.2; RFC 7162, section 3.2.10), and what it then knows, for [`Session::tell`].
    ///
    /// `rows` are the messages of the selected mailbox as they will be after the command, and `highest` is
    /// the mod-sequence HIGHESTMODSEQ then. `told` are the UIDs, rising, of messages of which the command's
    /// own lines told all: these become known without a further line. A session that selected no mailbox is
    /// told nothing. Fails only for want of memory.
    pub fn notices<C: RowCursor>(
        &self,
        alloc: Global,
        rows: &mut C,
        options: &NoticeOptions,
        told: &[u32],
        highest: u64,
    ) -> Result<SessionNotices, AllocError>
        requires step { IsInStepIfSelected highest (C.rest rows.old) (state_of self.now).selected }
        requires told { AreRising told.now }
        ensures lines { let selected = (state_of self.now).selected in
            IfOk result (λ n. n.lines.items
            ≡ session_lines options.now told.now (C.rest rows.old) selected) }
        ensures told { let selected = (state_of self.now).selected in
            IfOk result (λ n. n.told ≡ session_telling options.now (C.rest rows.old) highest selected) }
        ensures change { let selected = (state_of self.now).selected in
            IfOk result (λ n. IfSome n.told (λ t. IsTellingFor t selected)) }
        ensures printable { IfOk result (λ n. AllByRecursion IsPrintable n.lines.items) }
    {
        match &self.selected {
            Some(selected) => selected_notices(alloc, selected, rows, options, told, highest),
            None => Ok(SessionNotices {
                lines: Vec::new(alloc),
                told: None,
            }),
        }
    }
}

fn selected_notices<C: RowCursor>(
    alloc: Global,
    selected: &Selected,
    rows: &mut C,
    options: &NoticeOptions,
    told: &[u32],
    highest: u64,
) -> Result<SessionNotices, AllocError>
    requires step { IsInStepIfSelected highest (C.rest rows.old) (Some (selection_of selected.now)) }
    requires told { AreRising told.now }
    ensures lines { let selection = Some (selection_of selected.now) in
        IfOk result (λ n. n.lines.items
        ≡ session_lines options.now told.now (C.rest rows.old) selection) }
    ensures told { let selection = Some (selection_of selected.now) in
        IfOk result (λ n. n.told ≡ session_telling options.now (C.rest rows.old) highest selection) }
    ensures change { let selection = Some (selection_of selected.now) in
        IfOk result (λ n. IfSome n.told (λ t. IsTellingFor t selection)) }
    ensures printable { IfOk result (λ n. AllByRecursion IsPrintable n.lines.items) }
{
    let up_to = selected.up_to;
    let found = selected
        .known
        .notices(alloc, rows, options, told, up_to, highest)?;
    let Notices { lines, delta } = found;
    let told = KnownUpdate::if_any(delta, highest);
    Ok(SessionNotices { lines, told })
}
