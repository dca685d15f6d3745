//! A walk along known UIDs and the messages that are there.

ghost use Rattle.std.specs.Prelude.{◌≡◌, ◌+◌, ◌-◌, ◌^◌, ◌<◌, ◌≤◌, not, true, drop, length, OnOk, IfOk};
ghost use Rattle.std.specs.Prelude.{List, [], ◌∷◌, ◌++◌};
ghost use Rattle.imap_print.specs.declared.response.Response.TheVariants as response;
ghost use Rattle.imap_mailbox.specs.Summary.{AreRising};
ghost use Rattle.imap_mailbox.specs.Rows.{Row, is_among};
ghost use Rattle.imap_mailbox.specs.Lent.{row_uids};
ghost use Rattle.imap_session.specs.ByUid.{AgreeByUid};
ghost use Rattle.imap_session.specs.Notices as specs;
ghost use Rattle.imap_session.specs.Walked.{Passes, PassesChanged, PassesExpunged, PassesTo};
ghost use Rattle.imap_session.specs.Walked.{collected, findings, found};

use crate::fetch_lines::FetchLines;
use crate::known_list::KnownList;
use crate::lines::fetch_line;
use crate::options::NoticeOptions;
use crate::row_cursor::RowCursor;
use crate::uids::RisingUids;
use imap_mailbox::KnownMessage;
use imap_print::Response;
use std::alloc::{AllocError, Global};

/// What a walk has found.
#[derive(Drop)]
pub(crate) struct Walk {
    /// The message sequence number of the next known message, after the expunges that are told before.
    pub(crate) number: u32,
    /// The UIDs of expunged messages, if these may be told.
    pub(crate) gone: Vec<u32>,
    /// Their lines, if they are told by numbers.
    pub(crate) expunges: Vec<Response>,
    /// Their UIDs, if they are told by UIDs.
    pub(crate) vanished: Vec<u32>,
    /// A message changed.
    pub(crate) changed: bool,
    /// The lines of messages that changed, but for those that were told before.
    pub(crate) fetches: FetchLines,
}

/// Whether the UID is one of these, by a search that halves.
fn is_told(told: &[u32], uid: u32) -> bool
    requires { AreRising told.now }
    ensures { result ≡ is_among uid told.now }
{
    let told = RisingUids { uids: told };
    told.contains(uid)
}

impl Walk {
    /// Adds a message that changed.
    fn add_changed(
        &mut self,
        alloc: Global,
        message: &KnownMessage,
        options: &NoticeOptions,
        told: bool,
    ) -> Result<(), AllocError>
        ensures changed { OnOk result (self.new.changed ≡ true) }
        ensures fetches { OnOk result (self.new.fetches ≡ self.old.fetches
            ++ collected (not told) (specs.fetch_line options.now self.old.number message.now ∷ [])) }
        ensures gone { OnOk result (self.new.gone.items ≡ self.old.gone.items) }
        ensures expunges { OnOk result (self.new.expunges.items ≡ self.old.expunges.items) }
        ensures vanished { OnOk result (self.new.vanished.items ≡ self.old.vanished.items) }
        ensures number { OnOk result (self.new.number ≡ self.old.number) }
    {
        if !told {
            let line = fetch_line(alloc, self.number, message, options.condstore)?;
            self.fetches.push(line)?;
        }
        self.changed = true;
        Ok(())
    }

    /// Adds a message that is expunged, which may be told.
    fn add_expunged(&mut self, uid: u32, qresync: bool) -> Result<(), AllocError>
        ensures gone { OnOk result (self.new.gone.items ≡ self.old.gone.items ++ uid ∷ []) }
        ensures expunges { OnOk result (self.new.expunges.items ≡ self.old.expunges.items
            ++ collected (not qresync) (response.Expunge self.old.number ∷ [])) }
        ensures vanished { OnOk result (self.new.vanished.items ≡ self.old.vanished.items
            ++ collected qresync (uid ∷ [])) }
        ensures changed { OnOk result (self.new.changed ≡ self.old.changed) }
        ensures fetches { OnOk result (self.new.fetches ≡ self.old.fetches) }
        ensures number { OnOk result (self.new.number ≡ self.old.number) }
    {
        if qresync {
            self.vanished.push(uid)?;
        } else {
            self.expunges.push(Response::Expunge(self.number))?;
        }
        self.gone.push(uid)?;
        Ok(())
    }

    /// Passes the known message with the UID, which is expunged.
    fn pass_expunged(&mut self, uid: u32, options: &NoticeOptions) -> Result<(), AllocError>
        requires { self.old.number < 2 ^ 32 - 1 }
        ensures { OnOk result (PassesExpunged options.now uid self.old self.new) }
    {
        if options.expunges {
            return self.add_expunged(uid, options.qresync);
        }
        self.number += 1;
        Ok(())
    }

    /// Passes the next message of `rows`, which is known and changed.
    fn pass_changed<C: RowCursor>(
        &mut self,
        alloc: Global,
        rows: &mut C,
        options: &NoticeOptions,
        told: &[u32],
    ) -> Result<(), AllocError>
        requires there { 0 < length (C.rest rows.old) }
        requires told { AreRising told.now }
        requires number { self.old.number < 2 ^ 32 - 1 }
        ensures found { OnOk result ((r : Row) (later : List Row) → C.rest rows.old ≡ r ∷ later
            → PassesChanged told.now options.now r self.old self.new) }
        ensures rest { OnOk result (C.rest rows.new ≡ drop 1 (C.rest rows.old)) }
    {
        let message = rows.message(alloc)?;
        let is_told = is_told(told, message.uid);
        self.add_changed(alloc, &message, options, is_told)?;
        rows.skip();
        self.number += 1;
        Ok(())
    }

    /// Passes the known message with the UID. All up to the mod-sequence `up_to` is known.
    fn pass<C: RowCursor>(
        &mut self,
        alloc: Global,
        uid: u32,
        rows: &mut C,
        up_to: u64,
        options: &NoticeOptions,
        told: &[u32],
    ) -> Result<(), AllocError>
        requires told { AreRising told.now }
        requires number { self.old.number < 2 ^ 32 - 1 }
        ensures { OnOk result (Passes told.now options.now up_to uid
            (C.rest rows.old) (C.rest rows.new) self.old self.new) }
    {
        if rows.skip_unchanged(uid, up_to) {
            self.number += 1;
            return Ok(());
        }
        if rows.is_next(uid) {
            self.pass_changed(alloc, rows, options, told)
        } else {
            self.pass_expunged(uid, options)
        }
    }

    /// Passes the known message at `place`, or a run of known messages from there on that stayed as they are.
    /// Returns the place of the next one.
    fn pass_some<C: RowCursor>(
        &mut self,
        alloc: Global,
        known: &KnownList,
        place: usize,
        rows: &mut C,
        up_to: u64,
        options: &NoticeOptions,
        told: &[u32],
    ) -> Result<usize, AllocError>
        requires there { place < length known.now.list }
        requires agree { AgreeByUid up_to (drop place known.now.list) (C.rest rows.old) }
        requires told { AreRising told.now }
        requires few { length known.now.list + 1 < 2 ^ 32 }
        requires number { self.old.number ≤ place + 1 }
        ensures { IfOk result (λ next. PassesTo told.now options.now up_to place next known.now.list
            (C.rest rows.old) (C.rest rows.new) self.old self.new) }
    {
        let run = rows.skip_known(known, place, up_to);
        if run > 0 {
            self.number += run as u32;
            return Ok(place + run);
        }
        self.pass(alloc, known.uid(place), rows, up_to, options, told)?;
        Ok(place + 1)
    }
}

/// Finds what became of the known messages. The session was told all up to the mod-sequence `up_to`, and the
/// command's own lines told of the messages with the UIDs `told`. Leaves the new messages to `rows`.
pub(crate) fn compare<C: RowCursor>(
    alloc: Global,
    known: &KnownList,
    rows: &mut C,
    up_to: u64,
    options: &NoticeOptions,
    told: &[u32],
) -> Result<Walk, AllocError>
    requires agree { AgreeByUid up_to known.now.list (C.rest rows.old) }
    requires told { AreRising told.now }
    requires few { length known.now.list + 1 < 2 ^ 32 }
    ensures { IfOk result (λ w. found w (C.rest rows.new)
        ≡ findings told.now options.now up_to known.now.list (C.rest rows.old)) }
{
    let mut walk = Walk {
        number: 1,
        gone: Vec::new(alloc),
        expunges: Vec::new(alloc),
        vanished: Vec::new(alloc),
        changed: false,
        fetches: FetchLines::new(alloc),
    };
    let mut place = 0;
    while place < known.len() {
        match walk.pass_some(alloc, known, place, rows, up_to, options, told) {
            Ok(next) => place = next,
            Err(error) => return Err(error),
        }
    }
    Ok(walk)
}

/// Returns the UIDs of the messages from the next one on.
pub(crate) fn uids_left<C: RowCursor>(alloc: Global, rows: &mut C) -> Result<Vec<u32>, AllocError>
    ensures { IfOk result (λ uids. uids.items ≡ row_uids (C.rest rows.old)) }
{
    let mut uids = Vec::new(alloc);
    while rows.len() > 0 {
        uids.push(rows.uid())?;
        rows.skip();
    }
    Ok(uids)
}
