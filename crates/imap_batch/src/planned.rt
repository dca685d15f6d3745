//! The messages of a mailbox as a batch will leave them, before it is written.

ghost use Rattle.std.specs.Prelude.{◌≡◌, ◌<◌, ◌≤◌, ◌+◌, ℕ, [], ◌∷◌, List, drop, length, nat_lt, true, false};
ghost use Rattle.std.specs.Prelude.{MatchOption, slice_index_or};
ghost use Rattle.imap_modseq.specs.Numbers.{max_events};
ghost use Rattle.imap_mailbox.specs.Held.{summary_in};
ghost use Rattle.imap_mailbox.specs.Lent.{row_shown, row_uids};
ghost use Rattle.imap_mailbox.specs.Rows as specs;
ghost use Rattle.imap_mailbox.specs.Rows.{is_among};
ghost use Rattle.imap_mailbox.specs.Summary.{AreRising, rows_of};
ghost use Rattle.imap_batch.specs.Written.{with_batch, MayWrite};
ghost use Rattle.imap_batch.specs.Planned.{own_after_all, rows_left, marked_by, first_uid, StartsLeft, CanMark};
ghost use Rattle.imap_batch.specs.Untouched.{AreLeft, IsBefore, IsRunTo};

use crate::added_left::{AddedLeft, next_added};
use crate::batch::NewMessage;
use crate::marks_left::{MarksLeft, first_mark, is_marked, marks_after, with_first};
use crate::write::BatchWrite;
use crate::writing::added_seen_count;
use imap_mailbox::{Mailbox, Row, Rows};
use imap_modseq::MAX_EVENTS;
use std::marker::Model;

/// A cursor over the messages of a mailbox as a batch will leave them to its user, in the order of UIDs. It
/// takes no memory, and a step past a message takes no look-up of the user's own changes. Contracts see the
/// rows from the next one on.
#[derive(Drop)]
pub struct Planned<'a> {
    rows: Rows<'a>,
    /// HIGHESTMODSEQ before the batch.
    highest: u64,
    /// The place of the next row in `rows`, which isn't expunged.
    place: usize,
    marks: MarksLeft<'a>,
    expunged: &'a [u32],
    added: AddedLeft<'a>,
}

impl<'a> Model for Planned<'a> {
    ghost use Rattle.std.specs.Prelude.{List, ◌++◌, drop};
    ghost use Rattle.std.specs.Coded.{coded_list};
    ghost use Rattle.imap_mailbox.specs.Rows.{Row};
    ghost use Rattle.imap_mailbox.specs.Lent.{row_code};
    ghost use Rattle.imap_batch.specs.Planned.{rows_left, marked_by, added_by, IsPlan};

    ghost Value = { List Row };

    ghost coded = { coded_list row_code };

    ghost view = { λ p.
        rows_left p.expunged.now (marked_by p.marks (drop p.place p.rows)) ++ added_by p.added };

    ghost invariant = { λ p. IsPlan p.marks p.expunged.now p.added p.highest p.place p.rows };
}

impl<'a> Planned<'a> {
    /// The messages as `write`, which [`resolve`](crate::resolve) found for the mailbox as it is, will leave
    /// them to the user of the batch.
    pub fn new(mailbox: &'a Mailbox, write: &'a BatchWrite) -> Planned<'a>
        requires { MayWrite write.now (summary_in mailbox.now) }
        ensures { let batch = write.now.batch in
            result ≡ rows_of (with_batch batch (summary_in mailbox.now)) batch.user }
    {
        let batch = &write.batch;
        let user = batch.user.as_str();
        let added = batch.added.as_slice();
        let uid = mailbox.next_uid();
        let shared = mailbox.shared_len();
        let own = mailbox.own_len(user);
        let marks = MarksLeft {
            marks: batch.marks.as_slice(),
            shared: shared + added.len() as u64,
            own: own_after_all(own, added),
        };
        let rows = mailbox.rows(user);
        let expunged = batch.expunged.as_slice();
        let (place, marks) = first_left(&rows, 0, &marks, expunged);
        Planned {
            rows,
            highest: mailbox.highest(user),
            place,
            marks,
            expunged,
            added: AddedLeft {
                added,
                uid,
                shared,
                own,
            },
        }
    }

    /// Returns the UID of the next message, if there is one.
    pub fn uid(&self) -> Option<u32>
        ensures { result ≡ first_uid self.now }
    {
        if self.place < self.rows.len() {
            return Some(self.rows.uid(self.place));
        }
        match self.row() {
            Some(row) => Some(row.uid),
            None => None,
        }
    }

    /// Whether the mod-sequence of the next message is above `number`.
    pub fn is_above(&self, number: u64) -> bool
        requires { 0 < length self.now }
        ensures { (row : specs.Row) (later : List specs.Row) → self.now ≡ row ∷ later
            → result ≡ nat_lt number row.number }
    {
        if self.place < self.rows.len() && !is_marked(self.rows.uid(self.place), &self.marks) {
            return self.rows.is_above(self.place, number);
        }
        match self.row() {
            Some(row) => row.number > number,
            None => unreachable!(),
        }
    }

    /// Returns the next message, if there is one.
    pub fn row(&self) -> Option<Row<'a>>
        ensures { MatchOption result (self.now ≡ []) (λ row. self.now ≡ row_shown row ∷ drop 1 self.now) }
    {
        if self.place < self.rows.len() {
            return Some(with_first(&self.rows.get(self.place), &self.marks));
        }
        match next_added(&self.added) {
            Some((row, _)) => Some(row),
            None => None,
        }
    }

    /// Moves past the next message, if there is one.
    pub fn skip(&mut self)
        ensures { self.new ≡ drop 1 self.old }
    {
        if self.place < self.rows.len() {
            let marks = marks_after(self.rows.uid(self.place), &self.marks);
            let (place, marks) = first_left(&self.rows, self.place + 1, &marks, self.expunged);
            self.place = place;
            self.marks = marks;
            return;
        }
        if let Some((_, added)) = next_added(&self.added) {
            self.added = added;
        }
    }

    /// Returns how many of the next messages [`skip_untouched`](Planned::skip_untouched) may skip: those before the
    /// first that is marked, expunged or has a mod-sequence above `number`. It takes no walk, if
    /// [`Rows::skip_unchanged`](imap_mailbox::Rows::skip_unchanged) takes none.
    pub fn untouched_len(&self, number: u64) -> usize
        ensures { result ≤ length self.now }
    {
        if self.place >= self.rows.len() {
            return 0;
        }
        let end = untouched_end(&self.rows, self.place, &self.marks, self.expunged);
        if number >= self.highest {
            return end - self.place;
        }
        self.rows.skip_unchanged(self.place, end, number) - self.place
    }

    /// Moves past the next `len` messages if the batch leaves them as they are, none has a mod-sequence above
    /// `number`, and the last has the UID `last`. Returns whether it did.
    pub fn skip_untouched(&mut self, len: usize, last: u32, number: u64) -> bool
        ensures run { result ≡ true → IsRunTo number last len self.old }
        ensures skipped { result ≡ true → self.new ≡ drop len self.old }
        ensures same { result ≡ false → self.new ≡ self.old }
    {
        let left = self.rows.len().saturating_sub(self.place);
        if len == 0 || left < len {
            return false;
        }
        let end = self.place + len;
        if self.rows.uid(end - 1) != last {
            return false;
        }
        if untouched_end(&self.rows, self.place, &self.marks, self.expunged) < end {
            return false;
        }
        if self.rows.skip_unchanged(self.place, end, number) < end {
            return false;
        }
        let (place, marks) = first_left(&self.rows, end, &self.marks, self.expunged);
        self.place = place;
        self.marks = marks;
        true
    }
}

/// Returns the place of the first row from `place` on that is marked or expunged, or the number of rows. It takes
/// searches that halve.
fn untouched_end(rows: &Rows<'_>, place: usize, marks: &MarksLeft<'_>, expunged: &[u32]) -> usize
    requires place { place < length rows.now }
    requires rising { AreRising (row_uids rows.now) }
    requires expunged { AreRising expunged.now }
    ensures after { place ≤ result }
    ensures within { result ≤ length rows.now }
    ensures left { AreLeft marks.now.marks.now expunged.now place result rows.now }
{
    let uid = rows.uid(place);
    if is_marked(uid, marks) {
        return place;
    }
    let marked = end_before(rows, place, first_mark(marks));
    let gone = end_before(rows, place, first_from(expunged, uid));
    if marked < gone { marked } else { gone }
}

/// Returns the place of the first row from `place` on that has the UID or a greater one, or the number of rows.
fn end_before(rows: &Rows<'_>, place: usize, uid: Option<u32>) -> usize
    requires { place < length rows.now }
    ensures after { place ≤ result }
    ensures within { result ≤ length rows.now }
    ensures below { (i : ℕ) (row : specs.Row) → place ≤ i → i < result → row ≡ slice_index_or rows.now i row
        → IsBefore row.uid uid }
{
    match uid {
        Some(uid) => {
            let end = rows.place_from(uid);
            if end < place { place } else { end }
        }
        None => rows.len(),
    }
}

/// Returns the first of the UIDs that is `low` or more, by a search that halves.
fn first_from(uids: &[u32], low: u32) -> Option<u32>
    requires { AreRising uids.now }
    ensures { (uid : ℕ) → low ≤ uid → IsBefore uid result → is_among uid uids.now ≡ false }
{
    match uids.binary_search(&low) {
        Ok(_) => Some(low),
        Err(place) => {
            if place < uids.len() {
                Some(uids[place])
            } else {
                None
            }
        }
    }
}

/// Returns the number of own changes after all messages were added.
fn own_after_all(own: u64, added: &[NewMessage]) -> u64
    requires { own ≤ max_events }
    ensures own { result ≡ own_after_all own added.now }
    ensures most { result ≤ max_events }
{
    own.saturating_add(added_seen_count(added) as u64)
        .min(MAX_EVENTS)
}

/// Whether the UID is one of those that are expunged, by a search that halves.
fn is_expunged(expunged: &[u32], uid: u32) -> bool
    requires { AreRising expunged.now }
    ensures { result ≡ is_among uid expunged.now }
{
    expunged.binary_search(&uid).is_ok()
}

/// Returns the place of the first row from `place` on that is not expunged, and the marks that are left for
/// it and those after it.
fn first_left<'a>(
    rows: &Rows<'a>,
    place: usize,
    marks: &MarksLeft<'a>,
    expunged: &[u32],
) -> (usize, MarksLeft<'a>)
    requires marks { CanMark marks.now }
    requires expunged { AreRising expunged.now }
    ensures rows { rows_left expunged.now (marked_by result.1 (drop result.0 rows.now))
        ≡ rows_left expunged.now (marked_by marks.now (drop place rows.now)) }
    ensures starts { StartsLeft expunged.now (drop result.0 rows.now) }
    ensures marks { CanMark result.1 }
{
    let mut later = *marks;
    for at in place..rows.len() {
        let uid = rows.uid(at);
        if !is_expunged(expunged, uid) {
            return (at, later);
        }
        later = marks_after(uid, &later);
    }
    (rows.len(), later)
}
