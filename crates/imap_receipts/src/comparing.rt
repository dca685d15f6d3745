//! Journals are compared with the receipts of one seat.

ghost use Rattle.std.specs.Prelude.{◌≡◌, ◌↔◌, ◌<◌, IfSome, IsNone, IsTrue, length, map};
ghost use Rattle.imap_hall.specs.Hall.{journal_entry};
ghost use Rattle.imap_receipts.specs.Keeping.{kept_entry};
ghost use Rattle.imap_receipts.specs.Settling.{IsOfEntry, IsSettled, since};

use imap_hall::{Entry, MadeStep, SessionId};
use imap_syntax::are_same;
use std::collections::VecDeque;

/// Returns how many of the receipts are of entries since the base. Returns `None` if one of these isn't of the
/// session's entry at its place, or if their places don't rise.
pub fn count_since(
    before: u64,
    entries: &[Entry],
    session: &SessionId,
    receipts: &VecDeque<MadeStep>,
) -> Option<u64>
    ensures settled { IfSome result (λ n.
        IsSettled before (map journal_entry entries.now) session.now receipts.now.items) }
    ensures count { IfSome result (λ n. n ≡ length (since before receipts.now.items)) }
    ensures unsettled { IsNone result
        → IsSettled before (map journal_entry entries.now) session.now receipts.now.items → ⊥ }
{
    let mut last = before;
    let mut count: u64 = 0;
    for kept in receipts {
        let place = kept.receipt().place;
        if place <= before {
            continue;
        }
        if place <= last {
            return None;
        }
        if !is_of_entry(before, entries, session, kept) {
            return None;
        }
        last = place;
        count += 1;
    }
    Some(count)
}

/// Whether the receipt is of the session, and of the entry at its place.
fn is_of_entry(before: u64, entries: &[Entry], session: &SessionId, kept: &MadeStep) -> bool
    requires { before < kept.now.receipt.place }
    ensures { IsTrue result ↔ IsOfEntry before (map journal_entry entries.now) session.now kept.now }
{
    match entries.get((kept.receipt().place - before - 1) as usize) {
        Some(entry) => kept.step().who.is_same(session) && is_noted(entry, kept),
        None => false,
    }
}

/// Whether the receipt is of this entry.
fn is_noted(entry: &Entry, kept: &MadeStep) -> bool
    ensures { IsTrue result ↔ (journal_entry entry.now ≡ kept_entry kept.now) }
{
    let receipt = kept.receipt();
    entry.own == receipt.own
        && entry.step.is_same(kept.step())
        && are_same(entry.replies.as_slice(), receipt.replies.as_slice())
}
