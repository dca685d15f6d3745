//! Journals are compared with the receipts that seats keep.

ghost use Rattle.std.specs.Prelude.{◌↔◌, IsTrue, map};
ghost use Rattle.imap_serve.specs.Hall.{journal_entry};
ghost use Rattle.imap_receipts.specs.Settling.{AreSettled};
ghost use Rattle.imap_host.specs.Seats.{notes_of};

use crate::seat::Seat;
use imap_receipts::count_since;
use imap_serve::Entry;
use std::sync::ledger::Ledger;

/// Whether the journal and the seats agree. Each entry since the base has one receipt, which has the entry's place,
/// session, number, step and replies, and the greatest base that a turn-over told a seat is the journal's. `before`
/// is how many entries were made before the base.
pub(crate) fn are_settled<L: Ledger>(before: u64, entries: &[Entry], seats: &[Seat<L>]) -> bool
    ensures { IsTrue result ↔ AreSettled before (map journal_entry entries.now) (map notes_of seats.now) }
{
    let mut left = entries.len() as u64;
    let mut base = 0;
    for seat in seats {
        match count_since(before, entries, &seat.who, &seat.receipts) {
            Some(count) if count <= left => left -= count,
            _ => return false,
        }
        base = base.max(seat.told_base);
    }
    left == 0 && base == before
}
