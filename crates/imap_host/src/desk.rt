//! Seats at a host, where their sessions make steps.

ghost use Rattle.std.specs.Prelude.{◌≡◌};
ghost use Rattle.imap_receipts.specs.Keeping.{LetsGo};

use crate::host::Host;
use crate::seat::Seat;
use imap_keeper::Keeper;
use imap_serve::{HallError, Receipt, Room, Step};
use std::alloc::Global;
use std::sync::Wait;
use std::sync::ledger::Ledger;

/// The room of a seat's session: the host, and the seat.
#[derive(Drop)]
pub struct Desk<'a, K: Keeper, L: Ledger, R: Wait> {
    pub rt: &'a R,
    pub host: &'a Host<K, L>,
    pub seat: &'a mut Seat<L>,
}

impl<'a, K: Keeper, L: Ledger, R: Wait> Room for Desk<'a, K, L, R> {
    ghost use Rattle.std.specs.Prelude.{◌≡◌, false, map};
    ghost use Rattle.imap_receipts.specs.Keeping.{kept_entry};

    ghost entries = { λ d. map kept_entry d.seat.now.receipts.items };

    ghost keeps_all = { false };

    ghost count = { λ d. d.seat.now.share.amount };

    // What the host refuses lies under its lock.
    ghost refuses = { λ old step error new. new.seat.now.receipts.items ≡ old.seat.now.receipts.items };

    fn step(&mut self, alloc: Global, step: &Step) -> Result<Receipt, HallError> {
        // A desk refuses the steps of other sessions.
        let seat = &mut *self.seat;
        if !step.who.is_same(&seat.who) {
            return Err(HallError::Exhausted);
        }
        let receipt = self.host.call(self.rt, alloc, seat, step)?;
        turn_if_due(self.rt, alloc, self.host, seat, receipt.place);
        Ok(receipt)
    }

    /// Stays while the mailbox that the session has selected, as its user sees it, stays: other changes ask for no
    /// step of an idling session.
    fn change_count(&self) -> u64 {
        match self.host.selected_version(self.rt, &self.seat.who) {
            Some(version) => u64::from(version.uid_validity)
                .wrapping_shl(32)
                .wrapping_add(version.highest_mod_seq),
            // Any change may be that by which the mailbox is lost.
            None => u64::MAX.wrapping_sub(self.host.changes().get()),
        }
    }
}

/// Makes the journal begin anew, if it should after the entry of this place. It goes on growing if there is no
/// memory for a new base.
#[tactic(auto, using(crate::proofs::LetGo::lets_go_turned, crate::proofs::LetGo::lets_go_same))]
fn turn_if_due<K: Keeper, L: Ledger, R: Wait>(
    rt: &R,
    alloc: Global,
    host: &Host<K, L>,
    seat: &mut Seat<L>,
    place: u64,
)
    ensures who { seat.new.who ≡ seat.old.who }
    ensures receipts { LetsGo seat.old.receipts.items seat.new.receipts.items }
    ensures amount { seat.new.share.amount ≡ seat.old.share.amount }
{
    if !host.is_due(seat, place) {
        return;
    }
    match host.turn_over(rt, alloc, seat) {
        Ok(()) => {}
        Err(_) => {}
    }
}
