//! The end of a host.

ghost use Rattle.std.specs.Prelude.{◌≡◌, ◌+◌, ◌<◌, ◌≤◌, IfErr, IfOk, OnOk, length, map, sum_by, vec_len};
ghost use Rattle.imap_host.specs.Seats.{notes_of};
ghost use Rattle.imap_receipts.specs.Settling.{AreSettled};
ghost use Rattle.imap_receipts.specs.declared.settling.SettleError.TheVariants as error;

use crate::comparing::are_settled;
use crate::host::{Host, OpenHost};
use crate::host_state::HostState;
use crate::seat::Seat;
use imap_keeper::Keeper;
use imap_receipts::{SettleError, check_settled};
use imap_serve::Hall;
use std::sync::ledger::{Ledger, Share};

/// Joins the shares of the seats with `rest`.
fn join<L: Ledger>(rest: Share<L>, seats: Vec<Seat<L>>) -> Share<L>
    requires { rest.parts ≤ L.parts }
    ensures parts { result.parts ≡ rest.parts + vec_len seats }
    ensures amount { result.amount ≡ rest.amount + sum_by (λ s. s.share.amount) seats.items }
    ensures bound { result.parts ≤ L.parts }
{
    let mut all = rest;
    for seat in seats {
        all.merge(seat.into_share());
    }
    all
}

impl<K: Keeper, L: Ledger> HostState<K, L> {
    /// Ends the host, whose seats are all of `seats`, and returns its hall: the seats were given one receipt for each
    /// entry, and keep those since the base. Fails with `Missing` if a seat is left out, and with `Mismatch` if the
    /// journal and the receipts differ. A refusal returns the state and the seats.
    pub fn settle(
        self,
        seats: Vec<Seat<L>>,
    ) -> Result<Hall<K>, (SettleError, HostState<K, L>, Vec<Seat<L>>)>
        requires { L.parts ≡ 1048576 }
        ensures hall { IfOk result (λ h. h ≡ self.hall) }
        ensures whole { OnOk result (self.left + vec_len seats ≡ 1048576) }
        ensures settled { OnOk result
            (AreSettled self.hall.before self.hall.entries (map notes_of seats.items)) }
        ensures counted { OnOk result (self.hall.before + length self.hall.entries
            ≡ sum_by (λ s. s.share.amount) seats.items) }
        ensures missing { IfErr result (λ e. e.0 ≡ error.Missing → self.left + vec_len seats < 1048576) }
        ensures mismatch { IfErr result (λ e. e.0 ≡ error.Mismatch → (1048576 ≤ self.left + vec_len seats)
            × (AreSettled self.hall.before self.hall.entries (map notes_of seats.items) → ⊥)) }
        ensures kept { IfErr result (λ e. (e.1 ≡ self) × (e.2 ≡ seats)) }
    {
        let are_settled = are_settled(self.hall.before(), self.hall.entries(), seats.as_slice());
        if let Err(error) = check_settled(self.left, seats.len() as u64, are_settled) {
            return Err((error, self, seats));
        }
        let HostState {
            hall,
            left: _,
            mut book,
            rest,
        } = self;
        let mut all = join(rest, seats);
        book.audit(&mut all);
        Ok(hall)
    }
}

impl<K: Keeper, L: Ledger> Host<K, L> {
    /// As [`HostState::settle`]. A refusal returns the host open, so that its state can be seen.
    pub fn settle(
        self,
        seats: Vec<Seat<L>>,
    ) -> Result<Hall<K>, (SettleError, OpenHost<K, L>, Vec<Seat<L>>)>
        requires { L.parts ≡ 1048576 }
        ensures counted { IfOk result (λ h. h.before + length h.entries
            ≡ sum_by (λ s. s.share.amount) seats.items) }
        ensures settled { IfOk result (λ h. AreSettled h.before h.entries (map notes_of seats.items)) }
        ensures missing { IfErr result
            (λ e. e.0 ≡ error.Missing → e.1.state.left + vec_len seats < 1048576) }
        ensures mismatch { IfErr result (λ e. e.0 ≡ error.Mismatch
            → (1048576 ≤ e.1.state.left + vec_len seats)
            × (AreSettled e.1.state.hall.before e.1.state.hall.entries (map notes_of seats.items) → ⊥)) }
        ensures kept { IfErr result (λ e. (e.1.numbers ≡ self.numbers) × (e.2 ≡ seats)) }
    {
        let OpenHost { state, numbers } = self.into_open();
        match state.settle(seats) {
            Ok(hall) => {
                drop(numbers);
                Ok(hall)
            }
            Err((error, state, seats)) => Err((error, OpenHost { state, numbers }, seats)),
        }
    }
}
