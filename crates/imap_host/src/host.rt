//! Hosts.
//!
//! The old base is dropped when the lock is free again. The entries are dropped under the lock, so that the
//! journal keeps its room: with a new list for each turn every worker came to hold a list's two MB.

ghost use Rattle.std.specs.Prelude.{◌≡◌, ◌+◌, [], IfOk, OnErr, OnOk};
ghost use Rattle.std.specs.FinMap as map;
ghost use Rattle.imap_host.specs.Seats.{last_of};
ghost use Rattle.imap_receipts.specs.Keeping.{Remembers, but_newest};

use crate::change_count::ChangeCount;
use crate::host_state::HostState;
use crate::numbers::next_session;
use crate::seat::{Seat, SeatError};
use imap_keeper::Keeper;
use imap_names::UserName;
use imap_receipts::{keep, let_go_but_newest};
use imap_serve::{
    Hall, HallError, MadeStep, MailboxVersion, Receipt, SessionId, Step, entry_octets,
};
use imap_user_map::UserMap;
use std::alloc::{AllocError, Global};
use std::sync::atomic::{AtomicU64, Ordering};
use std::sync::ledger::{Blank, Ledger};
use std::sync::{Mutex, Wait};

/// The number of entries after which the journal begins anew.
const MAX_ENTRIES: u64 = 10_000;

/// The journal begins anew when its entries hold about this much memory.
const MAX_OCTETS: u64 = 4 * 1024 * 1024;

/// It does so too when the receipts of the seat that makes a step hold about this much.
const MAX_SEAT_OCTETS: u64 = 1024 * 1024;

/// A hall under a lock.
#[derive(Drop)]
pub struct Host<K: Keeper, L: Ledger> {
    state: Mutex<HostState<K, L>>,
    /// The number of each user's last seat.
    pub numbers: UserMap<u64>,
    changes: ChangeCount,
    /// About how much memory the entries of the journal hold. It is a hint.
    octets: AtomicU64,
}

/// A host whose lock nobody holds: its state can be seen.
#[derive(Drop)]
pub struct OpenHost<K: Keeper, L: Ledger> {
    pub state: HostState<K, L>,
    pub numbers: UserMap<u64>,
}

impl<K: Keeper, L: Ledger> Host<K, L> {
    /// A host without seats, over a hall without entries.
    pub fn new(alloc: Global, hall: Hall<K>, blank: Blank) -> Host<K, L>
        requires name { blank.name ≡ L.name }
        requires parts { (blank.parts ≡ L.parts) × (blank.parts ≡ 1048576) }
        requires fresh { (hall.before ≡ 0) × (hall.entries ≡ []) }
        ensures { result.numbers.map ≡ map.empty }
    {
        Host::of_open(OpenHost {
            state: HostState::new(hall, blank),
            numbers: UserMap::new(alloc),
        })
    }

    /// A host with this state.
    pub fn of_open(open: OpenHost<K, L>) -> Host<K, L>
        ensures { result.numbers ≡ open.numbers }
    {
        let OpenHost { state, numbers } = open;
        Host {
            state: Mutex::new(state),
            numbers,
            changes: ChangeCount::new(),
            octets: AtomicU64::new(0),
        }
    }

    /// Gives the user one more seat. The seats of each user are numbered from 1. Fails with `Full` if only one
    /// part of the ledger is left.
    pub fn seat(&mut self, alloc: Global, user: UserName) -> Result<Seat<L>, SeatError>
        ensures user { IfOk result (λ s. s.who.user ≡ user) }
        ensures number { IfOk result (λ s. s.who.number ≡ last_of self.old.numbers.map user + 1) }
        ensures noted { IfOk result
            (λ s. self.new.numbers.map ≡ map.insert self.old.numbers.map user s.who.number) }
        ensures bases { IfOk result (λ s. (s.base ≡ 0) × (s.told_base ≡ 0)) }
        ensures fresh { IfOk result (λ s. (s.receipts.items ≡ []) × (s.share.amount ≡ 0)) }
        ensures err { OnErr result (self.new.numbers.map ≡ self.old.numbers.map) }
    {
        let state = self.state.get_mut();
        if state.is_full() {
            return Err(SeatError::Full);
        }
        let who = next_session(&mut self.numbers, alloc, user)?;
        Ok(Seat::new(alloc, who, state.part()))
    }

    /// Makes a step of the seat's own session, and returns its receipt. The seat keeps a second one, and drops those
    /// of entries before the journal's base.
    pub fn call<R: Wait>(
        &self,
        rt: &R,
        alloc: Global,
        seat: &mut Seat<L>,
        step: &Step,
    ) -> Result<Receipt, HallError>
        requires { step.now.who ≡ seat.old.who }
        ensures amount { OnOk result (seat.new.share.amount ≡ seat.old.share.amount + 1) }
        ensures kept { IfOk result (λ r. Remembers seat.new.base seat.old.receipts.items step.now r
            seat.new.receipts.items) }
        ensures who { seat.new.who ≡ seat.old.who }
        ensures told { seat.new.told_base ≡ seat.old.told_base }
        ensures receipts { OnErr result (seat.new.receipts.items ≡ seat.old.receipts.items) }
        ensures base { OnErr result (seat.new.base ≡ seat.old.base) }
        ensures uncounted { OnErr result (seat.new.share.amount ≡ seat.old.share.amount) }
    {
        let Seat {
            who: _,
            base,
            told_base: _,
            receipts,
            share,
            octets,
        } = seat;
        receipts.reserve(1)?;
        let copy = step.try_copy(alloc)?;
        let pair = self.state.lock(rt).call(alloc, share, copy)?;
        self.changes.note(&step.act);
        let more = self.note_octets(&pair.made);
        *octets = octets_with(*octets, more, pair.base != *base);
        *base = pair.base;
        Ok(keep(receipts, pair))
    }

    /// Counts what the entry of a step holds, and returns that.
    fn note_octets(&self, made: &MadeStep) -> u64 {
        let octets = entry_octets(made.step(), made.receipt().replies.as_slice());
        self.octets.fetch_add(octets, Ordering::SeqCst);
        octets
    }

    /// Whether the journal should begin anew after the entry of this place, which the seat made. It is a hint.
    pub(crate) fn is_due(&self, seat: &Seat<L>, place: u64) -> bool {
        place.saturating_sub(seat.base) >= MAX_ENTRIES
            || seat.octets >= MAX_SEAT_OCTETS
            || self.octets.load(Ordering::SeqCst) >= MAX_OCTETS
    }

    /// Makes the state of the machine the journal's base, as [`Hall::turn_over`] does. The seat drops the receipts
    /// of entries before that, but for its newest. The old base is dropped when the lock is free again.
    pub fn turn_over<R: Wait>(
        &self,
        rt: &R,
        alloc: Global,
        seat: &mut Seat<L>,
    ) -> Result<(), AllocError>
        ensures who { seat.new.who ≡ seat.old.who }
        ensures receipts { OnOk result
            (seat.new.receipts.items ≡ but_newest seat.new.told_base seat.old.receipts.items) }
        ensures base { OnOk result (seat.new.base ≡ seat.new.told_base) }
        ensures amount { seat.new.share.amount ≡ seat.old.share.amount }
        ensures kept { OnErr result (seat.new.receipts.items ≡ seat.old.receipts.items) }
        ensures err { OnErr result (seat.new.base ≡ seat.old.base) }
        ensures untold { OnErr result (seat.new.told_base ≡ seat.old.told_base) }
    {
        let (old, base) = self.state.lock(rt).turn_over(alloc)?;
        self.octets.store(0, Ordering::SeqCst);
        seat.base = base;
        seat.told_base = base;
        seat.octets = 0;
        let_go_but_newest(&mut seat.receipts, base);
        drop(old);
        Ok(())
    }

    /// Returns the count of steps after which sessions may be told something.
    pub fn changes(&self) -> &ChangeCount {
        &self.changes
    }

    /// Ends the host, and returns its hall.
    pub fn into_hall(self) -> Hall<K> {
        let OpenHost { state, numbers: _ } = self.into_open();
        state.into_hall()
    }

    /// Returns the version of the mailbox that the session has selected now, as [`Hall::selected_version`] does.
    pub fn selected_version<R: Wait>(&self, rt: &R, who: &SessionId) -> Option<MailboxVersion> {
        self.state.lock(rt).hall.selected_version(who)
    }

    /// Returns the host as nobody holds its lock.
    pub fn into_open(self) -> OpenHost<K, L>
        ensures { result.numbers ≡ self.numbers }
    {
        let Host {
            state,
            numbers,
            changes: _,
            octets: _,
        } = self;
        OpenHost {
            state: state.into_inner(),
            numbers,
        }
    }
}

/// What the receipts of a seat hold with one more. A seat that learns of a new base lets go of all that it has.
fn octets_with(octets: u64, more: u64, is_new_base: bool) -> u64 {
    if is_new_base {
        more
    } else {
        octets.saturating_add(more)
    }
}
