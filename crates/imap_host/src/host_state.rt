//! The state of a host, which lies under its lock.

ghost use Rattle.std.specs.Prelude.{◌≡◌, ◌+◌, ◌↔◌, ◌<◌, ◌≤◌, [], length, IfOk, IsTrue, OnErr, OnOk};
ghost use Rattle.imap_serve.specs.Hall.{HasStepped, IsBaseOf, IsTurnedOver, IsUntouched};
ghost use Rattle.imap_serve.specs.Receipts.{IsSameReceipt};

use imap_keeper::Keeper;
use imap_receipts::{PARTS, ReceiptPair};
use imap_serve::{Hall, HallError, OldBase, Step};
use std::alloc::{AllocError, Global};
use std::sync::ledger::{Blank, Book, Ledger, Share};

/// A hall, the book of the ledger that counts its entries, and the parts of the ledger that no seat has.
#[derive(Drop)]
pub struct HostState<K: Keeper, L: Ledger> {
    pub hall: Hall<K>,
    /// How many parts no seat has.
    pub left: u64,
    pub(crate) book: Book<L>,
    pub(crate) rest: Share<L>,
    ghost parts: { rest.parts ≡ left },
    ghost idle: { rest.amount ≡ 0 },
    ghost few: { left ≤ 1048576 },
    ghost counted: { book.total ≡ hall.before + length hall.entries },
}

impl<K: Keeper, L: Ledger> HostState<K, L> {
    /// The state of a host without seats, over a hall without entries.
    pub fn new(hall: Hall<K>, blank: Blank) -> HostState<K, L>
        requires name { blank.name ≡ L.name }
        requires parts { (blank.parts ≡ L.parts) × (blank.parts ≡ 1048576) }
        requires fresh { (hall.before ≡ 0) × (hall.entries ≡ []) }
        ensures left { result.left ≡ 1048576 }
        ensures hall { result.hall ≡ hall }
    {
        let (book, rest) = blank.open::<L>();
        HostState {
            hall,
            left: PARTS,
            book,
            rest,
        }
    }

    /// Whether only one part of the ledger is left, or none.
    pub fn is_full(&self) -> bool
        ensures { IsTrue result ↔ (self.now.left ≤ 1) }
    {
        self.left <= 1
    }

    /// Returns the part of one more seat.
    pub fn part(&mut self) -> Share<L>
        requires { 1 < self.old.left }
        ensures part { (result.parts ≡ 1) × (result.amount ≡ 0) }
        ensures left { self.new.left + 1 ≡ self.old.left }
        ensures hall { self.new.hall ≡ self.old.hall }
    {
        self.left -= 1;
        self.rest.split_off(1, 0)
    }

    /// Makes a step, and adds one to the amount of the seat's share.
    pub fn call(
        &mut self,
        alloc: Global,
        share: &mut Share<L>,
        step: Step,
    ) -> Result<ReceiptPair, HallError>
        requires { 0 < share.old.parts }
        ensures stepped { IfOk result (λ c.
            HasStepped K.failed self.old.hall step c.receipt self.new.hall) }
        ensures step { IfOk result (λ c. c.made.step ≡ step) }
        ensures same { IfOk result (λ c. IsSameReceipt c.receipt c.made.receipt) }
        ensures base { IfOk result (λ c. c.base ≡ self.new.hall.before) }
        ensures parts { share.new.parts ≡ share.old.parts }
        ensures amount { OnOk result (share.new.amount ≡ share.old.amount + 1) }
        ensures err { OnErr result (IsUntouched K.failed self.old.hall self.new.hall) }
        ensures uncounted { OnErr result (share.new.amount ≡ share.old.amount) }
    {
        let HostState {
            hall,
            left: _,
            book,
            rest: _,
        } = self;
        let (receipt, made) = hall.step_pair(alloc, step)?;
        book.add(share, 1);
        Ok(ReceiptPair {
            receipt,
            made,
            base: hall.before(),
        })
    }

    /// Makes the state of the machine the journal's base. Returns the old base, and how many entries were made
    /// before the new one.
    pub fn turn_over(&mut self, alloc: Global) -> Result<(OldBase, u64), AllocError>
        ensures ok { OnOk result (IsTurnedOver self.old.hall self.new.hall) }
        ensures old { IfOk result (λ r. IsBaseOf self.old.hall r.0) }
        ensures base { IfOk result (λ r. r.1 ≡ self.new.hall.before) }
        ensures err { OnErr result (self.new.hall ≡ self.old.hall) }
    {
        let HostState {
            hall,
            left: _,
            book: _,
            rest: _,
        } = self;
        let old = hall.turn_over(alloc)?;
        Ok((old, hall.before()))
    }

    /// Returns the hall.
    pub fn into_hall(self) -> Hall<K>
        ensures { result ≡ self.hall }
    {
        let HostState {
            hall,
            left: _,
            book,
            rest,
        } = self;
        drop(book);
        drop(rest);
        hall
    }
}
