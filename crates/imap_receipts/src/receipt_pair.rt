//! The receipt of a step, twice.

ghost use Rattle.std.specs.Prelude.{◌≡◌, ◌<◌, ◌++◌, ◌∷◌, []};
ghost use Rattle.std.specs.VecDeque.{deque_capacity, deque_len};
ghost use Rattle.imap_receipts.specs.Keeping.{from_base};

use crate::kept::let_go;
use imap_hall::{MadeStep, Receipt};
use std::collections::VecDeque;

/// The receipt of a step, the step with its receipt once more, and where the journal's base is.
#[derive(Drop)]
pub struct ReceiptPair {
    pub receipt: Receipt,
    pub made: MadeStep,
    /// How many entries were made before the base.
    pub base: u64,
}

/// Drops the receipts of entries before the base, appends the step with its receipt, and returns the other receipt.
pub fn keep(receipts: &mut VecDeque<MadeStep>, pair: ReceiptPair) -> Receipt
    requires { deque_len receipts.old < deque_capacity receipts.old }
    ensures receipt { result ≡ pair.receipt }
    ensures kept { receipts.new.items ≡ from_base pair.base receipts.old.items ++ pair.made ∷ [] }
{
    let ReceiptPair {
        receipt,
        made,
        base,
    } = pair;
    let_go(receipts, base);
    receipts.push_back_reserved(made);
    receipt
}
