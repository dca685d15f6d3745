//! Receipts that are kept, each with its step.

ghost use Rattle.std.specs.Prelude.{◌≡◌, ◌≤◌};
ghost use Rattle.std.specs.VecDeque.{deque_capacity, deque_len};
ghost use Rattle.imap_receipts.specs.Keeping.{begins_before, but_newest, from_base, has_more_before};

use imap_hall::MadeStep;
use std::collections::VecDeque;

/// Drops the receipts at the front that are of entries before the base.
#[tactic(auto, using(crate::proofs::LetGo::none_left, crate::proofs::LetGo::one_less))]
pub fn let_go(receipts: &mut VecDeque<MadeStep>, base: u64)
    ensures items { receipts.new.items ≡ from_base base receipts.old.items }
    ensures len { deque_len receipts.new ≤ deque_len receipts.old }
    ensures capacity { deque_capacity receipts.new ≡ deque_capacity receipts.old }
{
    while begins_before(receipts, base) {
        drop(receipts.pop_front());
    }
}

/// Whether the first receipt is of an entry before the base.
fn begins_before(receipts: &VecDeque<MadeStep>, base: u64) -> bool
    ensures { result ≡ begins_before base receipts.now.items }
{
    match receipts.front() {
        Some(kept) => kept.receipt().place <= base,
        None => false,
    }
}

/// Drops the receipts at the front that are of entries before the base, but for the newest of all.
#[tactic(auto, using(crate::proofs::LetGo::no_more_left, crate::proofs::LetGo::one_less_kept))]
pub fn let_go_but_newest(receipts: &mut VecDeque<MadeStep>, base: u64)
    ensures { receipts.new.items ≡ but_newest base receipts.old.items }
{
    while has_more_before(receipts, base) {
        drop(receipts.pop_front());
    }
}

/// Whether the first receipt is of an entry before the base, and not the only one.
#[tactic(auto, using(crate::proofs::LetGo::more_than_one, crate::proofs::LetGo::at_most_one))]
fn has_more_before(receipts: &VecDeque<MadeStep>, base: u64) -> bool
    ensures { result ≡ has_more_before base receipts.now.items }
{
    receipts.len() > 1 && begins_before(receipts, base)
}
