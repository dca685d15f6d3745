//! Seats.
//!
//! A seat lets go of receipts from before the journal's base at each call, since a session may last for
//! weeks. Nobody else can: while a session rests, its worker has the seat. So a seat that holds much makes the
//! journal begin anew, and then lets go of all its receipts but the newest.

ghost use Rattle.std.specs.Prelude.{◌≡◌, []};

use imap_serve::{MadeStep, SessionId};
use std::alloc::{AllocError, Global};
use std::collections::VecDeque;
use std::sync::ledger::{Ledger, Share};
use thiserror::Error;

/// A session at a host, with the receipts of its steps since the journal's base.
#[derive(Drop)]
pub struct Seat<L: Ledger> {
    pub who: SessionId,
    /// How many entries were made before the journal's base, as of the seat's last call.
    pub base: u64,
    /// The same, as of the seat's last call of [`Host::turn_over`](crate::Host::turn_over); 0 if there was none.
    pub told_base: u64,
    pub receipts: VecDeque<MadeStep>,
    pub(crate) share: Share<L>,
    /// About how much memory the receipts hold. It is a hint.
    pub(crate) octets: u64,
    ghost one_part: { share.parts ≡ 1 },
}

impl<L: Ledger> Seat<L> {
    /// A seat without receipts.
    pub(crate) fn new(alloc: Global, who: SessionId, share: Share<L>) -> Seat<L>
        requires { share.parts ≡ 1 }
        ensures who { result.who ≡ who }
        ensures bases { (result.base ≡ 0) × (result.told_base ≡ 0) }
        ensures receipts { result.receipts.items ≡ [] }
        ensures amount { result.share.amount ≡ share.amount }
    {
        Seat {
            who,
            base: 0,
            told_base: 0,
            receipts: VecDeque::new(alloc),
            share,
            octets: 0,
        }
    }

    /// Ends the seat, and returns its share of the ledger.
    pub(crate) fn into_share(self) -> Share<L>
        ensures parts { result.parts ≡ 1 }
        ensures amount { result.amount ≡ self.share.amount }
    {
        let Seat {
            who,
            base: _,
            told_base: _,
            receipts,
            share,
            octets: _,
        } = self;
        drop(who);
        drop(receipts);
        share
    }
}

/// Why a host has no seat left.
#[derive(Clone, Copy, Debug, Error)]
pub enum SeatError {
    /// Only one part of the ledger is left.
    #[error("no seat is left")]
    Full,
    #[error("out of memory")]
    Memory,
}

impl From<AllocError> for SeatError {
    ghost use Rattle.imap_host.specs.declared.seat.SeatError.TheVariants as error;

    ghost from_gives = { λ _ e. e ≡ error.Memory };

    fn from(_error: AllocError) -> SeatError {
        SeatError::Memory
    }
}
