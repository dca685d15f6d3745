//! The receipts that a seat keeps, and how they are compared with the journal.
//!
//! A seat is given each receipt twice, once with its step: [`keep`] keeps that, and returns the other. At the end
//! [`count_since`] compares what is kept with the journal, and [`check_settled`] says why a host isn't ended.
#![tactic(auto)]

mod comparing;
mod kept;
mod receipt_pair;
mod settling;

pub use comparing::count_since;
pub use kept::{let_go, let_go_but_newest};
pub use receipt_pair::{ReceiptPair, keep};
pub use settling::{PARTS, SettleError, check_settled};
