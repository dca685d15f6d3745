//! Sessions of many users side by side over one hall.
//!
//! A [`Host`] has its [`Hall`] under a lock, which is held for the length of one step. Each
//! session has a [`Seat`], which keeps its receipts. [`crew`] runs a worker for each seat, which serves the
//! connections that come through a door, one after the other. [`Host::settle`] ends a host with all its seats, if
//! the journal and the receipts say the same.
#![tactic(auto)]

mod change_count;
mod comparing;
mod desk;
mod door;
mod host;
mod host_state;
mod numbers;
mod seat;
mod settling;
mod telling;
mod workers;

pub use change_count::ChangeCount;
pub use desk::Desk;
pub use door::Door;
pub use host::{Host, OpenHost};
pub use host_state::HostState;
pub use imap_receipts::{PARTS, ReceiptPair, SettleError};
pub use imap_serve::{End, Gate, Hall, Moment, Moments, OpenError, ServeError, SessionId};
pub use seat::{Seat, SeatError};
pub use workers::{CrewError, crew};
