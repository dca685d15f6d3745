//! Commands that change messages: STORE, EXPUNGE, COPY, MOVE, their forms by UID, and CLOSE (RFC 9051, sections 6.4.1,
//! 6.4.3 and 6.4.6 to 6.4.9).
//!
//! Each command is a function from what its user may see, and from what the session knows of its mailbox, to
//! an answer.
#![tactic(auto)]

mod copied_uids;
mod copies;
mod copying;
mod expunge;
pub mod laws;
mod moving;
mod room;
mod store;
mod store_flags;
mod store_lines;
mod store_outcome;
mod transfer;
mod transfer_arguments;
mod transfer_kind;
mod unchanged_since;

pub use expunge::{close_answer, expunge_answer, uid_expunge_answer};
pub use store::{StoreArguments, store_answer};
pub use transfer::transfer_answer;
pub use transfer_arguments::TransferArguments;
pub use transfer_kind::TransferKind;
