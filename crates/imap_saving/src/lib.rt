//! A step of the machine, saved before it is told: its replies are kept, its change is saved and committed.
//!
//! [`make_ready`] prepares a step with copies of its replies, so that [`perform`] needs no memory but for the store. A
//! change that the store refuses is answered UNAVAILABLE (RFC 5530), and changes nothing.
#![tactic(auto)]

mod performing;
mod ready;
mod replies;
mod saving;
mod shared_replies;

pub use imap_core::{Act, Core, MailboxVersion, Moment, SessionId, SessionNumber, Step, laws};
pub use performing::perform;
pub use ready::{Ready, make_ready};
pub use replies::Replies;
pub use saving::save_change;
pub use shared_replies::SharedReplies;
