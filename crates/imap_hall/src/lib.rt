//! The machine with its keeper, and the journal of all steps that were made.
//!
//! A [`Hall`] makes each step whole: the change is saved before it is committed, and the journal has an entry
//! for it. A change that the store refused is answered UNAVAILABLE (RFC 5530), and changes nothing.
#![tactic(auto)]

mod advancing;
mod counts;
mod error;
mod hall;
mod journal;
pub mod laws;
mod made_step;
mod memory;
mod opening;
mod own_counts;
mod room;

pub use error::{HallError, OpenError};
pub use hall::Hall;
pub use imap_saving::{
    Act, Core, MailboxVersion, Moment, SessionId, SessionNumber, SharedReplies, Step,
};
pub use journal::{Entry, OldBase, Receipt};
pub use made_step::MadeStep;
pub use memory::{entry_octets, reply_octets};
pub use room::Room;
