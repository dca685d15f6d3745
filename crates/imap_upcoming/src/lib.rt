//! A mailbox as a change that is not yet written will leave it to its user.
//!
//! What a session is told at the end of a command is found before the command's change is written.
//! [`Upcoming::after`] finds the mailbox as it will be from the mailbox as it is and from the change, without
//! memory: no mailbox, list or row is copied. The messages are lent one after another ([`UpcomingRows`]).
#![tactic(auto)]

mod changed;
mod counts;
pub mod laws;
mod planned_rows;
mod source;
mod upcoming;
mod upcoming_messages;
mod upcoming_rows;

pub use planned_rows::PlannedRows;
pub use upcoming::Upcoming;
pub use upcoming_messages::UpcomingMessages;
pub use upcoming_rows::UpcomingRows;
