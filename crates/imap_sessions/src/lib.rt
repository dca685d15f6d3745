//! The open sessions of all users, what a step asks of one, and the notices of one.
//!
//! The sessions of each user have numbers of their own ([`SessionId`]). [`accounts::change_session`] makes what a
//! step asks of its session ([`SessionEffect`]), without memory: [`accounts::reserve_known`] made the room before.
//!
//! [`notices_of`] finds what the session is told of its selected mailbox, from the mailbox as a change that is not
//! yet written will leave it ([`PlannedChange`]).
#![tactic(auto)]

pub mod accounts;
mod notices;
mod open_session;
mod session_id;
mod sessions;

pub use imap_upcoming::Upcoming;
pub use notices::{
    PlannedChange, mailbox_left, may_tell_expunges, notices_of, notices_of_mailbox, noting,
};
pub use session_id::{SessionId, SessionNumber};
pub use sessions::{OwnSessions, SessionEffect, room_needed};
