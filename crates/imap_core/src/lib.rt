//! The machine of the server: what each step of a session is answered, and what it changes.
//!
//! [`Core`] holds the mailboxes and the open sessions of all users. A step is made in two halves:
//! [`Core::prepare`] finds the replies and the change, and may be refused for want of memory;
//! [`Core::commit`] makes them, and cannot.
//!
//! What a user is answered is defined in `specs/Reply.antt` by what that user may see (`imap_view`) and
//! by the user's own sessions, and by nothing else.
#![tactic(auto)]

mod commands;
mod effects;
mod frames;
mod idling;
pub mod laws;
mod machine;
mod mailbox_version;
mod notices;
mod opening;
mod outcome;
mod pending;
mod reply;
mod step;

pub use imap_answer::Moment;
pub use imap_sessions::{SessionEffect, SessionId, SessionNumber};
pub use machine::{Core, Prepared};
pub use mailbox_version::MailboxVersion;
pub use step::{Act, Step};
