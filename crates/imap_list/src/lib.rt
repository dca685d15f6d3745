//! LIST, NAMESPACE, STATUS, SUBSCRIBE and UNSUBSCRIBE (RFC 9051, section 6.3).
//!
//! `imap_listing` finds what is listed.
#![tactic(auto)]

pub mod laws;
mod list_arguments;
mod list_command;
mod status;
mod subscriptions;

pub use list_arguments::ListArguments;
pub use list_command::{list_answer, namespace_answer};
pub use status::status_answer;
pub use subscriptions::{subscribe_answer, unsubscribe_answer};
