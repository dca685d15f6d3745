//! SEARCH and UID SEARCH (RFC 9051, sections 6.4.4 and 6.4.9).
//!
//! The answer is a function from what the user may see, and from what the session knows of its mailbox. A
//! message is looked at as it is now, and not as the session was last told.
#![tactic(auto)]

mod field_texts;
mod flags;
mod key;
mod key_facts;
pub mod laws;
mod message_texts;
mod needles;
mod ranges;
mod ready_key;
mod results;
mod search;
mod span;
mod texts;

pub use search::{SearchArguments, search_answer};
