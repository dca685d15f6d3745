//! Commands on messages: APPEND and FETCH (RFC 9051, sections 6.3.12, 6.4.5 and 6.4.9).
//!
//! Each command is a function from what its user may see, and for FETCH from what the session knows of its
//! mailbox, to an answer.
#![tactic(auto)]

mod append;
mod body_sections;
mod changed;
mod fetch;
pub mod laws;
mod reading;
mod wanted;

pub use append::{AppendArguments, append_answer};
pub use fetch::{FetchArguments, fetch_answer};
pub use imap_resync::{is_malformed, laws as select_laws, select_with_parameters};
