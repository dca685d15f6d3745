//! What a client that was away is told: the messages that went, and SELECT and EXAMINE with parameters (RFC 7162).
//!
//! [`select_with_parameters`] answers SELECT and EXAMINE. [`vanished_lines`] is the line VANISHED (EARLIER), which
//! UID FETCH has too. [`laws`] say that a client which follows the lines of SELECT holds the mailbox.
#![tactic(auto)]

mod changed;
pub mod laws;
mod select;
mod uid_set;
mod vanished;

pub use select::{is_malformed, select_with_parameters};
pub use uid_set::UidSet;
pub use vanished::vanished_lines;
