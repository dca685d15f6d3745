//! Keeps the mailboxes in a SQL database, which outlives the program.
#![tactic(auto)]

mod adopting;
mod diagnosing;
mod loading;
mod locating;
mod refusal;
mod saving;
mod sql_keeper;
mod taking;

pub use locating::Finding;
pub use sql_keeper::SqlKeeper;
