//! The mailboxes of a store, read again from its rows.
#![tactic(auto)]

mod below;
mod diagnosing;
mod grouping;
pub mod laws;
mod making;
mod message_rows;
mod parts;
mod restoring;
mod taking;

pub use below::{Restore, read_below};
pub use diagnosing::find_damage;
pub use restoring::{restore, restore_split};
