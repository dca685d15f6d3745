//! The rows of a world: which of them a change writes, and that the tables stand for the changed world then.
#![tactic(auto)]

mod batch;
mod change;
mod columns;
pub mod laws;
mod list;
mod tree;

pub use change::row_changes;
pub use columns::{date_text, key_of, keywords_text};
