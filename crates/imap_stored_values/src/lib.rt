//! Values and names, read again from rows.
//!
//! A value that was kept is read again; anything else is refused as damaged.
#![tactic(auto)]

mod lists;
mod names;
mod rows;
mod values;

pub use lists::{read_epochs, read_subscriptions};
pub use names::read_key;
pub use rows::{read_change, read_entry, read_gone, read_message};
pub use values::{read_count, read_flags};
