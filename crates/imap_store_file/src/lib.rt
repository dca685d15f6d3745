//! The store in a file: served from, looked at, written as folders of messages, and filled from them.
//!
//! [`serve`] serves users from it. [`perform`] does a [`StoreTask`] over a store that nobody is served from. Both tell
//! standard error why they couldn't, and return the exit status.
#![tactic(auto)]

mod checking;
mod database_file;
mod dumping;
mod loading;
mod pair;
mod salts;
mod serving;
mod store;
mod store_look;
mod tasks;
mod told_progress;
mod unchanged;

pub use serving::serve;
pub use tasks::{StoreTask, perform};
