//! Keeps the mailboxes where they outlive the program, or in memory.
//!
//! A [`Keeper`] holds a world. It saves each change of it, and gives the world back.
#![tactic(auto)]

mod damage;
mod error;
mod keeper;
pub mod laws;
mod list_keeper;
mod refuser;

pub use damage::{Damage, RowFault};
pub use error::{KeepError, count_after};
pub use keeper::Keeper;
pub use list_keeper::ListKeeper;
pub use refuser::Refuser;
