//! A map from user names that can be changed in memory that was reserved before.
//!
//! A look-up takes the same time however many users there are.
#![tactic(auto)]

mod change;
mod part;
mod user_map;

pub use change::Change;
pub use part::Part;
pub use user_map::UserMap;
