//! Maps from mailbox names to values, in the order of the names.
//!
//! In this order a name and all names below it stand together, so that they are one slice of the entries.
#![tactic(auto)]

mod copies;
mod edits;
mod moves;
pub mod name_map;
pub mod numbers;
mod places;
mod run_edits;
mod sameness;
mod sorting;

pub use name_map::NameMap;
