//! What finds mailboxes by the identifiers in their access control lists, and by the roots of their trees.
//!
//! Each mailbox has a number, and each identifier the numbers of the mailboxes whose lists have an entry of
//! it. So RENAME changes names and no set. Room is made before, and what is changed then takes no memory.
//!
//! An index that finds no room is not whole any more, and tells nothing: then all mailboxes are to be walked.
//! The same becomes of one that is handed a number under which another name stands.
#![tactic(auto)]

mod identifier_index;
mod names;
mod numbers;
mod sets;

pub use identifier_index::{IdentifierIndex, Numbered};
