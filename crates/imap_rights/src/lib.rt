//! Access rights of mailboxes (RFC 4314): sets of rights, identifiers, groups of users, access control lists
//! and effective rights.
#![tactic(auto)]

mod acl;
mod change;
mod group_names;
mod groups;
mod identifier;
pub mod laws;
mod rights;
mod sameness;
mod shared_groups;
mod sorting;

pub use acl::{Acl, AclError, Entry, MAX_ENTRIES};
pub use change::{RightsChange, read_rights};
pub use groups::Groups;
pub use identifier::{Identifier, IdentifierError, MAX_IDENTIFIER_OCTETS};
pub use rights::Rights;
pub use shared_groups::SharedGroups;
