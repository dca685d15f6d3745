//! Commands on the tree of mailboxes and on access control lists: CREATE, DELETE and RENAME (RFC 9051,
//! sections 6.3.4 to 6.3.6), SETACL, DELETEACL, GETACL, LISTRIGHTS and MYRIGHTS (RFC 4314, section 3).
//!
//! Each command is a function from what its user may see to an answer.
#![tactic(auto)]

mod create;
mod delete;
mod get_acl;
mod identifier;
pub mod laws;
mod list_rights;
mod my_rights;
mod new_name;
mod rename;
mod selected;
mod set_acl;

pub use create::create_answer;
pub use delete::delete_answer;
pub use get_acl::get_acl_answer;
pub use list_rights::list_rights_answer;
pub use my_rights::my_rights_answer;
pub use rename::rename_answer;
pub use set_acl::{delete_acl_answer, set_acl_answer};
