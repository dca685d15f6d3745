//! The text by which a user names a mailbox.
ghost use Rattle.std.specs.Prelude.{◌≡◌, string_bytes, IfOk, Ok};
ghost use Rattle.imap_names.specs.Reading.{name_read};
ghost use Rattle.imap_names.specs.Showing.{shown};
ghost use Rattle.imap_names.specs.Valid.{IsName};

use crate::name::Name;
use crate::user_name::UserName;
use std::alloc::{AllocError, Global};

/// The path alone in the user's own tree, else behind the prefix of its namespace (RFC 9051, section 5.1.2).
pub fn show_name(alloc: Global, user: &UserName, name: &Name) -> Result<String, AllocError>
    ensures text { IfOk result (λ text. string_bytes text ≡ shown user.now name.now) }
    ensures reads_back { name_read user.now (shown user.now name.now) ≡ Ok name.now }
    ensures valid { IsName name.now }
{
    let owner = name.tree.root();
    let path = name.path.as_str();
    if owner.is_empty() {
        format!(in alloc; "Shared/{path}")
    } else if owner == user.as_str() {
        String::from_str(alloc, path)
    } else {
        format!(in alloc; "Other Users/{owner}/{path}")
    }
}
