//! Names of mailboxes by their trees and paths.

ghost use Rattle.std.specs.Prelude.{◌≡◌, ◌≢◌, ◌↔◌, [], IfOk, IsTrue, MatchOption, string_bytes};
ghost use Rattle.imap_names.specs.Name.{Name, path_of};
ghost use Rattle.imap_names.specs.Showing.{shown};
ghost use Rattle.imap_names.specs.Valid.{IsName};
ghost use Rattle.imap_records.specs.Columns.{tree_at, tree_text};
ghost use Rattle.imap_stored_values.specs.Restored.{HasKey, HasKeyOf, Restores};

use imap_mailbox::PartsError;
use imap_names::{Name, NameError, NameRef, read_full};
use imap_tables::MailboxKey;
use std::alloc::{AllocError, Global};

/// Reads the name of a mailbox from its tree, `s` or `u/` and the owner's name, and its path. Fails with
/// `Bad` if no mailbox has them.
pub fn read_key(alloc: Global, key: &MailboxKey) -> Result<Name, PartsError>
    ensures { Restores (HasKeyOf key.now) IsName result }
{
    match full_text(alloc, &key.tree, &key.path)? {
        Some(text) => read_checked(alloc, key, &text),
        None => Err(PartsError::Bad),
    }
}

/// The text that names the mailbox in full, if there is such a tree.
fn full_text(alloc: Global, tree: &str, path: &str) -> Result<Option<String>, AllocError>
    ensures { IfOk result (λ text. MatchOption text
        ((name : Name) → IsName name → tree_text name ≡ tree.now → ⊥)
        (λ text. (name : Name) → HasKey tree.now path.now name → string_bytes text ≡ shown [] name)) }
{
    if tree == "s" {
        return Ok(Some(format!(in alloc; "Shared/{path}")?));
    }
    match tree.strip_prefix("u/") {
        Some(owner) => Ok(Some(format!(in alloc; "Other Users/{owner}/{path}")?)),
        None => Ok(None),
    }
}

/// Reads a text that names a mailbox in full, and compares what it names with the key.
fn read_checked(alloc: Global, key: &MailboxKey, text: &str) -> Result<Name, PartsError>
    requires { (name : Name) → HasKeyOf key.now name → text.now ≡ shown [] name }
    ensures { Restores (HasKeyOf key.now) IsName result }
{
    match read_full(alloc, text.as_bytes()) {
        Ok(name) => checked(key, name),
        Err(error) => Err(refusal(error)),
    }
}

/// A text that names nothing is bad.
fn refusal(error: NameError) -> PartsError
    ensures { result ≡ PartsError.Bad → error ≢ NameError.Memory }
{
    match error {
        NameError::Memory => PartsError::Memory,
        NameError::EmptyComponent
        | NameError::TooLong
        | NameError::TooDeep
        | NameError::Reserved
        | NameError::Control => PartsError::Bad,
    }
}

/// The name, if it has the key.
fn checked(key: &MailboxKey, name: Name) -> Result<Name, PartsError>
    requires { (other : Name) → IsName other → HasKeyOf key.now other → other ≡ name }
    ensures { Restores (HasKeyOf key.now) IsName result }
{
    if has_key(&name.as_ref(), &key.tree, &key.path) {
        Ok(name)
    } else {
        Err(PartsError::Bad)
    }
}

fn has_key(name: &NameRef<'_>, tree: &str, path: &str) -> bool
    ensures { IsTrue result ↔ HasKey tree.now path.now name.now }
{
    is_tree(name.root(), tree) && name.path() == path
}

/// Whether names with this root have this tree.
fn is_tree(root: &str, tree: &str) -> bool
    ensures { IsTrue result ↔ (tree_at root.now ≡ tree.now) }
{
    if root.is_empty() {
        return tree == "s";
    }
    match tree.strip_prefix("u/") {
        Some(owner) => owner == root,
        None => false,
    }
}
