//! Reading a name from the octets of a command.
ghost use Rattle.std.specs.Prelude.{◌≡◌, ℕ, List, ◌∷◌, false, true, chars, string_bytes, option_copied};
ghost use Rattle.std.specs.Prelude.{length, IfOk, Err};
ghost use Rattle.std.specs.List.{list_any};
ghost use Rattle.std.specs.Str.{IsUtf8};
ghost use Rattle.unicode_normalization.specs.Forms.{is_nfc};
ghost use Rattle.imap_names.specs.Answer.{AnswersIfMemory, AnswersAsIfMemory, FailsBy};
ghost use Rattle.imap_names.specs.Name.{is_empty};
ghost use Rattle.imap_names.specs.Reading.{parts_of, other_parts, is_own, own_root, other_root, root_at};
ghost use Rattle.imap_names.specs.Reading.{path_fault, name_in, name_at, read_by, name_read, full_name_read};
ghost use Rattle.imap_names.specs.Text.{components_of, has_control};
ghost use Rattle.imap_names.specs.Tree.{root_of_tree};
ghost use Rattle.imap_names.specs.Valid.{is_reserved, is_inbox_word, is_prefix_word, held_path, is_root};
ghost use Rattle.imap_names.specs.Valid.{IsName};

use crate::error::NameError;
use crate::name::{MAX_DEPTH, MAX_PATH_OCTETS, Name, Tree};
use crate::user_name::UserName;
use std::alloc::{AllocError, Global};
use std::str;
use std::sync::ArcStr;
use unicode_normalization::to_nfc;

/// The namespace that a text names by its prefix (RFC 9051, section 5.1.2).
#[derive(Clone, Copy)]
pub(crate) enum Namespace {
    Personal,
    OtherUsers,
    Shared,
    /// A prefix without a path.
    Bare,
}

/// A text by the parts of a name, as they are written: its namespace, the owner that it names there, and
/// its path.
#[derive(Clone, Copy)]
pub(crate) struct NameParts<'a> {
    pub(crate) namespace: Namespace,
    pub(crate) owner: &'a str,
    pub(crate) path: &'a str,
}

/// The name that a text means for `user`.
///
/// Octets that are not UTF-8, and a prefix alone, are refused before memory is taken, other texts after it.
pub fn read_name(alloc: Global, user: &UserName, text: &[u8]) -> Result<Name, NameError>
    ensures read { AnswersIfMemory result (name_read user.now text.now) }
    ensures valid { IfOk result IsName }
    ensures not_text { ¬ (IsUtf8 text.now) → result ≡ Err NameError.Control }
    ensures bare { is_prefix_word text.now ≡ true → result ≡ Err NameError.Reserved }
{
    read_by(alloc, Some(user), text)
}

/// The name that a text in full means: `Other Users/NAME/PATH`, of every user, or `Shared/PATH`.
///
/// Octets that are not UTF-8, and a prefix alone, are refused before memory is taken, other texts after it.
pub fn read_full(alloc: Global, text: &[u8]) -> Result<Name, NameError>
    ensures read { AnswersIfMemory result (full_name_read text.now) }
    ensures valid { IfOk result IsName }
    ensures not_text { ¬ (IsUtf8 text.now) → result ≡ Err NameError.Control }
    ensures bare { is_prefix_word text.now ≡ true → result ≡ Err NameError.Reserved }
{
    read_by(alloc, None, text)
}

fn read_by(alloc: Global, own: Option<&UserName>, text: &[u8]) -> Result<Name, NameError>
    ensures read { AnswersIfMemory result (read_by (option_copied own.entry) text.now) }
    ensures valid { IfOk result IsName }
    ensures not_text { ¬ (IsUtf8 text.now) → result ≡ Err NameError.Control }
    ensures bare { is_prefix_word text.now ≡ true → result ≡ Err NameError.Reserved }
{
    let Ok(text) = str::from_utf8(text) else {
        return Err(NameError::Control);
    };
    if is_prefix_word(text) {
        return Err(NameError::Reserved);
    }
    let parts = parts_of(text);
    let owner = to_nfc(alloc, parts.owner)?;
    let path = to_nfc(alloc, parts.path)?;
    name_at(alloc, own, parts.namespace, owner.as_str(), path)
}

/// The name in the namespace, with an owner and a path in NFC.
fn name_at(
    alloc: Global,
    own: Option<&UserName>,
    namespace: Namespace,
    owner: &str,
    path: String,
) -> Result<Name, NameError>
    requires { is_nfc (chars (string_bytes path)) ≡ true }
    ensures read { AnswersIfMemory result
        (name_at (option_copied own.entry) namespace owner.now (string_bytes path)) }
    ensures valid { IfOk result IsName }
{
    if has_control(owner) || has_control(path.as_str()) {
        return Err(NameError::Control);
    }
    let tree = tree_at(alloc, own, namespace, owner)?;
    name_in(alloc, tree, path)
}

/// The parts of a text that is no prefix alone.
pub(crate) fn parts_of(text: &str) -> NameParts<'_>
    requires { is_prefix_word text.now ≡ false }
    ensures namespace { result.namespace ≡ (parts_of text.now).namespace }
    ensures owner { result.owner.now ≡ (parts_of text.now).owner }
    ensures path { result.path.now ≡ (parts_of text.now).path }
{
    if let Some(path) = text.strip_prefix("Shared/") {
        return NameParts {
            namespace: Namespace::Shared,
            owner: "",
            path,
        };
    }
    match text.strip_prefix("Other Users/") {
        Some(rest) => other_parts(rest),
        None => NameParts {
            namespace: Namespace::Personal,
            owner: "",
            path: text,
        },
    }
}

/// The parts of a text by what follows `Other Users/` in it.
fn other_parts(rest: &str) -> NameParts<'_>
    ensures namespace { result.namespace ≡ (other_parts rest.now).namespace }
    ensures owner { result.owner.now ≡ (other_parts rest.now).owner }
    ensures path { result.path.now ≡ (other_parts rest.now).path }
{
    match rest.split_once('/') {
        Some((owner, path)) => NameParts {
            namespace: Namespace::OtherUsers,
            owner,
            path,
        },
        None => NameParts {
            namespace: Namespace::Bare,
            owner: rest,
            path: "",
        },
    }
}

/// Whether the text is the first component of a prefix.
pub(crate) fn is_prefix_word(text: &str) -> bool
    ensures { result ≡ is_prefix_word text.now }
{
    text == "Other Users" || text == "Shared"
}

fn has_control(text: &str) -> bool
    ensures { result ≡ has_control text.now }
{
    text.chars().any(|char| char.is_control())
}

fn tree_at(
    alloc: Global,
    own: Option<&UserName>,
    namespace: Namespace,
    owner: &str,
) -> Result<Tree, NameError>
    ensures read { AnswersAsIfMemory root_of_tree result
        (root_at (option_copied own.entry) namespace owner.now) }
    ensures valid { IfOk result (λ tree. is_root (root_of_tree tree) ≡ true) }
{
    match namespace {
        Namespace::Personal => own_tree(own),
        Namespace::OtherUsers => other_tree(alloc, own, owner),
        Namespace::Shared => Ok(Tree::Shared),
        Namespace::Bare => Err(NameError::Reserved),
    }
}

fn own_tree(own: Option<&UserName>) -> Result<Tree, NameError>
    ensures read { AnswersAsIfMemory root_of_tree result (own_root (option_copied own.entry)) }
    ensures valid { IfOk result (λ tree. is_root (root_of_tree tree) ≡ true) }
{
    match own {
        Some(user) => Ok(Tree::User(user.try_copy()?)),
        None => Err(NameError::Reserved),
    }
}

/// The tree of `owner`, which is not the reader's own.
fn other_tree(alloc: Global, own: Option<&UserName>, owner: &str) -> Result<Tree, NameError>
    ensures read { AnswersAsIfMemory root_of_tree result (other_root (option_copied own.entry) owner.now) }
    ensures valid { IfOk result (λ tree. is_root (root_of_tree tree) ≡ true) }
{
    if is_own(own, owner) {
        return Err(NameError::Reserved);
    }
    match UserName::read(alloc, owner)? {
        Some(owner) => Ok(Tree::User(owner)),
        None => Err(NameError::Reserved),
    }
}

fn is_own(own: Option<&UserName>, owner: &str) -> bool
    ensures { result ≡ is_own (option_copied own.entry) owner.now }
{
    match own {
        Some(user) => owner == user.as_str(),
        None => false,
    }
}

/// The name with the path in the tree. A fault of the path is found before memory is taken.
fn name_in(alloc: Global, tree: Tree, path: String) -> Result<Name, NameError>
    requires tree { is_root (root_of_tree tree) ≡ true }
    requires nfc { is_nfc (chars (string_bytes path)) ≡ true }
    requires printable { has_control (string_bytes path) ≡ false }
    ensures read { AnswersIfMemory result (name_in (root_of_tree tree) (string_bytes path)) }
    ensures fault { FailsBy (path_fault (root_of_tree tree) (string_bytes path)) result }
    ensures valid { IfOk result IsName }
{
    if let Some(fault) = path_fault(&tree, path.as_str()) {
        return Err(fault);
    }
    let held = with_inbox(alloc, path)?;
    let path = ArcStr::from_string(held)?;
    Ok(Name { tree, path })
}

/// The first rule that the path breaks in the tree.
fn path_fault(tree: &Tree, path: &str) -> Option<NameError>
    ensures { result ≡ path_fault (root_of_tree tree.now) path.now }
{
    if is_reserved(tree, path) {
        Some(NameError::Reserved)
    } else if has_empty_component(path) {
        Some(NameError::EmptyComponent)
    } else if path.len() > MAX_PATH_OCTETS {
        Some(NameError::TooLong)
    } else if depth(path) > MAX_DEPTH {
        Some(NameError::TooDeep)
    } else {
        None
    }
}

/// Whether the path would look as if it led out of a user's tree.
fn is_reserved(tree: &Tree, path: &str) -> bool
    ensures { result ≡ is_reserved (root_of_tree tree.now) (components_of path.now) }
{
    !tree.root().is_empty() && is_prefix_word(first_component(path))
}

pub(crate) fn first_component(path: &str) -> &str
    ensures { (more : List (List ℕ)) × (components_of path.now ≡ result.now ∷ more) }
{
    match path.split_once('/') {
        Some((first, _)) => first,
        None => path,
    }
}

fn has_empty_component(path: &str) -> bool
    ensures { result ≡ list_any is_empty (components_of path.now) }
{
    path.split('/').any(|component| component.is_empty())
}

/// How many components the path has.
pub(crate) fn depth(path: &str) -> usize
    ensures { result ≡ length (components_of path.now) }
{
    path.split('/').count()
}

/// The path, with a first component that spells INBOX in upper case.
fn with_inbox(alloc: Global, path: String) -> Result<String, AllocError>
    ensures { IfOk result (λ held. string_bytes held ≡ held_path (string_bytes path)) }
{
    match path.as_str().split_once('/') {
        Some((first, more)) => {
            if spells_inbox(first) {
                format!(in alloc; "INBOX/{more}")
            } else {
                Ok(path)
            }
        }
        None => {
            if spells_inbox(path.as_str()) {
                String::from_str(alloc, "INBOX")
            } else {
                Ok(path)
            }
        }
    }
}

pub(crate) fn spells_inbox(component: &str) -> bool
    ensures { result ≡ is_inbox_word component.now }
{
    component.eq_ignore_ascii_case("INBOX")
}
