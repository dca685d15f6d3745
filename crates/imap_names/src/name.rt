//! Mailbox names.
ghost use Rattle.std.specs.Prelude.{◌≡◌, ◌≢◌, ◌↔◌, ◌∷◌, [], true, codes, IsTrue, IfOk, MatchOption};
ghost use Rattle.imap_names.specs.Name.{name_of, root_of, path_of, shared_root, is_inbox, IsAbove};
ghost use Rattle.imap_names.specs.Tree.{root_of_tree};
ghost use Rattle.imap_names.specs.Valid.{IsName, is_root};

use crate::name_ref::NameRef;
use crate::user_name::UserName;
use std::alloc::{AllocError, Global};
use std::marker::Model;
use std::sync::ArcStr;

/// The most octets of a path.
pub const MAX_PATH_OCTETS: usize = 255;

/// The most components of a path.
pub const MAX_DEPTH: usize = 16;

/// The tree that a name lies in.
#[derive(Drop)]
pub enum Tree {
    User(UserName),
    Shared,
}

impl Tree {
    /// The tree with this root, which is a user or no text.
    pub(crate) fn at_root(alloc: Global, root: &str) -> Result<Tree, AllocError>
        requires { is_root root.now ≡ true }
        ensures { IfOk result (λ tree. root_of_tree tree ≡ root.now) }
    {
        if root.is_empty() {
            return Ok(Tree::Shared);
        }
        match UserName::read(alloc, root)? {
            Some(owner) => Ok(Tree::User(owner)),
            None => unreachable!(),
        }
    }

    /// The same tree, without copying the owner's name.
    pub fn try_copy(&self) -> Result<Tree, AllocError>
        ensures { IfOk result (λ copy. copy ≡ self.now) }
    {
        match self {
            Tree::User(owner) => Ok(Tree::User(owner.try_copy()?)),
            Tree::Shared => Ok(Tree::Shared),
        }
    }

    /// Whether both are the same tree.
    pub fn is_same(&self, other: &Tree) -> bool
        ensures { IsTrue result ↔ (root_of_tree self.now ≡ root_of_tree other.now) }
    {
        self.root() == other.root()
    }

    /// The owner's name, or no text for the tree that all share.
    pub(crate) fn root(&self) -> &str
        ensures { result.now ≡ root_of_tree self.now }
    {
        match self {
            Tree::User(owner) => owner.as_str(),
            Tree::Shared => "",
        }
    }
}

/// The name of a mailbox, which may or may not exist.
///
/// The path has at most [`MAX_DEPTH`] components, none of them empty, and [`MAX_PATH_OCTETS`] octets. It is
/// NFC text without control characters. A first component that spells INBOX is in upper case, and in a
/// user's tree it is neither `Other Users` nor `Shared`. Contracts see the list of its components, the
/// deepest first, and last the root of its tree: the owner's name, or no octets. A copy shares the text.
pub struct Name {
    pub(crate) tree: Tree,
    pub(crate) path: ArcStr,
}

// Not derived: a derived one is proved anew in each crate that lets go of one.
impl Drop for Name {
    fn drop(self) {
        let Name { tree: _, path: _ } = self;
    }
}

impl Model for Name {
    ghost use Rattle.std.specs.Prelude.{ℕ, List};
    ghost use Rattle.std.specs.Arc.{arc_str_bytes};
    ghost use Rattle.imap_names.specs.Tree.{name_below};
    ghost use Rattle.imap_names.specs.Valid.{IsName};

    ghost Value = { List (List ℕ) };

    ghost view = { λ name. name_below name.tree (arc_str_bytes name.path) };

    ghost invariant = { λ name. IsName (name_below name.tree (arc_str_bytes name.path)) };
}

impl Name {
    /// The name, borrowed.
    pub fn as_ref(&self) -> NameRef<'_>
        ensures name { result ≡ self.now }
        ensures valid { IsName self.now }
    {
        NameRef::new(self.tree.root(), self.path.as_str())
    }

    /// The tree that the name lies in.
    pub fn tree(&self) -> &Tree
        ensures root { root_of_tree result.now ≡ root_of self.now }
        ensures valid { IsName self.now }
    {
        &self.tree
    }

    /// The owner of the tree, or `None` for the tree that all share.
    pub fn owner(&self) -> Option<&UserName>
        ensures { MatchOption result
            (root_of self.now ≡ shared_root) (λ owner. root_of self.now ≡ owner.now) }
    {
        match &self.tree {
            Tree::User(owner) => Some(owner),
            Tree::Shared => None,
        }
    }

    /// The components, the outermost first, with `/` between them.
    pub fn path(&self) -> &str
        ensures path { result.now ≡ path_of self.now }
        ensures valid { IsName self.now }
    {
        self.path.as_str()
    }

    /// Whether it is the INBOX of a user (RFC 9051, section 5.1).
    pub fn is_inbox(&self) -> bool
        ensures { result ≡ is_inbox self.now }
    {
        self.as_ref().is_inbox()
    }

    /// Whether both are the same name.
    pub fn is_same(&self, other: &Name) -> bool
        ensures { IsTrue result ↔ (self.now ≡ other.now) }
    {
        self.as_ref().is_same(&other.as_ref())
    }

    /// The same name, without copying its text.
    pub fn try_copy(&self) -> Result<Name, AllocError>
        ensures copy { IfOk result (λ copy. copy ≡ self.now) }
        ensures valid { IsName self.now }
    {
        let tree = self.tree.try_copy()?;
        let path = self.path.clone()?;
        Ok(Name { tree, path })
    }
}

/// The user's INBOX (RFC 9051, section 5.1).
pub fn inbox(alloc: Global, user: &UserName) -> Result<Name, AllocError>
    ensures name { IfOk result (λ name. name ≡ name_of user.now (codes "INBOX" ∷ [])) }
    ensures valid { IfOk result IsName }
{
    let tree = Tree::User(user.try_copy()?);
    let path = ArcStr::from_str(alloc, "INBOX")?;
    Ok(Name { tree, path })
}

/// The user's INBOX (RFC 9051, section 5.1), borrowed.
pub fn inbox_ref(user: &UserName) -> NameRef<'_>
    ensures { result ≡ name_of user.now (codes "INBOX" ∷ []) }
{
    NameRef::new(user.as_str(), "INBOX")
}

/// Whether `above` is a superior of `below`. No name is a superior of itself.
pub fn is_above(above: &Name, below: &Name) -> bool
    ensures { IsTrue result ↔ IsAbove above.now below.now }
{
    if !above.tree.is_same(&below.tree) {
        return false;
    }
    match below.path.as_str().strip_prefix(above.path.as_str()) {
        Some(rest) => rest.starts_with("/"),
        None => false,
    }
}
