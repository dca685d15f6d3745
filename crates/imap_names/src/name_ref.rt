//! Borrowed mailbox names, and their order.
ghost use Rattle.std.specs.Prelude.{◌≡◌, ◌+◌, ◌↔◌, length, option_copied, IsTrue, IfOk};
ghost use Rattle.std.specs.Cmp.Lexicographic.{slice_cmp};
ghost use Rattle.imap_names.specs.Name.{name_of, root_of, path_of, owner, superior, is_inbox};
ghost use Rattle.imap_names.specs.Order.{octet_cmp, path_cmp, path_run_cmp, end_cmp, name_cmp, run_cmp};
ghost use Rattle.imap_names.specs.Text.{components_of};
ghost use Rattle.imap_names.specs.Valid.{IsName};

use crate::name::{Name, Tree};
use crate::read::depth;
use std::alloc::{AllocError, Global};
use std::cmp::Ordering;
use std::marker::Model;
use std::sync::ArcStr;

/// The name of a mailbox, borrowed. It is what [`Name`](crate::Name) is, and contracts see the same list.
///
/// Names are in the order of their trees (the tree that all share first, then by owner), and in a tree in
/// that of their components from the root, each by its octets. In this order a name and all names below it
/// stand together.
#[derive(Drop)]
pub struct NameRef<'a> {
    root: &'a str,
    path: &'a str,
}

impl<'a> Model for NameRef<'a> {
    ghost use Rattle.std.specs.Prelude.{ℕ, List};
    ghost use Rattle.imap_names.specs.Name.{name_of};
    ghost use Rattle.imap_names.specs.Text.{components_of};
    ghost use Rattle.imap_names.specs.Valid.{IsName};

    ghost Value = { List (List ℕ) };

    ghost view = { λ name. name_of name.root.now (components_of name.path.now) };

    ghost invariant = { λ name. IsName (name_of name.root.now (components_of name.path.now)) };
}

impl<'a> NameRef<'a> {
    /// The name with this path below this root.
    pub(crate) fn new(root: &'a str, path: &'a str) -> NameRef<'a>
        requires { IsName (name_of root.now (components_of path.now)) }
        ensures { result ≡ name_of root.now (components_of path.now) }
    {
        NameRef { root, path }
    }

    /// The owner of the tree, or `None` for the tree that all share.
    pub fn owner(&self) -> Option<&'a str>
        ensures { option_copied result ≡ owner self.now }
    {
        if self.root.is_empty() {
            None
        } else {
            Some(self.root)
        }
    }

    /// The owner's name, or no text for the tree that all share.
    pub fn root(&self) -> &'a str
        ensures root { result.now ≡ root_of self.now }
        ensures valid { IsName self.now }
    {
        self.root
    }

    /// The components, the outermost first, with `/` between them.
    pub fn path(&self) -> &'a str
        ensures path { result.now ≡ path_of self.now }
        ensures valid { IsName self.now }
    {
        self.path
    }

    /// The same name, with texts of its own.
    pub fn to_name(&self, alloc: Global) -> Result<Name, AllocError>
        ensures name { IfOk result (λ name. name ≡ self.now) }
        ensures valid { IsName self.now }
    {
        let tree = Tree::at_root(alloc, self.root)?;
        let path = ArcStr::from_str(alloc, self.path)?;
        Ok(Name { tree, path })
    }

    /// How many components the path has.
    pub fn depth(&self) -> usize
        ensures { result + 1 ≡ length self.now }
    {
        depth(self.path)
    }

    /// Whether it is the INBOX of a user (RFC 9051, section 5.1).
    pub fn is_inbox(&self) -> bool
        ensures { result ≡ is_inbox self.now }
    {
        !self.root.is_empty() && self.path == "INBOX"
    }

    /// Whether both are the same name.
    pub fn is_same(&self, other: &NameRef<'_>) -> bool
        ensures { IsTrue result ↔ (self.now ≡ other.now) }
    {
        self.root == other.root && self.path == other.path
    }

    /// The name right above, or `None` for a name right below the root of its tree.
    pub fn superior(&self) -> Option<NameRef<'a>>
        ensures { result ≡ superior self.now }
    {
        match self.path.rsplit_once('/') {
            Some((above, _)) => Some(NameRef {
                root: self.root,
                path: above,
            }),
            None => None,
        }
    }

    /// The order of the two names.
    pub fn compare(&self, other: &NameRef<'_>) -> Ordering
        ensures { result ≡ name_cmp self.now other.now }
    {
        match self.root.cmp(other.root) {
            Ordering::Equal => compare_paths(self.path, other.path),
            order => order,
        }
    }

    /// Whether the name stands before `top` and all names below it (`Less`), among them (`Equal`), or after
    /// them.
    pub fn compare_to_run(&self, top: &NameRef<'_>) -> Ordering
        ensures { result ≡ run_cmp self.now top.now }
    {
        match self.root.cmp(top.root) {
            Ordering::Equal => compare_path_to_run(self.path, top.path),
            order => order,
        }
    }
}

/// The order of two paths, component by component.
fn compare_paths(a: &str, b: &str) -> Ordering
    ensures { result ≡ path_cmp (components_of a.now) (components_of b.now) }
{
    compare_texts(a.as_bytes(), b.as_bytes())
}

/// The order of two texts in which `/` comes before every other octet.
fn compare_texts(a: &[u8], b: &[u8]) -> Ordering
    ensures { result ≡ slice_cmp octet_cmp a.now b.now }
{
    let mut rest = b;
    for octet in a {
        match rest {
            [] => return Ordering::Greater,
            [first, more @ ..] => match compare_octets(*octet, *first) {
                Ordering::Equal => rest = more,
                order => return order,
            },
        }
    }
    if rest.is_empty() {
        Ordering::Equal
    } else {
        Ordering::Less
    }
}

fn compare_octets(a: u8, b: u8) -> Ordering
    ensures { result ≡ octet_cmp a b }
{
    (a != b'/').cmp(&(b != b'/')).then(a.cmp(&b))
}

/// Compares the path with the run of `top` and all paths below it.
fn compare_path_to_run(path: &str, top: &str) -> Ordering
    ensures { result ≡ path_run_cmp (components_of path.now) (components_of top.now) }
{
    match path.strip_prefix(top) {
        Some(rest) => compare_end(rest.as_bytes()),
        None => compare_paths(path, top),
    }
}

/// Compares a path with a run, if it is the text of the run's top and then `rest`.
fn compare_end(rest: &[u8]) -> Ordering
    ensures { result ≡ end_cmp rest.now }
{
    match rest {
        [] => Ordering::Equal,
        [octet, ..] => {
            if *octet == b'/' {
                Ordering::Equal
            } else {
                Ordering::Greater
            }
        }
    }
}
