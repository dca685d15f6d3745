//! Names as they are shown to a user.
ghost use Rattle.std.proofs.Common.{rules};
ghost use Rattle.std.specs.Cmp.{partial_order_from_own_ties, partial_equiv_from_equiv};
ghost use Rattle.std.specs.Cmp.Lexicographic.{pointwise, slice_cmp};
ghost use Rattle.std.specs.Cmp.Rules.{comparing};
ghost use Rattle.std.specs.Ordering.{as_partial_cmp, nat_cmp};
ghost use Rattle.std.specs.Prelude.{◌≡◌, ◌==◌, string_bytes, IfOk};
ghost use Rattle.imap_names.specs.Showing.{shown};
ghost use Rattle.imap_answer.specs.Lines.{IsPlain};

use imap_answer::View;
use imap_names::{Name, show_name};
use std::alloc::{AllocError, Global};
use std::cmp::Ordering;
use std::marker::Model;

/// The text by which a user names a mailbox, or a level of the hierarchy. It has neither CR nor LF.
#[derive(Drop)]
pub struct ShownName(String);

impl Model for ShownName {
    ghost use Rattle.std.specs.Prelude.{ℕ, List, string_bytes};
    ghost use Rattle.imap_answer.specs.Lines.{IsPlain};

    ghost Value = { List ℕ };

    ghost view = { λ name. string_bytes name.0 };

    ghost invariant = { λ name. IsPlain (string_bytes name.0) };
}

impl ShownName {
    /// The text by which the user of the view names a mailbox.
    pub fn of(alloc: Global, view: &View<'_>, name: &Name) -> Result<ShownName, AllocError>
        ensures { IfOk result (λ text. text ≡ shown view.now.user name.now) }
    {
        Ok(ShownName(show_name(alloc, view.user(), name)?))
    }

    /// The name as its user is shown it, without control characters.
    pub fn as_str(&self) -> &str
        ensures text { result.now ≡ self.now }
        ensures plain { IsPlain self.now }
    {
        self.0.as_str()
    }

    /// The text itself, without a copy.
    pub fn into_string(self) -> String
        ensures text { string_bytes result ≡ self }
        ensures plain { IsPlain self }
    {
        let ShownName(text) = self;
        text
    }

    /// The name, borrowed.
    pub(crate) fn as_ref(&self) -> ShownRef<'_>
        ensures { result ≡ self.now }
    {
        ShownRef(self.as_str())
    }
}

/// A shown name, borrowed. Shown names are in the order of their octets.
#[derive(Drop)]
pub(crate) struct ShownRef<'a>(&'a str);

impl<'a> Model for ShownRef<'a> {
    ghost use Rattle.std.specs.Prelude.{ℕ, List};
    ghost use Rattle.imap_answer.specs.Lines.{IsPlain};

    ghost Value = { List ℕ };

    ghost view = { λ name. name.0.now };

    ghost invariant = { λ name. IsPlain name.0.now };
}

impl<'a> ShownRef<'a> {
    pub(crate) fn new(text: &'a str) -> ShownRef<'a>
        requires { IsPlain text.now }
        ensures { result ≡ text.now }
    {
        ShownRef(text)
    }

    pub(crate) fn as_str(&self) -> &'a str
        ensures text { result.now ≡ self.now }
        ensures plain { IsPlain self.now }
    {
        self.0
    }

    pub(crate) fn to_shown(&self, alloc: Global) -> Result<ShownName, AllocError>
        ensures { IfOk result (λ name. name ≡ self.now) }
    {
        Ok(ShownName(String::from_str(alloc, self.0)?))
    }
}

impl<'a> PartialEq for ShownRef<'a> {
    ghost eq = { pointwise ◌==◌ };

    ghost laws = { Prim.search (comparing, rules) };

    fn eq(&self, other: &ShownRef<'a>) -> bool {
        self.0 == other.0
    }
}

impl<'a> Eq for ShownRef<'a> {
    ghost laws = { Prim.search (comparing, rules) };
}

impl<'a> Ord for ShownRef<'a> {
    ghost cmp = { slice_cmp nat_cmp };

    ghost total = { Prim.search (comparing, rules) };

    ghost matches_partial_cmp = { Prim.search (comparing, rules) };

    ghost matches_eq = { Prim.search (comparing, rules) };

    fn cmp(&self, other: &ShownRef<'a>) -> Ordering {
        self.0.cmp(other.0)
    }
}

impl<'a> PartialOrd for ShownRef<'a> {
    ghost partial_cmp = { as_partial_cmp (slice_cmp nat_cmp) };

    ghost laws = { partial_order_from_own_ties
        (Prim.search (comparing, rules)) (Prim.search (comparing, rules)) };

    fn partial_cmp(&self, other: &ShownRef<'a>) -> Option<Ordering> {
        Some(self.cmp(other))
    }
}
