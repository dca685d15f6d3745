//! Shown names in their order.
ghost use Rattle.std.specs.Prelude.{◌≡◌, true, is_some, IfOk};
ghost use Rattle.std.specs.List.Sorted.{IsStrictlySortedBy};
ghost use Rattle.std.specs.Ordering.{is_lt};
ghost use Rattle.imap_listing.specs.Texts.{has, in_order, text_cmp};

use crate::shown_name::{ShownName, ShownRef};
use std::alloc::{AllocError, Global};
use std::marker::Model;

/// Shown names in their order, each once.
#[derive(Drop)]
pub(crate) struct OrderedNames<'a>(Vec<ShownRef<'a>>);

impl<'a> Model for OrderedNames<'a> {
    ghost use Rattle.std.specs.Prelude.{List};
    ghost use Rattle.std.specs.List.Sorted.{IsStrictlySortedBy};
    ghost use Rattle.imap_listing.specs.Texts.{Text, text_cmp};

    ghost Value = { List Text };

    ghost view = { λ names. names.0.items };

    ghost invariant = { λ names. IsStrictlySortedBy text_cmp names.0.items };
}

impl<'a> OrderedNames<'a> {
    /// The names, borrowed, in their order.
    pub(crate) fn of(alloc: Global, names: &'a [ShownName]) -> Result<OrderedNames<'a>, AllocError>
        ensures { IfOk result (λ ordered. ordered ≡ in_order names.now) }
    {
        let mut refs = Vec::with_capacity(alloc, names.len())?;
        for name in names {
            refs.push(name.as_ref())?;
        }
        OrderedNames::from_names(refs)
    }

    /// The names in their order, each once. Takes one comparison a name where they are so already.
    pub(crate) fn from_names(mut names: Vec<ShownRef<'a>>) -> Result<OrderedNames<'a>, AllocError>
        ensures { IfOk result (λ ordered. ordered ≡ in_order names.entry.items) }
    {
        if are_rising(names.as_slice()) {
            return Ok(OrderedNames(names));
        }
        names.sort()?;
        names.dedup();
        Ok(OrderedNames(names))
    }

    pub(crate) fn as_slice(&self) -> &[ShownRef<'a>]
        ensures { result.now ≡ self.now }
    {
        self.0.as_slice()
    }

    /// Returns the place of `name`, by a search that halves.
    fn find(&self, name: &ShownRef<'_>) -> Option<usize>
        ensures { is_some result ≡ has self.now name.now }
    {
        self.0.binary_search(name).ok()
    }

    /// Whether `name` is one of them.
    pub(crate) fn has(&self, name: &ShownRef<'_>) -> bool
        ensures { result ≡ has self.now name.now }
    {
        self.find(name).is_some()
    }

    /// As [`has`](OrderedNames::has), by a look at the place `near` before the search. A name that is found leaves the
    /// place after its own there, so that names that are asked for in their order are found without a search.
    pub(crate) fn has_near(&self, name: &ShownRef<'_>, near: &mut usize) -> bool
        ensures { result ≡ has self.now name.now }
    {
        if is_at(self.as_slice(), name, *near) {
            *near = near.saturating_add(1);
            return true;
        }
        match self.find(name) {
            Some(place) => {
                *near = place.saturating_add(1);
                true
            }
            None => false,
        }
    }
}

/// Whether `name` stands at the place.
fn is_at(names: &[ShownRef<'_>], name: &ShownRef<'_>, place: usize) -> bool
    ensures { result ≡ true → has names.now name.now ≡ true }
{
    match names.get(place) {
        Some(other) => other == name,
        None => false,
    }
}

/// Whether each name comes after the one before it.
fn are_rising(names: &[ShownRef<'_>]) -> bool
    ensures { result ≡ true → IsStrictlySortedBy text_cmp names.now }
{
    names.is_sorted_by(
        |name: &ShownRef<'_>, next: &ShownRef<'_>| -> bool
            ensures { result ≡ is_lt (text_cmp name.now next.now) }
        { name.cmp(next).is_lt() },
    )
}
