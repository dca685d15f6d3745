//! Lists that are not empty.

ghost use Rattle.std.specs.Prelude.{◌≡◌, ◌<◌, length, MatchOption};

use crate::items::Items;
use imap_values::{Same, TryCopy};
use std::alloc::{AllocError, Global};
use std::marker::Model;

/// One value or more, in the order of the command.
#[derive(Drop)]
pub struct OneOrMore<T>(Items<T>);

impl<T> Model for OneOrMore<T> {
    ghost use Rattle.std.specs.Prelude.{◌<◌, List, length};

    ghost Value = { List T };

    ghost view = { λ o. o.0 };

    ghost invariant = { λ o. 0 < length o.0 };
}

impl<T: Drop> OneOrMore<T> {
    /// Returns these values, or `None` if there are none.
    pub fn from_vec(items: Vec<T>) -> Option<OneOrMore<T>>
        ensures { MatchOption result (length items.items ≡ 0) (λ made. made ≡ items.items) }
    {
        if items.is_empty() {
            None
        } else {
            Some(OneOrMore(Items::from_vec(items)))
        }
    }
}

impl<T> OneOrMore<T> {
    /// Returns these values, of which there are some.
    pub(crate) fn of(items: Vec<T>) -> OneOrMore<T>
        requires { 0 < length items.items }
        ensures { result ≡ items.items }
    {
        OneOrMore(Items::from_vec(items))
    }

    /// Returns the values.
    pub fn as_slice(&self) -> &[T]
        ensures items { result.now ≡ self.now }
        ensures valid { 0 < length result.now }
    {
        self.0.as_slice()
    }

    /// Returns the list of the values.
    pub fn into_items(self) -> Items<T>
        ensures items { result ≡ self }
        ensures valid { 0 < length result }
    {
        let OneOrMore(items) = self;
        items
    }
}

impl<T: TryCopy + Drop> TryCopy for OneOrMore<T> {
    fn try_copy(&self, alloc: Global) -> Result<OneOrMore<T>, AllocError> {
        Ok(OneOrMore(self.0.try_copy(alloc)?))
    }
}

impl<T: Same> Same for OneOrMore<T> {
    fn is_same(&self, other: &OneOrMore<T>) -> bool {
        self.0.is_same(&other.0)
    }
}
