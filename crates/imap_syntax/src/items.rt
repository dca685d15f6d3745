//! Lists in requests.

ghost use Rattle.std.specs.Prelude.{◌≡◌, ◌↔◌, IfOk, IsTrue};

use imap_values::{Same, TryCopy};
use std::alloc::{AllocError, Global};
use std::marker::Model;

/// Values in the order of the command.
#[derive(Drop)]
pub struct Items<T>(Vec<T>);

impl<T> Model for Items<T> {
    ghost use Rattle.std.specs.Prelude.{List};

    ghost Value = { List T };

    ghost view = { λ i. i.0.items };
}

impl<T> Items<T> {
    /// Returns these values, without copying them.
    pub fn from_vec(items: Vec<T>) -> Items<T>
        ensures { result ≡ items.items }
    {
        Items(items)
    }

    /// Returns the values.
    pub fn as_slice(&self) -> &[T]
        ensures { result.now ≡ self.now }
    {
        self.0.as_slice()
    }

    /// Returns the list of the values.
    pub fn into_vec(self) -> Vec<T>
        ensures { result.items ≡ self }
    {
        let Items(items) = self;
        items
    }
}

impl<T: TryCopy + Drop> TryCopy for Items<T> {
    fn try_copy(&self, alloc: Global) -> Result<Items<T>, AllocError> {
        Ok(Items(copy_each(self.as_slice(), alloc)?))
    }
}

impl<T: Same> Same for Items<T> {
    fn is_same(&self, other: &Items<T>) -> bool {
        are_same(self.as_slice(), other.as_slice())
    }
}

fn copy_each<T: TryCopy + Drop>(items: &[T], alloc: Global) -> Result<Vec<T>, AllocError>
    ensures { IfOk result (λ copies. copies.items ≡ items.now) }
{
    let mut copies = Vec::new(alloc);
    for item in items {
        let copy = item.try_copy(alloc)?;
        copies.push(copy)?;
    }
    Ok(copies)
}

/// Whether both have the same items, in the same order.
pub fn are_same<T: Same>(items: &[T], others: &[T]) -> bool
    ensures { IsTrue result ↔ (items.now ≡ others.now) }
{
    let mut rest = others;
    for item in items {
        match rest {
            [] => return false,
            [other, later @ ..] => {
                if !item.is_same(other) {
                    return false;
                }
                rest = later;
            }
        }
    }
    rest.is_empty()
}
