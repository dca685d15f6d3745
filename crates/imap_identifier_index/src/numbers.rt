//! Sets of numbers.

ghost use Rattle.std.specs.Prelude.{◌≡◌, ℕ, ◌==◌, ◌&&◌, ◌||◌, [], true, not};
ghost use Rattle.imap_identifier_index.specs.Sets.{has_number};

use imap_values::TryCopy;
use std::alloc::{AllocError, Global};
use std::marker::Model;

/// The numbers of the mailboxes whose lists have an entry of an identifier, in no order.
#[derive(Drop)]
pub(crate) struct Numbers {
    numbers: Vec<u32>,
}

impl Model for Numbers {
    ghost use Rattle.std.specs.Prelude.{ℕ, List};

    ghost Value = { List ℕ };

    ghost view = { λ n. n.numbers.items };
}

impl Numbers {
    /// None. It takes no memory.
    pub(crate) fn new(alloc: Global) -> Numbers
        ensures { result ≡ [] }
    {
        Numbers {
            numbers: Vec::new(alloc),
        }
    }

    /// All of them.
    pub(crate) fn as_slice(&self) -> &[u32]
        ensures { result.now ≡ self.now }
    {
        self.numbers.as_slice()
    }

    /// Makes room for `more`.
    pub(crate) fn reserve(&mut self, more: usize) -> Result<(), AllocError>
        ensures { self.new ≡ self.old }
    {
        self.numbers.reserve(more)
    }

    /// Adds a number, unless it is the last, and returns whether there was room.
    pub(crate) fn push(&mut self, number: u32) -> bool
        ensures { result ≡ true → (other : ℕ) → has_number other self.new
            ≡ (other == number || has_number other self.old) }
    {
        if self.is_last(number) {
            return true;
        }
        if self.numbers.len() >= self.numbers.capacity() {
            return false;
        }
        self.numbers.push_reserved(number);
        true
    }

    fn is_last(&self, number: u32) -> bool
        ensures { result ≡ true → has_number number self.now ≡ true }
    {
        match self.numbers.as_slice().last() {
            Some(last) => *last == number,
            None => false,
        }
    }

    /// Takes a number out.
    pub(crate) fn remove(&mut self, number: u32)
        ensures { (other : ℕ) → has_number other self.new
            ≡ (not (other == number) && has_number other self.old) }
    {
        remove_from(&mut self.numbers, number);
    }
}

impl TryCopy for Numbers {
    fn try_copy(&self, alloc: Global) -> Result<Numbers, AllocError> {
        let mut numbers = Vec::with_capacity(alloc, self.numbers.capacity())?;
        numbers.extend_from_slice(self.numbers.as_slice())?;
        Ok(Numbers { numbers })
    }
}

fn remove_from(numbers: &mut Vec<u32>, number: u32)
    ensures { (other : ℕ) → has_number other numbers.new.items
        ≡ (not (other == number) && has_number other numbers.old.items) }
{
    numbers.retain(|other| *other != number);
}
