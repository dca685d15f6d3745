//! What the items of a command ask for.

ghost use Rattle.std.specs.Prelude.{◌≡◌};

use imap_rev1_frames::Asked;
use std::alloc::Global;
use std::marker::Model;

/// What the items of a command ask for, in their order, and where what is told of them takes its memory.
#[derive(Drop)]
pub(crate) struct AskedItems {
    alloc: Global,
    items: Vec<Asked>,
}

impl Model for AskedItems {
    ghost use Rattle.std.specs.Prelude.{List};
    ghost use Rattle.imap_rev1_frames.specs.declared.asked.Asked.{Asked};

    ghost Value = { List Asked };

    ghost view = { λ a. a.items.items };
}

impl AskedItems {
    pub(crate) fn from_vec(alloc: Global, items: Vec<Asked>) -> AskedItems
        ensures { result ≡ items.items }
    {
        AskedItems { alloc, items }
    }

    pub(crate) fn as_slice(&self) -> &[Asked]
        ensures { result.now ≡ self.now }
    {
        self.items.as_slice()
    }

    pub(crate) fn alloc(&self) -> Global {
        self.alloc
    }
}
