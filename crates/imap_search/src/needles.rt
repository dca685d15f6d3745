//! The texts that the keys of one command look for.

ghost use Rattle.std.specs.Prelude.{◌≡◌, IfOk};
ghost use Rattle.imap_search.specs.Within.{is_within};
ghost use Rattle.imap_text.specs.Folds.{fold};

use imap_text::{Folded, Needle};
use std::alloc::{AllocError, Global};
use std::collections::BTreeMap;
use std::marker::Model;

/// The texts that the keys of one command look for. Each is made ready when it is first looked for, and not again for
/// the next message. Contracts see nothing of it: what is found doesn't depend on what was folded before.
#[derive(Drop)]
pub(crate) struct Needles {
    // Sorted, and not by a hash with a known seed: no choice of texts makes a look-up slow.
    folds: BTreeMap<Vec<u8>, Needle>,
}

impl Model for Needles {
    ghost use Rattle.imap_search.specs.Folded.{AreFolds};

    ghost Value = { Unit {0} };

    ghost view = { λ _. tt };

    ghost invariant = { λ n. AreFolds n.folds.entries };
}

impl Needles {
    /// No text is folded so far.
    pub(crate) fn new(alloc: Global) -> Needles {
        Needles {
            folds: BTreeMap::new(alloc),
        }
    }

    /// Whether the fold of `wanted` stands in `text`.
    pub(crate) fn is_in(
        &mut self,
        alloc: Global,
        wanted: &[u8],
        text: &Folded,
    ) -> Result<bool, AllocError>
        ensures { IfOk result (λ found. found ≡ is_within (fold wanted.now) text.now) }
    {
        match self.folds.get(wanted) {
            Some(needle) => Ok(is_part(needle, text)),
            None => self.is_new_in(alloc, wanted, text),
        }
    }

    /// Makes `wanted` ready, and keeps that.
    fn is_new_in(&mut self, alloc: Global, wanted: &[u8], text: &Folded) -> Result<bool, AllocError>
        ensures { IfOk result (λ found. found ≡ is_within (fold wanted.now) text.now) }
    {
        let needle = Needle::new(alloc, wanted)?;
        let found = is_part(&needle, text);
        self.folds.insert(Vec::from_slice(alloc, wanted)?, needle)?;
        Ok(found)
    }
}

/// Whether `part` stands in `text`.
fn is_part(part: &Needle, text: &Folded) -> bool
    ensures { result ≡ is_within part.now text.now }
{
    part.is_in(text)
}
