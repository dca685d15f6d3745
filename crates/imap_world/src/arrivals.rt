//! The names that mailboxes get by RENAME.

ghost use Rattle.std.specs.Prelude.{◌≡◌, ◌++◌, ◌∷◌, [], map, IfOk, OnOk};

use imap_names::Name;
use imap_values::beside;
use std::alloc::{AllocError, Global};
use std::marker::Model;

/// The names that mailboxes get, in their order, each with the UIDVALIDITY that its mailbox has there.
///
/// Contracts see the list of pairs.
#[derive(Drop)]
pub struct Arrivals {
    // For the table of mailboxes, and for that of validities.
    names: Vec<Name>,
    validities: Vec<(Name, u32)>,
}

impl Model for Arrivals {
    ghost use Rattle.std.specs.Prelude.{◌≡◌, ℕ, List, map};
    ghost use Rattle.imap_names.specs.Name.{Name};

    ghost Value = { List (Name × ℕ) };

    ghost view = { λ a. a.validities.items };

    ghost invariant = { λ a. a.names.items ≡ map (λ e. e.0) a.validities.items };
}

impl Arrivals {
    /// None, with room for `count`.
    pub(crate) fn with_capacity(alloc: Global, count: usize) -> Result<Arrivals, AllocError>
        ensures { IfOk result (λ arrivals. arrivals ≡ []) }
    {
        let names = Vec::with_capacity(alloc, count)?;
        let (validities, names) = beside(Vec::with_capacity(alloc, count), names)?;
        Ok(Arrivals { names, validities })
    }

    /// Appends a name with its UIDVALIDITY.
    pub(crate) fn push(&mut self, name: Name, validity: u32) -> Result<(), AllocError>
        ensures { OnOk result (self.new ≡ self.old ++ (name, validity) ∷ []) }
    {
        let copy = name.try_copy()?;
        self.names.reserve(1)?;
        self.validities.reserve(1)?;
        self.names.push_reserved(copy);
        self.validities.push_reserved((name, validity));
        Ok(())
    }

    /// The names, each with its UIDVALIDITY.
    pub fn entries(&self) -> &[(Name, u32)]
        ensures { result.now ≡ self.now }
    {
        self.validities.as_slice()
    }

    /// The names alone, and the names with their UIDVALIDITYs.
    pub(crate) fn into_parts(self) -> (Vec<Name>, Vec<(Name, u32)>)
        ensures names { result.0.items ≡ map (λ e. e.0) self }
        ensures validities { result.1.items ≡ self }
    {
        let Arrivals { names, validities } = self;
        (names, validities)
    }

    /// Returns an equal copy.
    pub fn try_copy(&self, alloc: Global) -> Result<Arrivals, AllocError>
        ensures { IfOk result (λ copy. copy ≡ self.now) }
    {
        let mut copy = Arrivals::with_capacity(alloc, self.entries().len())?;
        push_copies(&mut copy, self.entries())?;
        Ok(copy)
    }
}

/// Appends copies of the entries.
fn push_copies(arrivals: &mut Arrivals, entries: &[(Name, u32)]) -> Result<(), AllocError>
    ensures { OnOk result (arrivals.new ≡ arrivals.old ++ entries.now) }
{
    for entry in entries {
        arrivals.push(entry.0.try_copy()?, entry.1)?;
    }
    Ok(())
}
