//! The places of a header's fields by the fields' names.

ghost use Rattle.std.specs.Prelude.{◌≡◌, ℕ, Bool, List, [], ◌∷◌, ◌++◌, map, None, IfOk, OnOk};
ghost use Rattle.std.specs.Char.{to_ascii_lowercase};
ghost use Rattle.std.specs.List.{list_any};
ghost use Rattle.std.specs.List.Sorted.{IsStrictlySortedBy};
ghost use Rattle.std.specs.Ordering.{nat_cmp};
ghost use Rattle.std.specs.FinMap as fin;
ghost use Rattle.imap_text.specs.Places.{places_of, with_place, has_place, is_place_of_any};

use crate::folding::lower_case;
use imap_syntax::FieldName;
use std::alloc::{AllocError, Global};
use std::collections::{BTreeMap, BTreeSet};
use std::marker::Model;

/// The places of a header's fields by the fields' names in lower case. Those of a name stand in the order in which
/// they were added.
///
/// Contracts see a finite map from names to lists of places.
#[derive(Drop)]
pub(crate) struct FieldPlaces {
    // Sorted, and not by a hash with a known seed: no choice of names makes a look-up slow.
    named: BTreeMap<Vec<u8>, Vec<usize>>,
}

impl Model for FieldPlaces {
    ghost use Rattle.imap_text.specs.Places as specs;

    ghost Value = { specs.FieldPlaces };

    ghost coded = { specs.field_places_code };

    ghost view = { λ p. specs.by_name p.named.entries };
}

impl FieldPlaces {
    /// No field is there.
    pub(crate) fn new(alloc: Global) -> FieldPlaces
        ensures { result ≡ fin.empty }
    {
        FieldPlaces {
            named: BTreeMap::new(alloc),
        }
    }

    /// Returns the places of the fields of the name, which is in lower case.
    pub(crate) fn of(&self, name: &[u8]) -> &[usize]
        ensures { result.now ≡ places_of self.now name.now }
    {
        match self.named.get(name) {
            Some(places) => places.as_slice(),
            None => &[],
        }
    }

    /// Returns the places of the fields that have one of the names, in their order, each once.
    pub(crate) fn of_any(
        &self,
        alloc: Global,
        names: &[FieldName],
    ) -> Result<Vec<usize>, AllocError>
        ensures order { IfOk result (λ places. IsStrictlySortedBy nat_cmp places.items) }
        ensures places { IfOk result (λ places. (place : ℕ) →
            has_place places.items place ≡ is_place_of_any self.now names.now place) }
    {
        let asked = asked_names(alloc, names)?;
        let mut places = Vec::new(alloc);
        for name in &asked {
            places.extend_from_slice(self.of(name.as_slice()))?;
        }
        places.sort()?;
        places.dedup();
        Ok(places)
    }

    /// Adds the place of a field of the name, which is in lower case.
    pub(crate) fn add(
        &mut self,
        alloc: Global,
        name: Vec<u8>,
        place: usize,
    ) -> Result<(), AllocError>
        ensures { OnOk result (self.new ≡ with_place self.old name.items place) }
    {
        match self.named.get_mut(name.as_slice()) {
            Some(places) => push_place(places, place),
            None => self.add_first(alloc, name, place),
        }
    }

    /// Adds the place of the first field of the name.
    fn add_first(&mut self, alloc: Global, name: Vec<u8>, place: usize) -> Result<(), AllocError>
        requires { fin.get self.old name.items ≡ None }
        ensures { OnOk result (self.new ≡ with_place self.old name.items place) }
    {
        let mut places = Vec::new(alloc);
        places.push(place)?;
        self.named.insert(name, places)?;
        Ok(())
    }
}

fn push_place(places: &mut Vec<usize>, place: usize) -> Result<(), AllocError>
    ensures { OnOk result (places.new.items ≡ places.old.items ++ place ∷ []) }
{
    places.push(place)?;
    Ok(())
}

/// Returns the names in lower case, each once.
fn asked_names(alloc: Global, names: &[FieldName]) -> Result<BTreeSet<Vec<u8>>, AllocError>
    ensures { IfOk result (λ asked. (test : List ℕ → Bool) →
        list_any (λ name. test name.items) asked.keys
        ≡ list_any (λ name. test (map to_ascii_lowercase name)) names.now) }
{
    let mut asked = BTreeSet::new(alloc);
    for name in names {
        asked.insert(lower_case(alloc, name.as_slice())?)?;
    }
    Ok(asked)
}
