//! A header that is cut into its fields once, for several look-ups.

ghost use Rattle.std.specs.Prelude.{◌≡◌, ℕ, List, [], ◌∷◌, ◌++◌, map, if◌then◌else◌, IfOk, OnOk};
ghost use Rattle.std.specs.Char.{to_ascii_lowercase};
ghost use Rattle.std.specs.List.{concat};
ghost use Rattle.imap_text.specs.Fields.{fields, field_texts, is_named};
ghost use Rattle.imap_text.specs.Places.{places_of};

use crate::field::{colon_of, split_field};
use crate::field_places::FieldPlaces;
use crate::folding::lower_case;
use crate::placed::{placed_parts, placed_texts, unplaced_parts};
use crate::section::header_length;
use imap_lex::Octets;
use imap_syntax::{FieldName, Items};
use std::alloc::{AllocError, Global};
use std::marker::Model;

/// The fields of a header, cut and put under their names once. A look-up takes time by what it returns, and not by
/// the header's length. Contracts see the message's octets.
#[derive(Drop)]
pub(crate) struct FieldIndex<'a> {
    octets: &'a [u8],
    /// Where each field begins, where the line after them does, and where the header ends.
    bounds: Vec<usize>,
    named: FieldPlaces,
}

impl<'a> Model for FieldIndex<'a> {
    ghost use Rattle.std.specs.Prelude.{ℕ, List};
    ghost use Rattle.imap_text.specs.Places.{IsIndex};

    ghost Value = { List ℕ };

    ghost view = { λ i. i.octets.now };

    ghost invariant = { λ i. IsIndex i.octets.now i.bounds.items i.named };
}

impl<'a> FieldIndex<'a> {
    /// Cuts the header of the message.
    pub(crate) fn new(alloc: Global, octets: &'a [u8]) -> Result<FieldIndex<'a>, AllocError>
        ensures { IfOk result (λ index. index ≡ octets.now) }
    {
        let len = octets.len();
        let mut bounds = Vec::new(alloc);
        let mut named = FieldPlaces::new(alloc);
        let mut rest = octets;
        while let Some(field) = split_field(rest) {
            add_field(&mut named, alloc, field.line, bounds.len())?;
            bounds.push(len - rest.len())?;
            rest = field.later;
        }
        let last = len - rest.len();
        bounds.push(last)?;
        bounds.push(last + header_length(rest))?;
        Ok(FieldIndex {
            octets,
            bounds,
            named,
        })
    }

    /// As [`fields`](crate::fields), of the message that was cut.
    pub(crate) fn fields(
        &self,
        alloc: Global,
        message: &Octets,
        names: &[FieldName],
        not: bool,
    ) -> Result<Items<Octets>, AllocError>
        requires { message.now ≡ self.now }
        ensures { IfOk result (λ parts. concat parts ≡ fields names.now not self.now) }
    {
        let mut places = self.named.of_any(alloc, names)?;
        let bounds = self.bounds.as_slice();
        if not {
            return unplaced_parts(alloc, message, bounds, places.as_slice());
        }
        places.push(bounds.len() - 2)?;
        placed_parts(alloc, message, bounds, places.as_slice())
    }

    /// As [`field_texts`](crate::field_texts), of the message that was cut.
    pub(crate) fn texts(&self, alloc: Global, name: &[u8]) -> Result<Vec<&'a [u8]>, AllocError>
        ensures { IfOk result
            (λ texts. map (λ text. text.now) texts.items ≡ field_texts name.now self.now) }
    {
        let name = lower_case(alloc, name)?;
        let places = self.named.of(name.as_slice());
        placed_texts(alloc, self.octets, self.bounds.as_slice(), places)
    }
}

/// Adds the field that begins with `line`, if it has a name.
fn add_field(
    named: &mut FieldPlaces,
    alloc: Global,
    line: &[u8],
    place: usize,
) -> Result<(), AllocError>
    ensures { OnOk result ((name : List ℕ) → let lower = map to_ascii_lowercase name in
        places_of named.new lower
        ≡ places_of named.old lower ++ (if is_named (name ∷ []) line.now then place ∷ [] else [])) }
{
    match colon_of(line) {
        Some(colon) => named.add(alloc, lower_case(alloc, &line[..colon])?, place),
        None => Ok(()),
    }
}
