//! Header fields of parts, as FETCH names them (RFC 9051, section 9, `header-list`).

ghost use Rattle.std.specs.Prelude.{◌≡◌, ◌++◌, Some, codes, IfOk};
ghost use Rattle.std.specs.Option.{option_and_then};
ghost use Rattle.imap_query.specs.Fetch.{fetch_items};
ghost use Rattle.imap_rev1_frames.specs.Part.{after_bracket, fields_after, fields_by, fields_in, fields_length};
ghost use Rattle.imap_rev1_frames.specs.Part.{fields_named, fields_text, length_before, whole_fields};

use crate::part::{PartText, PartWord, after_bracket, are_numbers, split_numbers};
use imap_lex::Octets;
use imap_query::{FetchItem, Partial, Section, read_fetch_items};
use imap_syntax::{Cursor, ReadError};
use imap_values::TryCopy;
use std::alloc::{AllocError, Global};

/// Header fields of a part.
#[derive(Drop)]
pub(crate) struct Fields {
    text: PartText,
    partial: Option<Partial>,
    /// How many octets follow what asks for them.
    left: usize,
}

impl Fields {
    /// Returns the section of the part with these numbers, if no octets follow it.
    pub(crate) fn whole(self, numbers: &[u8]) -> Option<PartWord<'_>>
        ensures { result ≡ whole_fields numbers.now (Some self) }
    {
        if self.left == 0 {
            Some(PartWord::new(numbers, self.text, self.partial))
        } else {
            None
        }
    }
}

/// Returns the header fields in a section of the message.
fn fields_text(alloc: Global, section: &Section) -> Result<Option<PartText>, AllocError>
    ensures { IfOk result (λ text. text ≡ fields_text section.now) }
{
    match section {
        Section::Fields(names) => Ok(Some(PartText::Fields(names.try_copy(alloc)?))),
        Section::FieldsNot(names) => Ok(Some(PartText::FieldsNot(names.try_copy(alloc)?))),
        _ => Ok(None),
    }
}

/// Returns the header fields for which the one item asks, `left` octets before the end.
fn fields_named(
    alloc: Global,
    items: &[FetchItem],
    left: usize,
) -> Result<Option<Fields>, AllocError>
    ensures { IfOk result (λ fields. fields ≡ fields_named items.now left) }
{
    match items {
        [FetchItem::Section(body)] => match fields_text(alloc, &body.section)? {
            Some(text) => Ok(Some(Fields {
                text,
                partial: body.partial,
                left,
            })),
            None => Ok(None),
        },
        _ => Ok(None),
    }
}

/// Reads header fields of the message at the front of the octets.
fn read_fields(alloc: Global, octets: &Octets) -> Result<Option<Fields>, AllocError>
    ensures { IfOk result (λ fields. fields ≡ fields_by (fetch_items.read octets.now)) }
{
    let mut cursor = Cursor::new(octets);
    match read_fetch_items(&mut cursor, alloc) {
        Ok(items) => fields_named(alloc, items.as_slice(), cursor.rest().len()),
        Err(ReadError::Syntax) => Ok(None),
        Err(ReadError::Memory) => Err(AllocError),
    }
}

/// Returns a section of the message with these octets after its bracket.
fn section_of_message(alloc: Global, rest: &[u8]) -> Result<Octets, AllocError>
    ensures { IfOk result (λ octets. octets ≡ codes "BODY[" ++ rest.now) }
{
    Octets::from_vec(joined(alloc, b"BODY[", rest)?)
}

/// Returns the header fields of the part with these numbers for which the octets after them ask.
fn fields_after(alloc: Global, numbers: &[u8], rest: &[u8]) -> Result<Option<Fields>, AllocError>
    ensures { IfOk result (λ fields. fields ≡ fields_after numbers.now rest.now) }
{
    if numbers.ends_with(b".") && are_numbers(numbers) {
        let octets = section_of_message(alloc, rest)?;
        read_fields(alloc, &octets)
    } else {
        Ok(None)
    }
}

/// Returns the header fields of a part for which octets after a bracket ask, at their front.
pub(crate) fn fields_in(alloc: Global, octets: &[u8]) -> Result<Option<Fields>, AllocError>
    ensures { IfOk result (λ fields. fields ≡ fields_in octets.now) }
{
    let (numbers, rest) = split_numbers(octets);
    fields_after(alloc, numbers, rest)
}

/// Returns how many octets stand before those that are left.
fn length_before(len: usize, fields: Option<Fields>) -> usize
    ensures { result ≡ length_before len fields }
{
    match fields {
        Some(fields) => len.saturating_sub(fields.left),
        None => 0,
    }
}

/// Returns the octets after a word, and the word before them.
fn joined(alloc: Global, word: &[u8], octets: &[u8]) -> Result<Vec<u8>, AllocError>
    ensures { IfOk result (λ all. all.items ≡ word.now ++ octets.now) }
{
    let mut all = Vec::new(alloc);
    all.extend_from_slice(word)?;
    all.extend_from_slice(octets)?;
    Ok(all)
}

/// Returns how many octets after a word end it as one that asks for header fields of a part.
pub(crate) fn fields_length(alloc: Global, word: &[u8], octets: &[u8]) -> Result<usize, AllocError>
    ensures { IfOk result (λ len. len ≡ fields_length word.now octets.now) }
{
    let all = joined(alloc, word, octets)?;
    match after_bracket(all.as_slice()) {
        Some(rest) => Ok(length_before(octets.len(), fields_in(alloc, rest)?)),
        None => Ok(0),
    }
}
