//! Fields by their names (RFC 9051, sections 6.4.4 and 6.4.5.1).

ghost use Rattle.std.specs.Prelude.{◌≡◌, ◌≤◌, false, [], ◌∷◌, ◌++◌, length, map, slice_range};
ghost use Rattle.std.specs.Prelude.{IfOk, OnOk, MatchOption};
ghost use Rattle.std.specs.List.{concat};
ghost use Rattle.imap_text.specs.Fields.{is_named, fields, field_texts};
ghost use Rattle.imap_text.specs.Found.{IsTextNamed};

use crate::field::{Field, colon_of, is_named, split_field};
use crate::section::header_length;
use imap_lex::Octets;
use imap_syntax::{FieldName, Items};
use std::alloc::{AllocError, Global};

/// Appends to `parts` the octets of `message` from `start` up to `end`, if there are any.
pub(crate) fn push_part(
    parts: &mut Vec<Octets>,
    message: &Octets,
    start: usize,
    end: usize,
) -> Result<(), AllocError>
    requires order { start ≤ end }
    requires within { end ≤ length message.now }
    ensures { OnOk result (concat parts.new.items
        ≡ concat parts.old.items ++ slice_range message.now start end) }
{
    if start < end {
        parts.push(message.slice(start, end)?)?;
    }
    Ok(())
}

/// Returns the fields of the header that have one of `names`, or if `not` those that have none of them, and
/// the empty line after the header, if there is one. Names are compared without ASCII case. A field's name is
/// what stands before the first colon of its first line; a field without a colon has no name.
///
/// The parts share the octets of the message, one part for each run of adjacent fields: a response can keep
/// them as long as it lives, and a printer writes one after the other.
pub fn fields(
    alloc: Global,
    message: &Octets,
    names: &[FieldName],
    not: bool,
) -> Result<Items<Octets>, AllocError>
    ensures { IfOk result (λ parts. concat parts ≡ fields names.now not message.now) }
{
    let len = message.as_slice().len();
    let mut parts = Vec::new(alloc);
    let mut rest = message.as_slice();
    // The fields from here up to `rest` are asked for and in no part yet.
    let mut start = 0;
    while let Some(field) = split_field(rest) {
        let at = len - rest.len();
        rest = field.later;
        if is_named(names, field.line) == not {
            push_part(&mut parts, message, start, at)?;
            start = len - rest.len();
        }
    }
    let end = len - rest.len() + header_length(rest);
    push_part(&mut parts, message, start, end)?;
    Ok(Items::from_vec(parts))
}

/// Returns the text of the field if it has this name.
fn text_named<'a>(field: Field<'a>, name: &[u8]) -> Option<&'a [u8]>
    requires { length field.line.now ≤ length field.octets.now }
    ensures { MatchOption result (is_named (name.now ∷ []) field.entry.line.now ≡ false)
        (λ text. IsTextNamed name.now field.entry.line.now field.entry.octets.now text.now) }
{
    let colon = colon_of(field.line)?;
    if name.eq_ignore_ascii_case(&field.line[..colon]) {
        Some(&field.octets[colon + 1..])
    } else {
        None
    }
}

/// Returns the texts of the header's fields with this name, compared without ASCII case: what follows the
/// colon, from its first space to its last CRLF, with the lines that continue the field.
pub fn field_texts<'a>(
    alloc: Global,
    message: &'a [u8],
    name: &[u8],
) -> Result<Vec<&'a [u8]>, AllocError>
    ensures { IfOk result (λ texts. map (λ text. text.now) texts.items ≡ field_texts name.now message.now) }
{
    let mut texts = Vec::new(alloc);
    let mut rest = message;
    while let Some(field) = split_field(rest) {
        rest = field.later;
        if let Some(text) = text_named(field, name) {
            texts.push(text)?;
        }
    }
    Ok(texts)
}
