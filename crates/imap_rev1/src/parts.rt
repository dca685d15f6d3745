//! Sections of parts, told as they were asked for (RFC 9051, sections 6.4.5.1 and 7.5.2).

ghost use Rattle.std.specs.Prelude.{◌≡◌, ◌++◌, IfOk, OnOk, decimal, map, option_copied, option_map};
ghost use Rattle.std.specs.List.{concat};
ghost use Rattle.imap_print.specs.Fetched.{names_text, origin_text};
ghost use Rattle.imap_print.specs.Pieces.{octets_of};
ghost use Rattle.imap_print.specs.Strings.{name_text};
ghost use Rattle.imap_print.specs.Words.{before_each};
ghost use Rattle.imap_syntax.specs.Written.{literal_text};
ghost use Rattle.imap_text.specs.Fields as text_specs;
ghost use Rattle.imap_rev1.specs.Parts.{cut_of, found_text, numbers_text, octets_at, octets_within, origin_of};
ghost use Rattle.imap_rev1.specs.Parts.{part_name, part_octets, section_text, text_name};

use crate::contents::joined;
use imap_lex::Octets;
use imap_print::Pieces;
use imap_query::Partial;
use imap_rev1_frames::{PartSection, PartText};
use imap_structure::{message_at, part_at, split_header};
use imap_syntax::FieldName;
use imap_text::fields;
use std::alloc::{AllocError, Global};

/// Returns the part of the message, if it is there, or the message that the part is.
fn octets_at<'a>(
    alloc: Global,
    section: &PartSection,
    message: &'a [u8],
) -> Result<Option<&'a [u8]>, AllocError>
    ensures { IfOk result (λ octets. option_copied octets
        ≡ octets_at section.now.text section.now.numbers message.now) }
{
    let numbers = section.numbers.as_slice();
    match section.text {
        PartText::Body | PartText::Mime => part_at(alloc, message, numbers),
        _ => message_at(alloc, message, numbers),
    }
}

/// Returns the octets in the range, or all if none is given.
fn octets_within(range: Option<Partial>, octets: &[u8]) -> &[u8]
    ensures { result.now ≡ octets_within range octets.now }
{
    match range {
        Some(range) => {
            let start = range.offset.min(octets.len() as u64);
            let (_, rest) = octets.split_at(start as usize);
            let count = range.count.get().min(rest.len() as u64);
            let (front, _) = rest.split_at(count as usize);
            front
        }
        None => octets,
    }
}

/// Appends the numbers, each after a dot.
fn push_further_numbers(out: &mut Pieces, numbers: &[u32]) -> Result<(), AllocError>
    ensures { OnOk result (octets_of out.new
        ≡ octets_of out.old ++ before_each 46 (map decimal numbers.now)) }
{
    for number in numbers {
        out.push_octets(b".")?;
        out.push_number(u64::from(*number))?;
    }
    Ok(())
}

/// Appends the numbers, with dots between them.
fn push_numbers(out: &mut Pieces, numbers: &[u32]) -> Result<(), AllocError>
    ensures { OnOk result (octets_of out.new ≡ octets_of out.old ++ numbers_text numbers.now) }
{
    match numbers.split_first() {
        Some((first, further)) => {
            out.push_number(u64::from(*first))?;
            push_further_numbers(out, further)
        }
        None => Ok(()),
    }
}

/// Appends the names of header fields, each after a space.
fn push_further_names(out: &mut Pieces, names: &[FieldName]) -> Result<(), AllocError>
    ensures { OnOk result (octets_of out.new
        ≡ octets_of out.old ++ before_each 32 (map name_text names.now)) }
{
    for name in names {
        out.push_octets(b" ")?;
        out.push_name(name.as_slice())?;
    }
    Ok(())
}

/// Appends the names of header fields in parentheses.
fn push_names(out: &mut Pieces, names: &[FieldName]) -> Result<(), AllocError>
    ensures { OnOk result (octets_of out.new ≡ octets_of out.old ++ names_text names.now) }
{
    out.push_octets(b"(")?;
    if let Some((first, further)) = names.split_first() {
        out.push_name(first.as_slice())?;
        push_further_names(out, further)?;
    }
    out.push_octets(b")")
}

/// Appends the name of what a section has of a part, after a dot.
fn push_text_name(out: &mut Pieces, text: &PartText) -> Result<(), AllocError>
    ensures { OnOk result (octets_of out.new ≡ octets_of out.old ++ text_name text.now) }
{
    match text {
        PartText::Body => Ok(()),
        PartText::Mime => out.push_octets(b".MIME"),
        PartText::Header => out.push_octets(b".HEADER"),
        PartText::Text => out.push_octets(b".TEXT"),
        PartText::Fields(names) => {
            out.push_octets(b".HEADER.FIELDS ")?;
            push_names(out, names.as_slice())
        }
        PartText::FieldsNot(names) => {
            out.push_octets(b".HEADER.FIELDS.NOT ")?;
            push_names(out, names.as_slice())
        }
    }
}

/// Appends the offset of the range.
fn push_origin(out: &mut Pieces, range: Option<Partial>) -> Result<(), AllocError>
    ensures { OnOk result (octets_of out.new ≡ octets_of out.old ++ origin_text (origin_of range)) }
{
    match range {
        Some(range) => {
            out.push_octets(b"<")?;
            out.push_number(range.offset)?;
            out.push_octets(b">")
        }
        None => Ok(()),
    }
}

/// Appends the name of the section.
fn push_name(out: &mut Pieces, section: &PartSection) -> Result<(), AllocError>
    ensures { OnOk result (octets_of out.new ≡ octets_of out.old ++ part_name section.now) }
{
    out.push_octets(b"BODY[")?;
    push_numbers(out, section.numbers.as_slice())?;
    push_text_name(out, &section.text)?;
    out.push_octets(b"]")?;
    push_origin(out, section.partial)
}

/// Appends the octets as a literal.
fn push_literal(out: &mut Pieces, octets: &[u8]) -> Result<(), AllocError>
    ensures { OnOk result (octets_of out.new ≡ octets_of out.old ++ literal_text octets.now) }
{
    out.push_octets(b"{")?;
    out.push_number(octets.len() as u64)?;
    out.push_octets(b"}\r\n")?;
    out.push_octets(octets)
}

/// Appends the octets in the range as a literal.
fn push_range(out: &mut Pieces, range: Option<Partial>, octets: &[u8]) -> Result<(), AllocError>
    ensures { OnOk result (octets_of out.new
        ≡ octets_of out.old ++ literal_text (octets_within range octets.now)) }
{
    push_literal(out, octets_within(range, octets))
}

/// Appends the header fields of a message that have one of the names, or if `not` those that have none of them,
/// in the range.
fn push_fields(
    alloc: Global,
    out: &mut Pieces,
    range: Option<Partial>,
    message: &[u8],
    names: &[FieldName],
    not: bool,
) -> Result<(), AllocError>
    ensures { let octets = text_specs.fields names.now not message.now in OnOk result (octets_of out.new
        ≡ octets_of out.old ++ literal_text (octets_within range octets)) }
{
    let message = Octets::from_slice(alloc, message)?;
    let parts = fields(alloc, &message, names, not)?;
    let octets = joined(alloc, parts.as_slice())?;
    push_range(out, range, octets.as_slice())
}

/// Appends what the section has of the part, or of the message that the part is.
fn push_cut(
    alloc: Global,
    out: &mut Pieces,
    section: &PartSection,
    octets: &[u8],
) -> Result<(), AllocError>
    ensures { let cut = cut_of section.now.text octets.now in OnOk result (octets_of out.new
        ≡ octets_of out.old ++ literal_text (octets_within section.now.partial cut)) }
{
    let range = section.partial;
    let (header, text) = split_header(octets);
    match &section.text {
        PartText::Body | PartText::Text => push_range(out, range, text),
        PartText::Mime | PartText::Header => push_range(out, range, header),
        PartText::Fields(names) => push_fields(alloc, out, range, octets, names.as_slice(), false),
        PartText::FieldsNot(names) => push_fields(
            alloc,
            out,
            range,
            octets,
            names.as_slice(),
            true,
        ),
    }
}

/// Appends what the section has of the part, or NIL if the part isn't there.
fn push_found(
    alloc: Global,
    out: &mut Pieces,
    section: &PartSection,
    octets: Option<&[u8]>,
) -> Result<(), AllocError>
    ensures { let found = option_map (cut_of section.now.text) (option_copied octets.entry) in
        OnOk result (octets_of out.new ≡ octets_of out.old ++ found_text section.now.partial found) }
{
    match octets {
        Some(octets) => push_cut(alloc, out, section, octets),
        None => out.push_octets(b"NIL"),
    }
}

/// Appends the section of a part of the message.
fn push_section_of(
    alloc: Global,
    out: &mut Pieces,
    section: &PartSection,
    message: &[u8],
) -> Result<(), AllocError>
    ensures { OnOk result (octets_of out.new ≡ octets_of out.old ++ section_text section.now message.now) }
{
    push_name(out, section)?;
    out.push_octets(b" ")?;
    let octets = octets_at(alloc, section, message)?;
    push_found(alloc, out, section, octets)
}

/// Appends the section of a part of the message, whose pieces are copied if there are several.
pub(crate) fn push_section(
    alloc: Global,
    out: &mut Pieces,
    section: &PartSection,
    message: &[Octets],
) -> Result<(), AllocError>
    ensures { OnOk result (octets_of out.new
        ≡ octets_of out.old ++ section_text section.now (concat message.now)) }
{
    match message {
        [one] => push_section_of(alloc, out, section, one.as_slice()),
        _ => {
            let octets = joined(alloc, message)?;
            push_section_of(alloc, out, section, octets.as_slice())
        }
    }
}
