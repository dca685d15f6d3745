//! Sections of a message (RFC 9051, section 6.4.5.1).

ghost use Rattle.std.specs.Prelude.{◌≡◌, IfOk, OnOk, map, option_map, Bool};
ghost use Rattle.std.specs.List.{concat, list_any};
ghost use Rattle.imap_messages.specs.BodySections as specs;
ghost use Rattle.imap_text.specs.Fields as text_specs;

use imap_lex::Octets;
use imap_print::{FetchedSection, LiteralParts};
use imap_query::{BodySection, Partial, Section};
use imap_syntax::{FieldName, Items};
use imap_text::{HeaderFields, header, partial, text};
use imap_values::{Same, TryCopy};
use std::alloc::{AllocError, Global};

fn is_same_section(section: &Section, other: &Section) -> bool
    ensures { result ≡ specs.is_same_section section.now other.now }
{
    section.is_same(other)
}

fn is_same_range(range: Option<Partial>, other: Option<Partial>) -> bool
    ensures { result ≡ specs.is_same_range range other }
{
    match (range, other) {
        (Some(range), Some(other)) => {
            range.offset == other.offset && range.count.get() == other.count.get()
        }
        (None, None) => true,
        _ => false,
    }
}

fn is_same_body(body: &BodySection, other: &BodySection) -> bool
    ensures { result ≡ specs.is_same_body body.now other.now }
{
    is_same_section(&body.section, &other.section) && is_same_range(body.partial, other.partial)
}

fn has_section(sections: &[BodySection], body: &BodySection) -> bool
    ensures { result ≡ list_any (specs.is_same_body body.now) sections.now }
{
    sections.iter().any(|section| is_same_body(body, section))
}

/// Adds the section to those that are sent, unless it is one of them.
pub(crate) fn add_section(
    alloc: Global,
    sections: &mut Vec<BodySection>,
    body: &BodySection,
) -> Result<(), AllocError>
    ensures { OnOk result (sections.new.items ≡ specs.with_section sections.old.items body.now) }
{
    if has_section(sections.as_slice(), body) {
        return Ok(());
    }
    sections.push(body.try_copy(alloc)?)?;
    Ok(())
}

/// Returns the sections of the message. All but header fields share its octets.
pub(crate) fn fetched_sections(
    alloc: Global,
    message: &Octets,
    sections: &[BodySection],
) -> Result<Items<FetchedSection>, AllocError>
    ensures { IfOk result (λ fetched. fetched ≡ map (specs.fetched_section message.now) sections.now) }
{
    let mut lookup = HeaderFields::new(message.as_slice());
    let mut fetched = Vec::with_capacity(alloc, sections.len())?;
    for body in sections {
        fetched.push(fetched_section(alloc, message, &mut lookup, body)?)?;
    }
    Ok(Items::from_vec(fetched))
}

/// Returns a section of the message, whose header fields `lookup` finds.
fn fetched_section(
    alloc: Global,
    message: &Octets,
    lookup: &mut HeaderFields<'_>,
    body: &BodySection,
) -> Result<FetchedSection, AllocError>
    requires { message.now ≡ lookup.old }
    ensures lookup { lookup.new ≡ lookup.old }
    ensures section { IfOk result (λ fetched. fetched ≡ specs.fetched_section message.now body.now) }
{
    let whole = section_octets(alloc, message, lookup, &body.section)?;
    let octets = octets_in(body.partial, whole)?;
    Ok(FetchedSection {
        section: body.section.try_copy(alloc)?,
        origin: origin_of(body.partial),
        octets: LiteralParts::of_octets(alloc, octets)?,
    })
}

fn section_octets(
    alloc: Global,
    message: &Octets,
    lookup: &mut HeaderFields<'_>,
    section: &Section,
) -> Result<Octets, AllocError>
    requires { message.now ≡ lookup.old }
    ensures lookup { lookup.new ≡ lookup.old }
    ensures octets { IfOk result (λ octets. octets ≡ specs.section_octets message.now section.now) }
{
    match section {
        Section::Whole => message.try_copy(),
        Section::Header => header(message),
        Section::Text => text(message),
        Section::Fields(names) => joined_fields(alloc, message, lookup, names.as_slice(), false),
        Section::FieldsNot(names) => joined_fields(alloc, message, lookup, names.as_slice(), true),
    }
}

/// The header fields that have one of the names, or if `not` those that have none of them, in one piece.
fn joined_fields(
    alloc: Global,
    message: &Octets,
    lookup: &mut HeaderFields<'_>,
    names: &[FieldName],
    not: bool,
) -> Result<Octets, AllocError>
    requires { message.now ≡ lookup.old }
    ensures lookup { lookup.new ≡ lookup.old }
    ensures octets { IfOk result (λ octets. octets ≡ text_specs.fields names.now not message.now) }
{
    let parts = lookup.fields(alloc, message, names, not)?;
    joined(alloc, parts.as_slice())
}

fn joined(alloc: Global, parts: &[Octets]) -> Result<Octets, AllocError>
    ensures { IfOk result (λ octets. octets ≡ concat parts.now) }
{
    let mut octets = Vec::new(alloc);
    for part in parts {
        octets.extend_from_slice(part.as_slice())?;
    }
    Octets::from_vec(octets)
}

fn octets_in(range: Option<Partial>, octets: Octets) -> Result<Octets, AllocError>
    ensures { IfOk result (λ part. part ≡ specs.octets_in range octets) }
{
    match range {
        Some(range) => partial(&octets, range.offset, range.count.get()),
        None => Ok(octets),
    }
}

fn origin_of(range: Option<Partial>) -> Option<u64>
    ensures { result ≡ option_map (λ r. r.offset) range }
{
    match range {
        Some(range) => Some(range.offset),
        None => None,
    }
}
