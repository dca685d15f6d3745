//! Messages that are told under labels.

ghost use Rattle.std.specs.Prelude.{◌≡◌, ◌++◌, [], ◌∷◌, find, IfOk, OnOk, option_copied};
ghost use Rattle.imap_lex.specs.Framing.{crlf};
ghost use Rattle.imap_print.specs.Pieces.{octets_of};
ghost use Rattle.imap_print.specs.Words.{GoesOn, space};
ghost use Rattle.imap_rev1.specs.Labels.{all_asked_words, asked_text, asked_words, fetch_text, first_of};
ghost use Rattle.imap_rev1.specs.Labels.{from_other, has_label, is_of, labelled_text, rest_after};
ghost use Rattle.imap_rev1.specs.Labels.{section_for, stands_for};

use crate::contents::push_contents;
use crate::parts::push_section;
use imap_print::{FetchedItems, FetchedSection, Pieces, print_fetch_front, print_section};
use imap_query::Section;
use imap_rev1_frames::{Asked, Label};
use std::alloc::{AllocError, Global};

fn is_of(label: Label, section: &Section) -> bool
    ensures { result ≡ is_of label section.now }
{
    match section {
        Section::Whole => matches!(
            label,
            Label::Message | Label::Body | Label::Structure | Label::Full
        ),
        Section::Header => matches!(label, Label::Header | Label::Envelope),
        Section::Text => matches!(label, Label::Text),
        _ => false,
    }
}

/// Whether the label stands for the section, which is no part of one.
fn stands_for(label: Label, body: &FetchedSection) -> bool
    ensures { result ≡ stands_for label body.now }
{
    body.origin.is_none() && is_of(label, &body.section)
}

fn has_label(body: &FetchedSection) -> bool
    ensures { result ≡ has_label body.now }
{
    stands_for(Label::Message, body)
        || stands_for(Label::Header, body)
        || stands_for(Label::Text, body)
}

/// Returns the section of the label.
fn labelled(bodies: &[FetchedSection], label: Label) -> Option<&FetchedSection>
    ensures { option_copied result ≡ find (stands_for label) bodies.now }
{
    bodies.iter().find(|body| stands_for(label, body))
}

/// Returns the sections from the first on that has no label.
fn from_other(bodies: &[FetchedSection]) -> &[FetchedSection]
    ensures { result.now ≡ from_other bodies.now }
{
    let mut rest = bodies;
    while let Some((body, later)) = rest.split_first() {
        if !has_label(body) {
            return rest;
        }
        rest = later;
    }
    rest
}

/// Returns the section for which an item asks, or the message for a part. `rest` are those that may be for it if
/// it has no label.
fn section_for<'a>(
    bodies: &'a [FetchedSection],
    rest: &'a [FetchedSection],
    asked: &Asked,
) -> Option<&'a FetchedSection>
    ensures { option_copied result ≡ section_for bodies.now rest.now asked.now }
{
    match asked {
        Asked::Labelled(label) => labelled(bodies, *label),
        Asked::Unlabelled(label) => labelled(bodies, *label),
        Asked::Part(_) => labelled(bodies, Label::Message),
        Asked::Section => from_other(rest).first(),
        _ => None,
    }
}

/// Returns the sections that may be for later items.
fn rest_after<'a>(rest: &'a [FetchedSection], asked: &Asked) -> &'a [FetchedSection]
    ensures { result.now ≡ rest_after asked.now rest.now }
{
    match asked {
        Asked::Section => match from_other(rest).split_first() {
            Some((_, later)) => later,
            None => &[],
        },
        _ => rest,
    }
}

fn push_labelled(
    alloc: Global,
    out: &mut Pieces,
    label: Label,
    body: &FetchedSection,
) -> Result<(), AllocError>
    ensures { OnOk result (octets_of out.new ≡ octets_of out.old ++ labelled_text label body.now) }
{
    out.push_octets(label.name())?;
    out.push_octets(b" ")?;
    push_contents(alloc, out, label, &body.octets)
}

/// Appends the section as it was asked for.
fn push_body(
    alloc: Global,
    out: &mut Pieces,
    asked: &Asked,
    body: &FetchedSection,
) -> Result<(), AllocError>
    ensures { OnOk result (octets_of out.new ≡ octets_of out.old ++ asked_text asked.now body.now) }
{
    match asked {
        Asked::Labelled(label) => push_labelled(alloc, out, *label, body),
        Asked::Part(section) => push_section(alloc, out, section, body.octets.as_slice()),
        _ => print_section(out, body),
    }
}

fn push_space(out: &mut Pieces, begun: bool) -> Result<(), AllocError>
    ensures { OnOk result (octets_of out.new ≡ octets_of out.old ++ space begun) }
{
    if begun { out.push_octets(b" ") } else { Ok(()) }
}

/// Appends the section for which an item asks, if it is there. Returns whether there is a word by now.
fn push_asked(
    alloc: Global,
    out: &mut Pieces,
    begun: bool,
    bodies: &[FetchedSection],
    rest: &[FetchedSection],
    asked: &Asked,
) -> Result<bool, AllocError>
    ensures { let words = asked_words bodies.now rest.now asked.now in
        IfOk result (λ now. GoesOn (octets_of out.old) begun words (octets_of out.new) now) }
{
    match section_for(bodies, rest, asked) {
        Some(body) => {
            push_space(out, begun)?;
            push_body(alloc, out, asked, body)?;
            Ok(true)
        }
        None => Ok(begun),
    }
}

fn push_all_asked(
    alloc: Global,
    out: &mut Pieces,
    begun: bool,
    bodies: &[FetchedSection],
    all: &[Asked],
) -> Result<bool, AllocError>
    ensures { let words = all_asked_words bodies.now bodies.now all.now in
        IfOk result (λ now. GoesOn (octets_of out.old) begun words (octets_of out.new) now) }
{
    let mut begun = begun;
    let mut rest = bodies;
    for asked in all {
        begun = push_asked(alloc, out, begun, bodies, rest, asked)?;
        rest = rest_after(rest, asked);
    }
    Ok(begun)
}

/// Appends the line of a message: its items but the sections, and the sections as they were asked for.
pub(crate) fn push_fetch(
    alloc: Global,
    out: &mut Pieces,
    all: &[Asked],
    number: u32,
    items: &FetchedItems,
) -> Result<(), AllocError>
    ensures { OnOk result (octets_of out.new
        ≡ octets_of out.old ++ (fetch_text all.now number items.now ++ crlf)) }
{
    let begun = print_fetch_front(out, number, items)?;
    push_all_asked(alloc, out, begun, items.sections.as_slice(), all)?;
    out.push_octets(b")\r\n")?;
    Ok(())
}
