//! The items of a message (RFC 9051, section 7.5.2).

ghost use Rattle.std.specs.Prelude.{◌≡◌, ◌++◌, IfOk, OnOk, map, false};
ghost use Rattle.std.specs.List.{concat};
ghost use Rattle.imap_print.specs.Words.{GoesOn};
ghost use Rattle.imap_print.specs.Fetched.{section_text, origin_text, body_text};
ghost use Rattle.imap_print.specs.Fetched.{flags_words, date_words, mod_seq_words};
ghost use Rattle.imap_print.specs.Fetched.{fetch_front, fetched_words, fetched_text, item_words};
ghost use Rattle.imap_syntax.specs.Written.{literal_text};
ghost use Rattle.imap_print.specs.Pieces.{octets_of};

use super::flags::push_flags;
use super::pieces::Pieces;
use super::strings::push_names;
use super::words::{push_named, push_space, widened};
use crate::fetch::{FetchedItems, FetchedSection};
use crate::flag::FlagSet;
use crate::literal_parts::LiteralParts;
use imap_query::Section;
use imap_syntax::{DateTime, push_between, push_date_time};
use std::alloc::AllocError;

fn push_section(out: &mut Vec<u8>, section: &Section) -> Result<(), AllocError>
    ensures { OnOk result (out.new.items ≡ out.old.items ++ section_text section.now) }
{
    match section {
        Section::Whole => Ok(()),
        Section::Header => out.extend_from_slice(b"HEADER"),
        Section::Text => out.extend_from_slice(b"TEXT"),
        Section::Fields(names) => {
            out.extend_from_slice(b"HEADER.FIELDS ")?;
            push_names(out, names.as_slice())
        }
        Section::FieldsNot(names) => {
            out.extend_from_slice(b"HEADER.FIELDS.NOT ")?;
            push_names(out, names.as_slice())
        }
    }
}

fn push_origin(out: &mut Vec<u8>, origin: Option<u64>) -> Result<(), AllocError>
    ensures { OnOk result (out.new.items ≡ out.old.items ++ origin_text origin) }
{
    if let Some(origin) = origin {
        push_between(out, b"<", origin, b">")?;
    }
    Ok(())
}

/// Appends the name of the section and a space. The literal of its octets is to follow.
fn push_body_name(out: &mut Vec<u8>, body: &FetchedSection) -> Result<(), AllocError>
    ensures { OnOk result (out.new.items ++ literal_text (concat body.now.octets)
        ≡ out.old.items ++ body_text body.now) }
{
    out.extend_from_slice(b"BODY[")?;
    push_section(out, &body.section)?;
    out.push(b']')?;
    push_origin(out, body.origin)?;
    out.push(b' ')?;
    Ok(())
}

/// Appends a section: its name and its octets as a literal.
pub fn print_section(out: &mut Pieces, body: &FetchedSection) -> Result<(), AllocError>
    ensures { OnOk result (octets_of out.new ≡ octets_of out.old ++ body_text body.now) }
{
    push_body_name(&mut out.text, body)?;
    print_literal(out, &body.octets)
}

/// Appends octets as a literal (RFC 9051, section 4.3).
pub fn print_literal(out: &mut Pieces, octets: &LiteralParts) -> Result<(), AllocError>
    ensures { OnOk result (octets_of out.new ≡ octets_of out.old ++ literal_text (concat octets.now)) }
{
    push_between(&mut out.text, b"{", octets.len(), b"}\r\n")?;
    out.push_parts(octets.as_slice())
}

fn push_fetched_flags(
    out: &mut Vec<u8>,
    begun: bool,
    flags: &Option<FlagSet>,
) -> Result<bool, AllocError>
    ensures { IfOk result (λ now. GoesOn out.old.items begun (flags_words flags.now) out.new.items now) }
{
    match flags {
        Some(flags) => {
            push_space(out, begun)?;
            out.extend_from_slice(b"FLAGS ")?;
            push_flags(out, flags)?;
            Ok(true)
        }
        None => Ok(begun),
    }
}

fn push_internal_date(
    out: &mut Vec<u8>,
    begun: bool,
    date: Option<DateTime>,
) -> Result<bool, AllocError>
    ensures { IfOk result (λ now. GoesOn out.old.items begun (date_words date) out.new.items now) }
{
    match date {
        Some(date) => {
            push_space(out, begun)?;
            out.extend_from_slice(b"INTERNALDATE ")?;
            push_date_time(out, &date)?;
            Ok(true)
        }
        None => Ok(begun),
    }
}

fn push_mod_seq(out: &mut Vec<u8>, begun: bool, mod_seq: Option<u64>) -> Result<bool, AllocError>
    ensures { IfOk result (λ now. GoesOn out.old.items begun (mod_seq_words mod_seq) out.new.items now) }
{
    match mod_seq {
        Some(mod_seq) => {
            push_space(out, begun)?;
            push_between(out, b"MODSEQ (", mod_seq, b")")?;
            Ok(true)
        }
        None => Ok(begun),
    }
}

fn push_bodies(out: &mut Pieces, begun: bool, bodies: &[FetchedSection]) -> Result<bool, AllocError>
    ensures { IfOk result (λ now.
        GoesOn (octets_of out.old) begun (map body_text bodies.now) (octets_of out.new) now) }
{
    let mut begun = begun;
    for body in bodies {
        push_space(&mut out.text, begun)?;
        print_section(out, body)?;
        begun = true;
    }
    Ok(begun)
}

/// Appends the items but the sections. Returns whether there is a word by now.
fn push_item_words(out: &mut Vec<u8>, items: &FetchedItems) -> Result<bool, AllocError>
    ensures { IfOk result (λ now. GoesOn out.old.items false (item_words items.now) out.new.items now) }
{
    let begun = push_named(out, false, b"UID ", widened(items.uid))?;
    let begun = push_fetched_flags(out, begun, &items.flags)?;
    let begun = push_internal_date(out, begun, items.internal_date)?;
    let begun = push_named(out, begun, b"RFC822.SIZE ", items.size)?;
    push_mod_seq(out, begun, items.mod_seq)
}

/// Appends what stands before the sections of a message: its number, the opening parenthesis, and its items but
/// the sections. Returns whether there is an item by now. `)` and CRLF end the line.
pub fn print_fetch_front(
    out: &mut Pieces,
    number: u32,
    items: &FetchedItems,
) -> Result<bool, AllocError>
    ensures { IfOk result (λ now.
        GoesOn (octets_of out.old ++ fetch_front number) false (item_words items.now) (octets_of out.new) now) }
{
    push_between(&mut out.text, b"* ", u64::from(number), b" FETCH (")?;
    push_item_words(&mut out.text, items)
}

fn push_fetched_words(out: &mut Pieces, items: &FetchedItems) -> Result<bool, AllocError>
    ensures { IfOk result (λ now.
        GoesOn (octets_of out.old) false (fetched_words items.now) (octets_of out.new) now) }
{
    let begun = push_item_words(&mut out.text, items)?;
    push_bodies(out, begun, items.sections.as_slice())
}

pub(super) fn push_fetched(out: &mut Pieces, items: &FetchedItems) -> Result<(), AllocError>
    ensures { OnOk result (octets_of out.new ≡ octets_of out.old ++ fetched_text items.now) }
{
    out.text.push(b'(')?;
    push_fetched_words(out, items)?;
    out.text.push(b')')?;
    Ok(())
}
