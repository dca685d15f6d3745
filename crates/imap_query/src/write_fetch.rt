//! Writing the items and modifiers of FETCH.

ghost use Rattle.std.specs.Prelude.{◌≡◌, ◌++◌, ◌∷◌, [], OnOk, codes, decimal};
ghost use Rattle.imap_query.specs.WrittenFetch.{section_fits, section_text, partial_fits, partial_text};
ghost use Rattle.imap_query.specs.WrittenFetch.{peek_text, body_text, single_text, is_flags};
ghost use Rattle.imap_query.specs.WrittenFetch.{is_internal_date, is_size, is_fast, several_text};
ghost use Rattle.imap_query.specs.WrittenFetch.{fetch_items, changed_fits, modifiers_text};

use crate::fetch::{BodySection, FetchItem, Partial, Section};
use imap_syntax::{
    FieldName, Spelling, mod_sequence_fits, number64_fits, push_between, push_listed, some_fit,
};
use std::alloc::AllocError;

fn section_fits(section: &Section) -> bool
    ensures { result ≡ section_fits section.now }
{
    match section {
        Section::Whole | Section::Header | Section::Text => true,
        Section::Fields(names) | Section::FieldsNot(names) => {
            some_fit::<FieldName>(names.as_slice())
        }
    }
}

fn push_section(out: &mut Vec<u8>, section: &Section) -> Result<(), AllocError>
    ensures { OnOk result (out.new.items ≡ out.old.items ++ section_text section.now) }
{
    match section {
        Section::Whole => Ok(()),
        Section::Header => out.extend_from_slice(b"HEADER"),
        Section::Text => out.extend_from_slice(b"TEXT"),
        Section::Fields(names) => {
            out.extend_from_slice(b"HEADER.FIELDS ")?;
            push_listed::<FieldName>(out, names.as_slice())
        }
        Section::FieldsNot(names) => {
            out.extend_from_slice(b"HEADER.FIELDS.NOT ")?;
            push_listed::<FieldName>(out, names.as_slice())
        }
    }
}

fn partial_fits(range: &Option<Partial>) -> bool
    ensures { result ≡ partial_fits range.now }
{
    match range {
        Some(range) => number64_fits(range.offset) && mod_sequence_fits(range.count.get()),
        None => true,
    }
}

fn push_partial(out: &mut Vec<u8>, range: &Option<Partial>) -> Result<(), AllocError>
    ensures { OnOk result (out.new.items ≡ out.old.items ++ partial_text range.now) }
{
    match range {
        Some(range) => {
            push_between(out, b"<", range.offset, b".")?;
            push_between(out, b"", range.count.get(), b">")
        }
        None => Ok(()),
    }
}

fn push_peek(out: &mut Vec<u8>, peek: bool) -> Result<(), AllocError>
    ensures { OnOk result (out.new.items ≡ out.old.items ++ peek_text peek) }
{
    if peek {
        out.extend_from_slice(b"BODY.PEEK[")
    } else {
        out.extend_from_slice(b"BODY[")
    }
}

fn push_body_section(out: &mut Vec<u8>, body: &BodySection) -> Result<(), AllocError>
    ensures { OnOk result (out.new.items ≡ out.old.items ++ body_text body.now) }
{
    push_peek(out, body.peek)?;
    push_section(out, &body.section)?;
    out.push(b']')?;
    push_partial(out, &body.partial)
}

impl Spelling for FetchItem {
    ghost use Rattle.imap_query.specs.WrittenFetch.{fetch_item};

    type Value = FetchItem;

    ghost writing = { fetch_item };

    fn fits(item: &FetchItem) -> bool {
        match item {
            FetchItem::Section(body) => section_fits(&body.section) && partial_fits(&body.partial),
            _ => true,
        }
    }

    /// An item that isn't served is written as BODY, the shortest of them.
    fn push(out: &mut Vec<u8>, item: &FetchItem) -> Result<(), AllocError> {
        match item {
            FetchItem::Uid => out.extend_from_slice(b"UID"),
            FetchItem::Flags => out.extend_from_slice(b"FLAGS"),
            FetchItem::InternalDate => out.extend_from_slice(b"INTERNALDATE"),
            FetchItem::Rfc822Size => out.extend_from_slice(b"RFC822.SIZE"),
            FetchItem::ModSeq => out.extend_from_slice(b"MODSEQ"),
            FetchItem::Section(body) => push_body_section(out, body),
            FetchItem::Unserved => out.extend_from_slice(b"BODY"),
        }
    }
}

/// Whether the items can be written.
pub fn items_fit(items: &[FetchItem]) -> bool
    ensures { result ≡ fetch_items.fits items.now }
{
    some_fit::<FetchItem>(items)
}

impl FetchItem {
    fn is_flags(&self) -> bool
        ensures { result ≡ is_flags self.now }
    {
        matches!(self, FetchItem::Flags)
    }

    fn is_internal_date(&self) -> bool
        ensures { result ≡ is_internal_date self.now }
    {
        matches!(self, FetchItem::InternalDate)
    }

    fn is_size(&self) -> bool
        ensures { result ≡ is_size self.now }
    {
        matches!(self, FetchItem::Rfc822Size)
    }
}

/// Whether the items are those of the macro FAST.
fn is_fast(items: &[FetchItem]) -> bool
    ensures { result ≡ is_fast items.now }
{
    match items {
        [first, second, third] => {
            first.is_flags() && second.is_internal_date() && third.is_size()
        }
        _ => false,
    }
}

/// Appends an item alone. One that isn't served is written as ALL.
fn push_single(out: &mut Vec<u8>, item: &FetchItem) -> Result<(), AllocError>
    ensures { OnOk result (out.new.items ≡ out.old.items ++ single_text item.now) }
{
    match item {
        FetchItem::Unserved => out.extend_from_slice(b"ALL"),
        item => FetchItem::push(out, item),
    }
}

/// Appends items as the macro FAST, or in parentheses.
fn push_several(out: &mut Vec<u8>, items: &[FetchItem]) -> Result<(), AllocError>
    ensures { OnOk result (out.new.items ≡ out.old.items ++ several_text items.now) }
{
    if is_fast(items) {
        out.extend_from_slice(b"FAST")
    } else {
        push_listed::<FetchItem>(out, items)
    }
}

/// Appends the items of FETCH: one item, a macro, or items in parentheses.
pub fn push_items(out: &mut Vec<u8>, items: &[FetchItem]) -> Result<(), AllocError>
    ensures { OnOk result (out.new.items ≡ out.old.items ++ fetch_items.text items.now) }
{
    match items {
        [item] => push_single(out, item),
        items => push_several(out, items),
    }
}

/// Whether the mod-sequence of CHANGEDSINCE, if there is one, can be written.
pub fn changed_fits(changed_since: Option<u64>) -> bool
    ensures { result ≡ changed_fits changed_since }
{
    match changed_since {
        Some(since) => mod_sequence_fits(since),
        None => true,
    }
}

/// Appends a space and the modifiers, or nothing (RFC 7162, sections 3.1.4.1 and 3.2.6).
pub fn push_modifiers(
    out: &mut Vec<u8>,
    changed_since: Option<u64>,
    vanished: bool,
) -> Result<(), AllocError>
    ensures { OnOk result (out.new.items ≡ out.old.items ++ modifiers_text changed_since vanished) }
{
    match (changed_since, vanished) {
        (None, false) => Ok(()),
        (None, true) => out.extend_from_slice(b" (VANISHED)"),
        (Some(since), false) => push_between(out, b" (CHANGEDSINCE ", since, b")"),
        (Some(since), true) => push_between(out, b" (CHANGEDSINCE ", since, b" VANISHED)"),
    }
}
