//! Reading sections of messages (RFC 9051, section 9, `section` and `section-binary`).

ghost use Rattle.std.specs.Prelude.{◌≡◌, None};
ghost use Rattle.imap_syntax.specs.Reading.{ReadsIfMemory, Reads};
ghost use Rattle.imap_query.specs.Sections.{partial, section_text, section_message, part_ends};
ghost use Rattle.imap_query.specs.Sections.{is_part_char, part_numbers, part_text, section_part};
ghost use Rattle.imap_query.specs.Sections.{section_end, body_section, section_binary};

use crate::fetch::{BodySection, FetchItem, Partial, Section};
use crate::fetch_word::SectionWord;
use imap_lex::{OctetClass, leading};
use imap_syntax::{Cursor, FieldName, ReadError};
use std::alloc::Global;

fn is_part_char(octet: u8) -> bool
    ensures { result ≡ is_part_char octet }
{
    octet.is_ascii_digit() || octet == b'.'
}

/// The class of [`is_part_char`].
struct PartChar;

impl OctetClass for PartChar {
    ghost test = { is_part_char };

    fn has(octet: u8) -> bool {
        is_part_char(octet)
    }
}

/// Whether a dot follows the last of nz-numbers with dots between them. `None` if the octets are no such
/// numbers.
fn part_ends(octets: &[u8]) -> Option<bool>
    ensures { result ≡ part_ends None octets.now }
{
    let mut number: Option<u64> = None;
    for octet in octets {
        number = match (number, *octet) {
            (None, digit @ b'1'..=b'9') => Some(u64::from(digit - b'0')),
            (Some(_), b'.') => None,
            (Some(number), digit @ b'0'..=b'9') => {
                let longer = 10 * number + u64::from(digit - b'0');
                if longer > u64::from(u32::MAX) {
                    return None;
                }
                Some(longer)
            }
            _ => return None,
        };
    }
    Some(number.is_none())
}

pub(crate) fn read_partial(cursor: &mut Cursor<'_>) -> Result<Option<Partial>, ReadError>
    ensures { Reads (λ p. p) result cursor.new (partial.read cursor.old) }
{
    if !cursor.has(b'<') {
        return Ok(None);
    }
    let offset = cursor.number(0, i64::MAX as u64)?;
    cursor.octet(b'.')?;
    let count = cursor.nz_number64()?;
    cursor.octet(b'>')?;
    Ok(Some(Partial { offset, count }))
}

/// Reads the part of a section after its word.
fn read_section_text(
    cursor: &mut Cursor<'_>,
    alloc: Global,
    word: SectionWord,
) -> Result<Section, ReadError>
    ensures { ReadsIfMemory (λ s. s) result cursor.new ((section_text word).read cursor.old) }
{
    match word {
        SectionWord::Header => Ok(Section::Header),
        SectionWord::Text => Ok(Section::Text),
        SectionWord::Fields => {
            cursor.space()?;
            let names = cursor.listed::<FieldName>(alloc)?;
            Ok(Section::Fields(names))
        }
        SectionWord::FieldsNot => {
            cursor.space()?;
            let names = cursor.listed::<FieldName>(alloc)?;
            Ok(Section::FieldsNot(names))
        }
        SectionWord::Mime => Err(ReadError::Syntax),
    }
}

fn read_section_message(cursor: &mut Cursor<'_>, alloc: Global) -> Result<Section, ReadError>
    ensures { ReadsIfMemory (λ s. s) result cursor.new (section_message.read cursor.old) }
{
    let word = cursor.keyword::<SectionWord>()?;
    read_section_text(cursor, alloc, word)
}

/// Reads the numbers of a part. Returns whether a dot follows them.
fn read_part_numbers(cursor: &mut Cursor<'_>) -> Result<bool, ReadError>
    ensures { Reads (λ d. d) result cursor.new (part_numbers.read cursor.old) }
{
    let numbers = cursor.front(leading::<PartChar>(cursor.rest()))?;
    part_ends(numbers).ok_or(ReadError::Syntax)
}

fn read_part_text(
    cursor: &mut Cursor<'_>,
    alloc: Global,
    word: SectionWord,
) -> Result<(), ReadError>
    ensures { ReadsIfMemory (λ _. tt) result cursor.new ((part_text word).read cursor.old) }
{
    match word {
        SectionWord::Mime => Ok(()),
        word => {
            read_section_text(cursor, alloc, word)?;
            Ok(())
        }
    }
}

fn read_section_part(cursor: &mut Cursor<'_>, alloc: Global) -> Result<(), ReadError>
    ensures { ReadsIfMemory (λ _. tt) result cursor.new (section_part.read cursor.old) }
{
    if !read_part_numbers(cursor)? {
        return Ok(());
    }
    let word = cursor.keyword::<SectionWord>()?;
    read_part_text(cursor, alloc, word)
}

/// Reads a section after its bracket.
pub(crate) fn read_body_section(
    cursor: &mut Cursor<'_>,
    alloc: Global,
    peek: bool,
) -> Result<FetchItem, ReadError>
    ensures { ReadsIfMemory (λ i. i) result cursor.new ((body_section peek).read cursor.old) }
{
    if cursor.has(b']') {
        return read_section_end(cursor, peek, Section::Whole);
    }
    if let [b'0'..=b'9', ..] = cursor.rest() {
        read_section_part(cursor, alloc)?;
        cursor.octet(b']')?;
        read_partial(cursor)?;
        return Ok(FetchItem::Unserved);
    }
    let section = read_section_message(cursor, alloc)?;
    cursor.octet(b']')?;
    read_section_end(cursor, peek, section)
}

/// Reads the range of octets, or nothing.
fn read_section_end(
    cursor: &mut Cursor<'_>,
    peek: bool,
    section: Section,
) -> Result<FetchItem, ReadError>
    ensures { Reads (λ i. i) result cursor.new ((section_end peek section).read cursor.old) }
{
    let partial = read_partial(cursor)?;
    Ok(FetchItem::Section(BodySection {
        peek,
        section,
        partial,
    }))
}

pub(crate) fn read_section_binary(cursor: &mut Cursor<'_>) -> Result<(), ReadError>
    ensures { Reads (λ _. tt) result cursor.new (section_binary.read cursor.old) }
{
    cursor.octet(b'[')?;
    if cursor.has(b']') {
        return Ok(());
    }
    if read_part_numbers(cursor)? {
        return Err(ReadError::Syntax);
    }
    cursor.octet(b']')
}
