//! Sections of parts, as FETCH names them (RFC 9051, section 9, `section-part`).

ghost use Rattle.std.specs.Prelude.{◌≡◌, ◌++◌, IfOk, OnOk, None, bytes_eq, drop, option_copied, take};
ghost use Rattle.std.specs.Cmp.Lexicographic.{pointwise};
ghost use Rattle.std.specs.List.{prefix_len};
ghost use Rattle.std.specs.Char.{is_ascii_alphabetic};
ghost use Rattle.imap_rev1_frames.specs.Part.{after_bracket, are_numbers, count_in, end_in, ended, is_ended};
ghost use Rattle.imap_rev1_frames.specs.Part.{is_number_octet, is_same_part, is_same_range, is_same_text, message_for};
ghost use Rattle.imap_rev1_frames.specs.Part.{number_in, number_step, numbers_from, part_for, part_in, part_words};
ghost use Rattle.imap_rev1_frames.specs.Part.{range_in, range_or_none, text_in, text_named, whole_fields};
ghost use Rattle.imap_rev1_frames.specs.Part.{fields_in, words_after, words_in, words_with};

use crate::fields::fields_in;
use crate::named::{begins, is_word};
use imap_lex::{OctetClass, leading};
use imap_query::Partial;
use imap_syntax::{Digit, FieldName, Items, NzNumber64, decimal, is_bare};
use imap_values::Same;
use std::alloc::{AllocError, Global};
use std::marker::Model;

/// What a section has of a part.
#[derive(Drop)]
pub enum PartText {
    /// The body of the part.
    Body,
    /// The header of the part.
    Mime,
    /// The header of the message that the part is.
    Header,
    /// The text of the message that the part is.
    Text,
    /// The header fields of these names, of the message that the part is.
    Fields(Items<FieldName>),
    /// The header fields of other names, of the message that the part is.
    FieldsNot(Items<FieldName>),
}

/// A section of a part of a message.
#[derive(Drop)]
pub struct PartSection {
    /// The numbers of the part, from the outermost on.
    pub numbers: Items<u32>,
    pub text: PartText,
    /// The range of its octets that is wanted, if not all are.
    pub partial: Option<Partial>,
}

/// A section of a part, with its numbers as they are written.
#[derive(Drop)]
pub(crate) struct PartWord<'a> {
    numbers: &'a [u8],
    text: PartText,
    partial: Option<Partial>,
}

impl<'a> Model for PartWord<'a> {
    ghost use Rattle.imap_rev1_frames.specs.Part.{PartWords};

    ghost Value = { PartWords };

    ghost view = { λ w. record { numbers = w.numbers.now; text = w.text; partial = w.partial } };
}

impl<'a> PartWord<'a> {
    pub(crate) fn new(numbers: &'a [u8], text: PartText, partial: Option<Partial>) -> PartWord<'a>
        ensures { result ≡ record { numbers = numbers.now; text = text; partial = partial } }
    {
        PartWord {
            numbers,
            text,
            partial,
        }
    }
}

fn is_number_octet(octet: u8) -> bool
    ensures { result ≡ is_number_octet octet }
{
    octet.is_ascii_digit() || octet == b'.'
}

/// The class of [`is_number_octet`].
struct NumberOctet;

impl OctetClass for NumberOctet {
    ghost test = { is_number_octet };

    fn has(octet: u8) -> bool {
        is_number_octet(octet)
    }
}

/// The class of letters.
struct Letter;

impl OctetClass for Letter {
    ghost test = { is_ascii_alphabetic };

    fn has(octet: u8) -> bool {
        octet.is_ascii_alphabetic()
    }
}

/// Returns what has begun of a number after an octet, or `None` if the octet may not stand there.
fn number_step(begun: Option<u32>, octet: u8) -> Option<Option<u32>>
    ensures { result ≡ number_step begun octet }
{
    match (begun, octet) {
        (None, digit @ b'1'..=b'9') => Some(Some(u32::from(digit - b'0'))),
        (Some(_), b'.') => Some(None),
        (Some(number), digit @ b'0'..=b'9') => {
            let longer = 10 * u64::from(number) + u64::from(digit - b'0');
            if longer > u64::from(u32::MAX) {
                return None;
            }
            Some(Some(longer as u32))
        }
        _ => None,
    }
}

/// Whether the octets are numbers, with a dot after each, or after each but the last.
pub(crate) fn are_numbers(octets: &[u8]) -> bool
    ensures { result ≡ are_numbers None octets.now }
{
    let mut begun: Option<u32> = None;
    for octet in octets {
        match number_step(begun, *octet) {
            Some(next) => begun = next,
            None => return false,
        }
    }
    true
}

/// Appends the number that has begun, if it ends.
fn push_ended(
    numbers: &mut Vec<u32>,
    begun: Option<u32>,
    next: Option<u32>,
) -> Result<(), AllocError>
    ensures { OnOk result (numbers.new.items ≡ numbers.old.items ++ ended begun next) }
{
    match (begun, next) {
        (Some(number), None) => numbers.push(number)?,
        _ => {}
    }
    Ok(())
}

/// Returns the numbers in the octets.
fn numbers_from(alloc: Global, octets: &[u8]) -> Result<Vec<u32>, AllocError>
    ensures { IfOk result (λ numbers. numbers.items ≡ numbers_from None octets.now) }
{
    let mut numbers = Vec::new(alloc);
    let mut begun: Option<u32> = None;
    for octet in octets {
        match number_step(begun, *octet) {
            Some(next) => {
                push_ended(&mut numbers, begun, next)?;
                begun = next;
            }
            None => return Ok(numbers),
        }
    }
    push_ended(&mut numbers, begun, None)?;
    Ok(numbers)
}

fn text_named(word: &[u8]) -> Option<PartText>
    ensures { result ≡ text_named word.now }
{
    if is_word(b"MIME", word) {
        Some(PartText::Mime)
    } else if is_word(b"HEADER", word) {
        Some(PartText::Header)
    } else if is_word(b"TEXT", word) {
        Some(PartText::Text)
    } else {
        None
    }
}

/// Returns what a section has of a part, by the word after its numbers and perhaps a dot.
fn text_in(dotted: bool, word: &[u8]) -> Option<PartText>
    ensures { result ≡ text_in dotted word.now }
{
    if dotted {
        text_named(word)
    } else if word.is_empty() {
        Some(PartText::Body)
    } else {
        None
    }
}

/// Returns the number that the octets are, if they are digits and it is below 2^63.
fn number_in(digits: &[u8]) -> Option<u64>
    ensures { result ≡ number_in digits.now }
{
    if !is_bare::<Digit>(digits) {
        return None;
    }
    match decimal(digits) {
        Some(number) if number <= i64::MAX as u64 => Some(number),
        _ => None,
    }
}

/// Returns the number of octets that stands after a dot.
fn count_in(octets: &[u8]) -> Option<NzNumber64>
    ensures { result ≡ count_in octets.now }
{
    match octets {
        [b'.', b'0', ..] => None,
        [b'.', digits @ ..] => NzNumber64::new(number_in(digits)?),
        _ => None,
    }
}

/// Returns the range between `<` and `>`.
fn range_in(octets: &[u8]) -> Option<Partial>
    ensures { result ≡ range_in octets.now }
{
    let (digits, rest) = octets.split_at(leading::<Digit>(octets));
    let offset = number_in(digits)?;
    let count = count_in(rest)?;
    Some(Partial { offset, count })
}

/// Returns the range that the octets are, if there are any.
fn range_or_none(octets: &[u8]) -> Option<Option<Partial>>
    ensures { result ≡ range_or_none octets.now }
{
    match octets {
        [] => Some(None),
        [b'<', rest @ ..] if rest.ends_with(b">") => {
            let range = range_in(&rest[..rest.len() - 1])?;
            Some(Some(range))
        }
        _ => None,
    }
}

/// Returns the range at the end of a section, after the bracket.
fn end_in(octets: &[u8]) -> Option<Option<Partial>>
    ensures { result ≡ end_in octets.now }
{
    match octets {
        [b']', rest @ ..] => range_or_none(rest),
        _ => None,
    }
}

/// Returns the section of a part with these numbers and what stands after them.
fn words_after<'a>(numbers: &'a [u8], rest: &[u8]) -> Option<PartWord<'a>>
    ensures { result ≡ words_after numbers.now rest.now }
{
    let (word, end) = rest.split_at(leading::<Letter>(rest));
    let text = text_in(numbers.ends_with(b"."), word)?;
    let partial = end_in(end)?;
    Some(PartWord::new(numbers, text, partial))
}

fn words_with<'a>(numbers: &'a [u8], rest: &[u8]) -> Option<PartWord<'a>>
    ensures { result ≡ words_with numbers.now rest.now }
{
    if !numbers.is_empty() && are_numbers(numbers) {
        words_after(numbers, rest)
    } else {
        None
    }
}

/// Returns the digits and dots at the front of octets, and what follows them.
pub(crate) fn split_numbers(octets: &[u8]) -> (&[u8], &[u8])
    ensures numbers { result.0.now ≡ take (prefix_len is_number_octet octets.now) octets.now }
    ensures rest { result.1.now ≡ drop (prefix_len is_number_octet octets.now) octets.now }
{
    octets.split_at(leading::<NumberOctet>(octets))
}

/// Returns the section of a part with these numbers, if all of the octets ask for header fields of it.
fn fields_words<'a>(
    alloc: Global,
    numbers: &'a [u8],
    octets: &[u8],
) -> Result<Option<PartWord<'a>>, AllocError>
    ensures { IfOk result (λ words. words ≡ whole_fields numbers.now (fields_in octets.now)) }
{
    match fields_in(alloc, octets)? {
        Some(fields) => Ok(fields.whole(numbers)),
        None => Ok(None),
    }
}

/// Returns the section of a part that stands after a bracket.
fn words_in(alloc: Global, octets: &[u8]) -> Result<Option<PartWord<'_>>, AllocError>
    ensures { IfOk result (λ words. words ≡ words_in octets.now) }
{
    let (numbers, rest) = split_numbers(octets);
    match words_with(numbers, rest) {
        Some(words) => Ok(Some(words)),
        None => fields_words(alloc, numbers, octets),
    }
}

fn is_ended(word: &[u8]) -> bool
    ensures { result ≡ is_ended word.now }
{
    word.ends_with(b"]") || word.ends_with(b">")
}

/// Returns what stands after the bracket of a section.
pub(crate) fn after_bracket(word: &[u8]) -> Option<&[u8]>
    ensures { option_copied result ≡ after_bracket word.now }
{
    if begins(word, b"BODY[") {
        Some(&word[5..])
    } else if begins(word, b"BODY.PEEK[") {
        Some(&word[10..])
    } else {
        None
    }
}

/// Returns the section of a part that a word is.
fn part_words(alloc: Global, word: &[u8]) -> Result<Option<PartWord<'_>>, AllocError>
    ensures { IfOk result (λ words. words ≡ part_words word.now) }
{
    if !is_ended(word) {
        return Ok(None);
    }
    match after_bracket(word) {
        Some(octets) => words_in(alloc, octets),
        None => Ok(None),
    }
}

/// Returns the section of a part that a word is.
pub(crate) fn part_in(alloc: Global, word: &[u8]) -> Result<Option<PartSection>, AllocError>
    ensures { IfOk result (λ part. part ≡ part_in word.now) }
{
    match part_words(alloc, word)? {
        Some(words) => {
            let numbers = numbers_from(alloc, words.numbers)?;
            Ok(Some(PartSection {
                numbers: Items::from_vec(numbers),
                text: words.text,
                partial: words.partial,
            }))
        }
        None => Ok(None),
    }
}

fn message_for(word: &[u8]) -> &'static [u8]
    ensures { result.now ≡ message_for word.now }
{
    if begins(word, b"BODY[") {
        b"BODY[]"
    } else {
        b"BODY.PEEK[]"
    }
}

/// Returns what is asked in place of a word: the message, if the word is a section of a part.
pub(crate) fn part_for(alloc: Global, word: &[u8]) -> Result<&[u8], AllocError>
    ensures { IfOk result (λ other. other.now ≡ part_for (part_words word.now) word.now) }
{
    match part_words(alloc, word)? {
        Some(_) => Ok(message_for(word)),
        None => Ok(word),
    }
}

fn are_same_names(names: &Items<FieldName>, others: &Items<FieldName>) -> bool
    ensures { result ≡ pointwise bytes_eq names.now others.now }
{
    names.is_same(others)
}

fn is_same_text(text: &PartText, other: &PartText) -> bool
    ensures { result ≡ is_same_text text.now other.now }
{
    match text {
        PartText::Body => matches!(other, PartText::Body),
        PartText::Mime => matches!(other, PartText::Mime),
        PartText::Header => matches!(other, PartText::Header),
        PartText::Text => matches!(other, PartText::Text),
        PartText::Fields(names) => match other {
            PartText::Fields(others) => are_same_names(names, others),
            _ => false,
        },
        PartText::FieldsNot(names) => match other {
            PartText::FieldsNot(others) => are_same_names(names, others),
            _ => false,
        },
    }
}

fn is_same_range(range: Option<Partial>, other: Option<Partial>) -> bool
    ensures { result ≡ is_same_range range other }
{
    match (range, other) {
        (Some(range), Some(other)) => {
            range.offset == other.offset && range.count.get() == other.count.get()
        }
        (None, None) => true,
        _ => false,
    }
}

impl PartSection {
    /// Whether both are the same section.
    pub(crate) fn is_same(&self, other: &PartSection) -> bool
        ensures { result ≡ is_same_part self.now other.now }
    {
        self.numbers.as_slice() == other.numbers.as_slice()
            && is_same_text(&self.text, &other.text)
            && is_same_range(self.partial, other.partial)
    }
}
