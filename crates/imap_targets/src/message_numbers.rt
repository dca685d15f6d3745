//! The messages that a command names (RFC 9051, section 2.3.1).

ghost use Rattle.std.specs.Prelude.{◌≡◌, ◌+◌, ◌<◌, ◌≤◌, ℕ, IfOk, length, option_map, slice_index_or};
ghost use Rattle.std.specs.List.{list_any};
ghost use Rattle.imap_mailbox.specs.Lent.{row_shown};
ghost use Rattle.imap_mailbox.specs.Summary.{AreRising};
ghost use Rattle.imap_targets.specs.Spans.{AreBounds, IsSpan, IsWithin, named_in};
ghost use Rattle.imap_targets.specs.declared.message_numbers.Numbered.{Numbered};
ghost use Rattle.imap_targets.specs.MessageNumbers as specs;
ghost use Rattle.imap_syntax.specs.declared.set.Numbering.TheVariants.{Sequence, Uid};

use imap_mailbox::{Row, Rows};
use imap_session::KnownList;
use imap_syntax::{MessageSet, Numbering, SeqNumber, SeqRange};
use std::alloc::{AllocError, Global};

/// A message that a session knows.
#[derive(Clone, Copy, Drop)]
pub struct Numbered {
    /// Its message sequence number.
    pub number: u32,
    pub uid: u32,
}

/// A set of numbers or UIDs, as a session that knows some messages means it.
#[derive(Drop)]
pub struct MessageNumbers<'a> {
    pub numbering: Numbering,
    /// What `*` stands for.
    pub last: u32,
    pub ranges: &'a [SeqRange],
}

impl MessageNumbers<'_> {
    /// Whether the set has the message with this number and this UID.
    pub fn has(&self, number: u32, uid: u32) -> bool
        ensures { let m : Numbered = record { number = number; uid = uid } in
            result ≡ specs.in_set self.now.last self.now.ranges.now (specs.number_by self.now.numbering m) }
    {
        match self.numbering {
            Numbering::Sequence => in_set(self.last, self.ranges, number),
            Numbering::Uid => in_set(self.last, self.ranges, uid),
        }
    }
}

impl MessageNumbers<'_> {
    /// The range of indexes of the known messages that the set may name: from the first, up to but without the second.
    pub fn span(&self, known: &KnownList) -> (usize, usize)
        ensures { IsSpan self.now known.now.list result.0 result.1 }
    {
        let _count = known.len();
        let (low, high) = bounds(self.last, self.ranges);
        match self.numbering {
            Numbering::Sequence => number_span(low, high, known),
            Numbering::Uid => uid_span(low, high, known),
        }
    }
}

/// Returns the known messages that a command names, in the order of their numbers. Tests each known message
/// between the first and the last of the set.
pub fn messages_named(
    alloc: Global,
    numbering: Numbering,
    messages: &MessageSet,
    next_uid: u32,
    known: &KnownList,
) -> Result<Vec<Numbered>, AllocError>
    ensures named { let named_in = specs.messages_named numbering next_uid (specs.ranges_of messages.now) in
        IfOk result (λ named. named.items ≡ named_in known.now.list) }
    ensures rise { IfOk result (λ named. AreRising (specs.uids_of named.items)) }
{
    let numbers = MessageNumbers {
        numbering,
        last: last_of(numbering, next_uid, known),
        ranges: ranges_of(messages),
    };
    numbers_named(alloc, &numbers, known)
}

fn numbers_named(
    alloc: Global,
    messages: &MessageNumbers<'_>,
    known: &KnownList,
) -> Result<Vec<Numbered>, AllocError>
    ensures named { IfOk result (λ named. named.items ≡ named_in messages.now known.now.list) }
    ensures rise { IfOk result (λ named. AreRising (specs.uids_of named.items)) }
{
    let mut named = Vec::new(alloc);
    let (start, end) = messages.span(known);
    for index in start..end {
        let message = numbered_at(known, index);
        if !messages.has(message.number, message.uid) {
            continue;
        }
        named.push(message)?;
    }
    Ok(named)
}

/// The message at the index.
fn numbered_at(known: &KnownList, index: usize) -> Numbered
    requires { index < length known.now.list }
    ensures number { result.number ≡ index + 1 }
    ensures uid { result.uid ≡ slice_index_or known.now.list index result.uid }
{
    Numbered {
        number: number_at(known, index),
        uid: known.uid(index),
    }
}

/// Whether one of the messages is gone, and is named by its number.
pub fn is_refused(numbering: Numbering, messages: &[Numbered], rows: &Rows<'_>) -> bool
    ensures { result ≡ specs.is_refused (specs.is_by_uid numbering) rows.now messages.now }
{
    !is_by_uid(numbering) && is_any_gone(messages, rows)
}

fn is_any_gone(messages: &[Numbered], rows: &Rows<'_>) -> bool
    ensures { result ≡ list_any (specs.is_gone rows.now) messages.now }
{
    messages.iter().any(|message| is_gone(message, rows))
}

fn is_gone(message: &Numbered, rows: &Rows<'_>) -> bool
    ensures { result ≡ specs.is_gone rows.now message.now }
{
    rows.place_of(message.uid).is_none()
}

/// The range of indexes of messages with numbers from `low` to `high`.
fn number_span(low: u32, high: u32, known: &KnownList) -> (usize, usize)
    ensures { IsWithin Sequence low high known.now.list result.0 result.1 }
{
    let end = (high as usize).min(known.len());
    ((low.saturating_sub(1) as usize).min(end), end)
}

/// The range of indexes of messages with UIDs from `low` to `high`, by binary searches.
fn uid_span(low: u32, high: u32, known: &KnownList) -> (usize, usize)
    ensures { IsWithin Uid low high known.now.list result.0 result.1 }
{
    let end = index_after(high, known);
    (known.place_from(low).min(end), end)
}

/// The index after all messages with UIDs up to `high`.
fn index_after(high: u32, known: &KnownList) -> usize
    ensures within { result ≤ length known.now.list }
    ensures more { (index d : ℕ) → result ≤ index → index < length known.now.list
        → high < slice_index_or known.now.list index d }
{
    let count = known.len();
    match high.checked_add(1) {
        Some(above) => known.place_from(above),
        None => count,
    }
}

/// The least and the greatest number that the set may have.
fn bounds(last: u32, ranges: &[SeqRange]) -> (u32, u32)
    ensures { AreBounds last ranges.now result.0 result.1 }
{
    let mut low = u32::MAX;
    let mut high = 0;
    for range in ranges {
        let first = end_of(last, range.first);
        let second = end_of(last, range.last);
        low = low.min(first).min(second);
        high = high.max(first).max(second);
    }
    (low, high)
}

/// Returns what an end of a range means, if `*` stands for `last`.
pub fn end_of(last: u32, number: SeqNumber) -> u32
    ensures { result ≡ specs.end_of last number }
{
    match number {
        SeqNumber::Last => last,
        SeqNumber::Number(number) => number.get(),
    }
}

fn is_between(first: u32, second: u32, number: u32) -> bool
    ensures { result ≡ specs.is_between first second number }
{
    (first <= number && number <= second) || (second <= number && number <= first)
}

fn in_range(last: u32, number: u32, range: &SeqRange) -> bool
    ensures { result ≡ specs.in_range last number range.now }
{
    is_between(end_of(last, range.first), end_of(last, range.last), number)
}

/// Whether the set has the number, if `*` stands for `last`.
pub fn in_set(last: u32, ranges: &[SeqRange], number: u32) -> bool
    ensures { result ≡ specs.in_set last ranges.now number }
{
    ranges.iter().any(|range| in_range(last, number, range))
}

fn is_number(count: u32, number: u32) -> bool
    ensures { result ≡ specs.is_number count number }
{
    1 <= number && number <= count
}

fn has_numbers(count: u32, range: &SeqRange) -> bool
    ensures { result ≡ specs.has_numbers count range.now }
{
    is_number(count, end_of(count, range.first)) && is_number(count, end_of(count, range.last))
}

/// Whether all numbers of the set are numbers of messages, of which there are `count`.
fn are_numbers(count: u32, ranges: &[SeqRange]) -> bool
    ensures { result ≡ specs.are_numbers count ranges.now }
{
    ranges.iter().all(|range| has_numbers(count, range))
}

/// Whether all messages that the set names by their numbers are known, of which there are `count`.
pub fn has_known_numbers(numbering: Numbering, count: u32, messages: &MessageSet) -> bool
    ensures { result ≡ specs.has_known_numbers numbering count messages.now }
{
    is_by_uid(numbering) || are_numbers(count, ranges_of(messages))
}

/// The number of messages that the session knows.
pub fn known_count(known: &KnownList) -> u32
    ensures { result ≡ length known.now.list }
{
    known.len() as u32
}

/// The number of the message at the index.
pub fn number_at(known: &KnownList, index: usize) -> u32
    requires { index < length known.now.list }
    ensures { result ≡ index + 1 }
{
    let _count = known.len();
    index as u32 + 1
}

/// What `*` stands for.
pub fn last_of(numbering: Numbering, next_uid: u32, known: &KnownList) -> u32
    ensures { result ≡ specs.last_of numbering next_uid known.now.list }
{
    match numbering {
        Numbering::Sequence => known_count(known),
        Numbering::Uid => last_uid(next_uid, known),
    }
}

fn last_uid(next_uid: u32, known: &KnownList) -> u32
    ensures { result ≡ specs.last_uid next_uid known.now.list }
{
    let count = known.len();
    if count == 0 {
        return next_uid;
    }
    known.uid(count - 1)
}

/// The message with the UID, if it is there, by a binary search.
pub fn row_with<'a>(rows: &Rows<'a>, uid: u32) -> Option<Row<'a>>
    ensures { option_map row_shown result ≡ specs.row_with uid rows.now }
{
    match rows.place_of(uid) {
        Some(index) => Some(rows.get(index)),
        None => None,
    }
}

/// Whether messages are named by their UIDs, and not by their numbers.
pub fn is_by_uid(numbering: Numbering) -> bool
    ensures { result ≡ specs.is_by_uid numbering }
{
    match numbering {
        Numbering::Sequence => false,
        Numbering::Uid => true,
    }
}

/// The ranges of the set: none, if it is `$`.
pub fn ranges_of(messages: &MessageSet) -> &[SeqRange]
    ensures { result.now ≡ specs.ranges_of messages.now }
{
    match messages {
        MessageSet::Saved => &[],
        MessageSet::Numbers(ranges) => ranges.as_slice(),
    }
}

/// Whether the set is `$`, the messages that SEARCH saved (RFC 9051, section 6.4.4.1).
pub fn is_saved(messages: &MessageSet) -> bool
    ensures { result ≡ specs.is_saved messages.now }
{
    match messages {
        MessageSet::Saved => true,
        MessageSet::Numbers(_) => false,
    }
}
