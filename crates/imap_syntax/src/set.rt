//! Sets of messages (RFC 9051, section 9, `sequence-set`).

ghost use Rattle.std.specs.Prelude.{◌≡◌};
ghost use Rattle.imap_syntax.specs.Reading.{ReadsIfMemory, Reads};
ghost use Rattle.imap_syntax.specs.Sets.{seq_number, seq_range, seq_set, message_set};

use crate::cursor::{Cursor, Item};
use crate::error::ReadError;
use crate::nz_number::NzNumber;
use crate::one_or_more::OneOrMore;
use imap_values::{Same, TryCopy};
use std::alloc::{AllocError, Global};

/// The number or UID of a message, or `*` for the greatest in the mailbox.
#[derive(Clone, Copy, PartialEq, Eq)]
pub enum SeqNumber {
    Number(NzNumber),
    Last,
}

/// The two ends of a range, in the order of the command. A single number is both ends.
#[derive(Clone, Copy, PartialEq, Eq)]
pub struct SeqRange {
    pub first: SeqNumber,
    pub last: SeqNumber,
}

/// One range or more.
pub type SeqSet = OneOrMore<SeqRange>;

/// The messages of a command.
pub enum MessageSet {
    /// `$`: the result that a SEARCH has saved.
    Saved,
    Numbers(SeqSet),
}

// Not derived: a derived one is proved anew in each crate that lets go of one.
impl Drop for MessageSet {
    fn drop(self) {
        match self {
            MessageSet::Numbers(value) => drop(value),
            MessageSet::Saved => {}
        }
    }
}

/// Whether the numbers of a set are message numbers or UIDs.
#[derive(Clone, Copy, PartialEq, Eq)]
pub enum Numbering {
    Sequence,
    Uid,
}

impl TryCopy for SeqRange {
    fn try_copy(&self, _alloc: Global) -> Result<SeqRange, AllocError> {
        Ok(*self)
    }
}

impl Same for SeqRange {
    fn is_same(&self, other: &SeqRange) -> bool {
        *self == *other
    }
}

impl TryCopy for MessageSet {
    fn try_copy(&self, alloc: Global) -> Result<MessageSet, AllocError> {
        match self {
            MessageSet::Saved => Ok(MessageSet::Saved),
            MessageSet::Numbers(ranges) => Ok(MessageSet::Numbers(ranges.try_copy(alloc)?)),
        }
    }
}

impl Same for MessageSet {
    fn is_same(&self, other: &MessageSet) -> bool {
        match (self, other) {
            (MessageSet::Saved, MessageSet::Saved) => true,
            (MessageSet::Numbers(ranges), MessageSet::Numbers(others)) => ranges.is_same(others),
            _ => false,
        }
    }
}

impl Same for Numbering {
    fn is_same(&self, other: &Numbering) -> bool {
        self == other
    }
}

impl Item for SeqRange {
    ghost use Rattle.imap_syntax.specs.Sets.{seq_range};

    type Read = SeqRange;

    ghost item_read = { seq_range.read };

    fn item(cursor: &mut Cursor<'_>, _alloc: Global) -> Result<SeqRange, ReadError> {
        cursor.seq_range()
    }
}

impl Cursor<'_> {
    #[tactic(auto, using(crate::proofs::NzNumbers::number_from_one))]
    fn seq_number(&mut self) -> Result<SeqNumber, ReadError>
        ensures { Reads (λ n. n) result self.new (seq_number.read self.old) }
    {
        if self.has(b'*') {
            return Ok(SeqNumber::Last);
        }
        let number = self.nz_number(u64::from(u32::MAX))?;
        Ok(SeqNumber::Number(NzNumber::of(number as u32)))
    }

    fn seq_range(&mut self) -> Result<SeqRange, ReadError>
        ensures { Reads (λ r. r) result self.new (seq_range.read self.old) }
    {
        let first = self.seq_number()?;
        if !self.has(b':') {
            let last = first;
            return Ok(SeqRange { first, last });
        }
        let last = self.seq_number()?;
        Ok(SeqRange { first, last })
    }

    /// Reads ranges with commas between them (`sequence-set` without `$`).
    pub fn seq_set(&mut self, alloc: Global) -> Result<SeqSet, ReadError>
        ensures { ReadsIfMemory (λ s. s) result self.new (seq_set.read self.old) }
    {
        self.separated::<SeqRange>(alloc, b',')
    }

    /// Reads `sequence-set`: `$` alone, or ranges.
    pub fn message_set(&mut self, alloc: Global) -> Result<MessageSet, ReadError>
        ensures { ReadsIfMemory (λ s. s) result self.new (message_set.read self.old) }
    {
        if self.has(b'$') {
            return Ok(MessageSet::Saved);
        }
        Ok(MessageSet::Numbers(self.seq_set(alloc)?))
    }
}
