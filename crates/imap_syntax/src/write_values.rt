//! Numbers, sets and flags, written.

ghost use Rattle.std.specs.Prelude.{◌≡◌, ◌++◌, ◌∷◌, OnOk};
ghost use Rattle.imap_syntax.specs.Written.{number64, mod_sequence, number_fits, number_text, is_same};
ghost use Rattle.imap_syntax.specs.Written.{seq_range, message_set, message_flag};

use crate::atom::Atom;
use crate::cursor::Keyword;
use crate::flag::Flag;
use crate::nz_number::NzNumber;
use crate::set::{MessageSet, SeqNumber, SeqRange};
use crate::spelling::{Spelling, push_number, push_separated, some_fit};
use crate::system_flag::SystemFlag;
use std::alloc::AllocError;

/// The greatest mod-sequence (RFC 7162, section 7).
const GREATEST: u64 = i64::MAX as u64;

/// Whether the number is at most 2^63 - 1.
pub fn number64_fits(number: u64) -> bool
    ensures { result ≡ number64.fits number }
{
    number <= GREATEST
}

/// Whether the number is a mod-sequence: from 1 to 2^63 - 1 (RFC 7162, section 7).
pub fn mod_sequence_fits(number: u64) -> bool
    ensures { result ≡ mod_sequence.fits number }
{
    number != 0 && number <= GREATEST
}

impl SeqNumber {
    fn fits(self) -> bool
        ensures { result ≡ number_fits self }
    {
        match self {
            SeqNumber::Last => true,
            SeqNumber::Number(number) => number.get() != 0,
        }
    }

    fn is_same(self, other: SeqNumber) -> bool
        ensures { result ≡ is_same self other }
    {
        match self {
            SeqNumber::Last => matches!(other, SeqNumber::Last),
            SeqNumber::Number(number) => other.is_number(number),
        }
    }

    fn is_number(self, number: NzNumber) -> bool
        ensures { result ≡ is_same (SeqNumber.Number number) self }
    {
        match self {
            SeqNumber::Last => false,
            SeqNumber::Number(own) => number.get() == own.get(),
        }
    }

    fn push(self, out: &mut Vec<u8>) -> Result<(), AllocError>
        ensures { OnOk result (out.new.items ≡ out.old.items ++ number_text self) }
    {
        match self {
            SeqNumber::Number(number) => push_number(out, u64::from(number.get())),
            SeqNumber::Last => out.extend_from_slice(b"*"),
        }
    }
}

impl Spelling for SeqRange {
    ghost use Rattle.imap_syntax.specs.Written.{seq_range};

    type Value = SeqRange;

    ghost writing = { seq_range };

    fn fits(range: &SeqRange) -> bool {
        range.first.fits() && range.last.fits()
    }

    fn push(out: &mut Vec<u8>, range: &SeqRange) -> Result<(), AllocError> {
        if range.first.is_same(range.last) {
            return range.first.push(out);
        }
        range.first.push(out)?;
        out.push(b':')?;
        range.last.push(out)
    }
}

/// Whether the set can be spelt: it has a range, and no number is 0.
pub fn set_fits(set: &MessageSet) -> bool
    ensures { result ≡ message_set.fits set.now }
{
    match set {
        MessageSet::Saved => true,
        MessageSet::Numbers(ranges) => some_fit::<SeqRange>(ranges.as_slice()),
    }
}

/// Appends a set: its ranges as they are, or `$`.
pub fn push_set(out: &mut Vec<u8>, set: &MessageSet) -> Result<(), AllocError>
    ensures { OnOk result (out.new.items ≡ out.old.items ++ message_set.text set.now) }
{
    match set {
        MessageSet::Saved => out.extend_from_slice(b"$"),
        MessageSet::Numbers(ranges) => push_separated::<SeqRange>(out, b',', ranges.as_slice()),
    }
}

impl Spelling for Flag {
    ghost use Rattle.imap_syntax.specs.Written.{message_flag};

    type Value = Flag;

    ghost writing = { message_flag };

    fn fits(flag: &Flag) -> bool {
        match flag {
            Flag::Other(word) => {
                let _ = word.as_slice();
                true
            }
            Flag::Keyword(word) => Atom::fits(word),
            _ => true,
        }
    }

    fn push(out: &mut Vec<u8>, flag: &Flag) -> Result<(), AllocError> {
        match flag {
            Flag::Answered => push_flag(out, SystemFlag::Answered.name()),
            Flag::Deleted => push_flag(out, SystemFlag::Deleted.name()),
            Flag::Draft => push_flag(out, SystemFlag::Draft.name()),
            Flag::Flagged => push_flag(out, SystemFlag::Flagged.name()),
            Flag::Seen => push_flag(out, SystemFlag::Seen.name()),
            Flag::Other(word) => push_flag(out, word.as_slice()),
            Flag::Keyword(word) => out.extend_from_slice(word.as_slice()),
        }
    }
}

/// Appends a backslash and the name of a flag.
fn push_flag(out: &mut Vec<u8>, name: &[u8]) -> Result<(), AllocError>
    ensures { OnOk result (out.new.items ≡ out.old.items ++ 92 ∷ name.now) }
{
    out.push(b'\\')?;
    out.extend_from_slice(name)
}
