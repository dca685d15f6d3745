//! Dates, keywords, flags and numbers.

ghost use Rattle.std.specs.Prelude.{◌≡◌, ◌+◌, ◌<◌, ◌∷◌, ◌++◌, ℕ, pos, false, true, length, string_bytes};
ghost use Rattle.std.specs.Prelude.{Err, IfOk, IfSome, MatchOption, OnOk};
ghost use Rattle.imap_records.specs.Columns.{bit, date_text, place_value};
ghost use Rattle.imap_stored_values.specs.Restored.{AreFlags, HasFlags, HasWords, IsFront, IsLast, IsNone};
ghost use Rattle.imap_stored_values.specs.Restored.{IsOnly, Restores};
ghost use Rattle.imap_rights.specs.Acl.{is_some_rights};
ghost use Rattle.imap_rights.specs.Rights.{bits};
ghost use Rattle.imap_syntax.specs.Atoms.{IsAtom};
ghost use Rattle.imap_syntax.specs.Keywords.{AreKeywords, with_word};
ghost use Rattle.imap_syntax.specs.Moments.{Moment};
ghost use Rattle.imap_syntax.specs.WrittenDates.{date_time_fits};

use bitflags::Flags;
use imap_mailbox::{PartsError, SharedFlags};
use imap_records::{date_text, keywords_text};
use imap_rights::Rights;
use imap_syntax::{Atom, DateTime, Keywords, date_time_fits};
use std::alloc::{AllocError, Global};

/// Reads a date as it is printed.
pub(crate) fn read_date(alloc: Global, text: &str) -> Result<DateTime, PartsError>
    ensures { Restores (λ date. date_text date ≡ text.now) (λ date. date_time_fits date ≡ true) result }
{
    match DateTime::read(text.as_bytes()) {
        Some(date) => checked_date(alloc, text, date),
        None => Err(PartsError::Bad),
    }
}

/// The date, if it is printed so.
fn checked_date(alloc: Global, text: &str, date: DateTime) -> Result<DateTime, PartsError>
    requires { (other : Moment) → date_time_fits other ≡ true → date_text other ≡ text.now → other ≡ date }
    ensures { Restores (λ date. date_text date ≡ text.now) (λ date. date_time_fits date ≡ true) result }
{
    // Each moment is one of the calendar.
    let _ = date_time_fits(&date);
    let printed = date_text(alloc, date)?;
    if printed.as_str() == text {
        Ok(date)
    } else {
        Err(PartsError::Bad)
    }
}

/// Reads keywords with a space between them.
pub(crate) fn read_keywords(alloc: Global, text: &str) -> Result<Keywords, PartsError>
    ensures { Restores (HasWords text.now) AreKeywords result }
{
    if text.is_empty() {
        return Ok(Keywords::new(alloc));
    }
    let words = words_in(alloc, text)?;
    let printed = keywords_text(alloc, words.as_slice())?;
    if printed.as_str() == text {
        Ok(words)
    } else {
        Err(PartsError::Bad)
    }
}

/// The words of a text, as keywords: each once, in lower case and in the order of their octets.
fn words_in(alloc: Global, text: &str) -> Result<Keywords, PartsError>
    ensures ok { IfOk result (λ words. IsOnly text.now words) }
    ensures bad { result ≡ Err PartsError.Bad → IsNone text.now }
    ensures valid { IfOk result AreKeywords }
{
    let mut words = Keywords::new(alloc);
    let mut rest = text;
    while let Some((word, more)) = first_word(rest) {
        if let Err(error) = add_word(&mut words, alloc, word) {
            return Err(error);
        }
        rest = more;
    }
    match add_word(&mut words, alloc, rest) {
        Ok(()) => {
            let _ = words.as_slice();
            Ok(words)
        }
        Err(error) => Err(error),
    }
}

/// The first of several words, and the text of the others.
fn first_word(text: &str) -> Option<(&str, &str)>
    ensures words { MatchOption result (IsLast text.now)
        (λ parts. IsFront text.now parts.0.now parts.1.now) }
    ensures cut { IfSome result (λ parts. text.now ≡ parts.0.now ++ 32 ∷ parts.1.now) }
    ensures shorter { IfSome result (λ parts. length parts.1.now < length text.now) }
{
    text.split_once(' ')
}

/// Adds a word. Fails with `Bad` if it is no atom.
fn add_word(words: &mut Keywords, alloc: Global, word: &str) -> Result<(), PartsError>
    ensures ok { OnOk result (words.new ≡ with_word word.now words.old) }
    ensures bad { result ≡ Err PartsError.Bad → IsAtom word.now → ⊥ }
{
    match Atom::read(alloc, word.as_bytes())? {
        Some(atom) => {
            words.insert(alloc, &atom)?;
            Ok(())
        }
        None => Err(PartsError::Bad),
    }
}

/// Reads the flags that all users share.
pub fn read_flags(alloc: Global, bits: u32, text: &str) -> Result<SharedFlags, PartsError>
    ensures { Restores (HasFlags bits text.now) AreFlags result }
{
    if bits >= 16 {
        return Err(PartsError::Bad);
    }
    let keywords = read_keywords(alloc, text)?;
    let (flagged, rest) = take_bit(bits, 8);
    let (draft, rest) = take_bit(rest, 4);
    let (deleted, rest) = take_bit(rest, 2);
    let (answered, _) = take_bit(rest, 1);
    Ok(SharedFlags {
        answered,
        deleted,
        draft,
        flagged,
        keywords,
    })
}

/// Whether the highest bit is set, which has this value, and the others.
fn take_bit(bits: u32, value: u32) -> (bool, u32)
    requires { bits < value + value }
    ensures sum { bit result.0 value + result.1 ≡ bits }
    ensures low { result.1 < value }
{
    if bits >= value {
        (true, bits - value)
    } else {
        (false, bits)
    }
}

/// Reads some of the eleven rights.
pub(crate) fn read_rights(rights: u32) -> Option<Rights>
    ensures { MatchOption result (is_some_rights rights ≡ false)
        (λ some. (bits some ≡ rights) × (is_some_rights rights ≡ true)) }
{
    let Ok(octets) = u16::try_from(rights) else {
        return None;
    };
    let some = Rights::from_bits_retain(octets);
    if octets != 0 && some.known().bits() == octets {
        Some(some)
    } else {
        None
    }
}

/// Reads a place, counted from 1.
pub(crate) fn read_place(value: i64) -> Option<u64>
    ensures { MatchOption result ((place : ℕ) → place_value place ≡ value → ⊥)
        (λ place. place_value place ≡ value) }
{
    if value < 1 {
        None
    } else {
        Some(value.unsigned_abs() - 1)
    }
}

/// Reads a number that may be 0.
pub fn read_count(value: i64) -> Option<u64>
    ensures { MatchOption result ((count : ℕ) → pos count ≡ value → ⊥) (λ count. pos count ≡ value) }
{
    if value < 0 {
        None
    } else {
        Some(value.unsigned_abs())
    }
}
