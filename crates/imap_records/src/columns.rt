//! What the columns of the tables have of names, flags and numbers.

ghost use Rattle.std.specs.Prelude.{◌≡◌, ◌<◌, ◌++◌, ◌∷◌, ℕ, List, drop, length, string_bytes, true};
ghost use Rattle.std.specs.Prelude.{IfOk, OnOk};
ghost use Rattle.std.specs.Str.{IsAscii, IsUtf8};
ghost use Rattle.imap_modseq.specs.Numbers.{max_events};
ghost use Rattle.imap_names.specs.Name.{path_of};
ghost use Rattle.imap_records.specs.Columns.{bit, date_text, flag_bits, keywords_text, place_value, tree_at};
ghost use Rattle.imap_records.specs.Columns.{tree_text, words_behind};
ghost use Rattle.imap_syntax.specs.WrittenDates.{date_time_fits};

use imap_mailbox::SharedFlags;
use imap_names::NameRef;
use imap_rights::Identifier;
use imap_syntax::{Atom, DateTime, date_time_fits};
use imap_tables::MailboxKey;
use std::alloc::{AllocError, Global};
use std::str;

/// The tree and the path by which the tables have a mailbox: `s` or `u/` and the owner's name, and the
/// components with `/` between them.
pub fn key_of(alloc: Global, name: &NameRef<'_>) -> Result<MailboxKey, AllocError>
    ensures tree { IfOk result (λ key. string_bytes key.tree ≡ tree_text name.now) }
    ensures path { IfOk result (λ key. string_bytes key.path ≡ path_of name.now) }
{
    let tree = tree_at(alloc, name.root())?;
    let path = String::from_str(alloc, name.path())?;
    Ok(MailboxKey { tree, path })
}

/// The column `tree` of names with this root.
pub(crate) fn tree_at(alloc: Global, root: &str) -> Result<String, AllocError>
    ensures { IfOk result (λ tree. string_bytes tree ≡ tree_at root.now) }
{
    if root.is_empty() {
        String::from_str(alloc, "s")
    } else {
        format!(in alloc; "u/{root}")
    }
}

/// The text `path` with the front `new` in place of `old`.
pub(crate) fn text_with_front(
    alloc: Global,
    path: &str,
    old: &str,
    new: &str,
) -> Result<String, AllocError>
    requires { (rest : List ℕ) × (path.now ≡ old.now ++ rest) }
    ensures { IfOk result (λ text. string_bytes text ≡ new.now ++ drop (length old.now) path.now) }
{
    match path.strip_prefix(old) {
        Some(rest) => format!(in alloc; "{new}{rest}"),
        None => unreachable!(),
    }
}

/// The text of these octets, which are text.
fn text_of(alloc: Global, octets: &[u8]) -> Result<String, AllocError>
    requires { IsUtf8 octets.now }
    ensures { IfOk result (λ text. string_bytes text ≡ octets.now) }
{
    match str::from_utf8(octets) {
        Ok(text) => String::from_str(alloc, text),
        Err(_) => unreachable!(),
    }
}

/// The text of an identifier.
pub(crate) fn identifier_text(alloc: Global, identifier: &Identifier) -> Result<String, AllocError>
    ensures { IfOk result (λ text. string_bytes text ≡ identifier.now) }
{
    text_of(alloc, identifier.as_bytes())
}

/// The date as it is printed (RFC 9051, section 9, `date-time`), without quotes.
pub fn date_text(alloc: Global, date: DateTime) -> Result<String, AllocError>
    ensures text { IfOk result (λ text. string_bytes text ≡ date_text date) }
    ensures valid { date_time_fits date ≡ true }
{
    // Each moment is one of the calendar.
    let _ = date_time_fits(&date);
    let mut octets = Vec::new(alloc);
    date.print(&mut octets)?;
    text_of(alloc, octets.as_slice())
}

/// The keywords (RFC 9051, section 2.3.2) with a space between them.
pub fn keywords_text(alloc: Global, words: &[Atom]) -> Result<String, AllocError>
    ensures { IfOk result (λ text. string_bytes text ≡ keywords_text words.now) }
{
    let octets = joined(alloc, words)?;
    text_of(alloc, octets.as_slice())
}

fn joined(alloc: Global, words: &[Atom]) -> Result<Vec<u8>, AllocError>
    ensures words { IfOk result (λ octets. octets.items ≡ keywords_text words.now) }
    ensures ascii { IfOk result (λ octets. IsAscii octets.items) }
{
    match words.split_first() {
        Some((first, more)) => joined_after(alloc, first, more),
        None => Ok(Vec::new(alloc)),
    }
}

/// The first word and then the others, with a space before each of them.
fn joined_after(alloc: Global, first: &Atom, more: &[Atom]) -> Result<Vec<u8>, AllocError>
    ensures words { IfOk result (λ octets. octets.items ≡ keywords_text (first.now ∷ more.now)) }
    ensures ascii { IfOk result (λ octets. IsAscii octets.items) }
{
    let mut octets = Vec::new(alloc);
    octets.extend_from_slice(first.as_slice())?;
    push_words(&mut octets, more)?;
    Ok(octets)
}

/// Appends each word, with a space before it.
fn push_words(octets: &mut Vec<u8>, words: &[Atom]) -> Result<(), AllocError>
    ensures words { OnOk result (octets.new.items ≡ octets.old.items ++ words_behind words.now) }
    ensures ascii { IsAscii octets.old.items → OnOk result (IsAscii octets.new.items) }
{
    for word in words {
        octets.push(b' ')?;
        octets.extend_from_slice(word.as_slice())?;
    }
    Ok(())
}

fn bit(set: bool, value: u32) -> u32
    ensures { result ≡ bit set value }
{
    if set { value } else { 0 }
}

/// The flags that all users share but for keywords, as bits.
pub(crate) fn flag_bits(flags: &SharedFlags) -> u32
    ensures { result ≡ flag_bits flags.now }
{
    let answered = bit(flags.answered, 1);
    let deleted = bit(flags.deleted, 2);
    let draft = bit(flags.draft, 4);
    let flagged = bit(flags.flagged, 8);
    answered | deleted | draft | flagged
}

/// A place, counted from 1.
pub(crate) fn place_value(place: u64) -> i64
    requires { place < max_events }
    ensures { result ≡ place_value place }
{
    (place + 1) as i64
}
