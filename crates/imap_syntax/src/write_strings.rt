//! Strings and atoms, written.

ghost use Rattle.std.specs.Prelude.{◌≡◌, ◌++◌, ◌∷◌, OnOk, flat_map};
ghost use Rattle.std.specs.List.{list_all, list_any};
ghost use Rattle.imap_syntax.specs.Lexical.{is_astring_char};
ghost use Rattle.imap_syntax.specs.Writing.{some_of};
ghost use Rattle.imap_syntax.specs.Written.{is_unquotable, is_quotable, is_written_quoted, escaped};
ghost use Rattle.imap_syntax.specs.Written.{quoted_text, literal_text, string, bare_or_string, astring};

use crate::lexical::is_quoted_special;
use crate::spelling::{Spelling, push_number};
use imap_lex::{AstringChar, OctetClass, Octets};
use std::alloc::AllocError;

/// The most octets that are written in quotes.
pub const MAX_QUOTED_OCTETS: usize = 255;

/// Whether the octet can't stand in quotes: NUL, CR and LF.
fn is_unquotable(octet: u8) -> bool
    ensures { result ≡ is_unquotable octet }
{
    matches!(octet, 0 | b'\r' | b'\n')
}

fn has_unquotable(octets: &[u8]) -> bool
    ensures { result ≡ list_any is_unquotable octets.now }
{
    octets.iter().any(|octet| is_unquotable(*octet))
}

/// Whether the octets can stand in quotes: neither NUL, CR nor LF is among them.
pub fn is_quotable(octets: &[u8]) -> bool
    ensures { result ≡ is_quotable octets.now }
{
    !has_unquotable(octets)
}

/// Whether a string of these octets is written in quotes.
fn is_written_quoted(octets: &[u8]) -> bool
    ensures { result ≡ is_written_quoted octets.now }
{
    octets.len() <= MAX_QUOTED_OCTETS && is_quotable(octets)
}

/// Whether the octets can be written as a string.
pub fn string_fits(octets: &Octets) -> bool
    ensures { result ≡ string.fits octets.now }
{
    let octets = octets.as_slice();
    is_quotable(octets) || !octets.contains(&0)
}

/// Appends the octets in quotes, each quoted-special after a backslash.
pub fn push_quoted(out: &mut Vec<u8>, octets: &[u8]) -> Result<(), AllocError>
    ensures { OnOk result (out.new.items ≡ out.old.items ++ quoted_text octets.now) }
{
    out.push(b'"')?;
    for octet in octets {
        if is_quoted_special(*octet) {
            out.push(b'\\')?;
        }
        out.push(*octet)?;
    }
    out.push(b'"')?;
    Ok(())
}

/// Appends the octets as a literal that the sender waits to send.
pub fn push_literal(out: &mut Vec<u8>, octets: &[u8]) -> Result<(), AllocError>
    ensures { OnOk result (out.new.items ≡ out.old.items ++ literal_text octets.now) }
{
    out.push(b'{')?;
    push_number(out, octets.len() as u64)?;
    out.extend_from_slice(b"}\r\n")?;
    out.extend_from_slice(octets)?;
    Ok(())
}

/// Appends a `string`: a quotable text of at most [`MAX_QUOTED_OCTETS`] in quotes, all else as a literal.
pub fn push_string(out: &mut Vec<u8>, octets: &Octets) -> Result<(), AllocError>
    ensures { OnOk result (out.new.items ≡ out.old.items ++ string.text octets.now) }
{
    let octets = octets.as_slice();
    if is_written_quoted(octets) {
        push_quoted(out, octets)
    } else {
        push_literal(out, octets)
    }
}

fn are_all<C: OctetClass>(octets: &[u8]) -> bool
    ensures { result ≡ list_all C.test octets.now }
{
    octets.iter().all(|octet| C::has(*octet))
}

/// Whether there are octets, and all are of the class `C`.
pub fn is_bare<C: OctetClass>(octets: &[u8]) -> bool
    ensures { result ≡ (some_of C.test).fits octets.now }
{
    !octets.is_empty() && are_all::<C>(octets)
}

/// Whether the octets are an atom string (1*ASTRING-CHAR), which an `astring` may have without quotes.
pub fn is_atom_string(octets: &[u8]) -> bool
    ensures { result ≡ (some_of is_astring_char).fits octets.now }
{
    is_bare::<AstringChar>(octets)
}

/// Appends octets that are all of the class `C` as they are, and all else as a string.
pub fn push_bare_or_string<C: OctetClass>(
    out: &mut Vec<u8>,
    octets: &Octets,
) -> Result<(), AllocError>
    ensures { OnOk result (out.new.items ≡ out.old.items ++ (bare_or_string C.test).text octets.now) }
{
    if is_bare::<C>(octets.as_slice()) {
        out.extend_from_slice(octets.as_slice())
    } else {
        push_string(out, octets)
    }
}

/// Appends an `astring`: an atom string as it is, all else as a string.
pub fn push_astring(out: &mut Vec<u8>, octets: &Octets) -> Result<(), AllocError>
    ensures { OnOk result (out.new.items ≡ out.old.items ++ astring.text octets.now) }
{
    push_bare_or_string::<AstringChar>(out, octets)
}

/// A `string`, quoted or as a literal.
#[derive(Drop)]
pub struct Text;

impl Spelling for Text {
    ghost use Rattle.imap_syntax.specs.Written.{string};

    type Value = Octets;

    ghost writing = { string };

    fn fits(octets: &Octets) -> bool {
        string_fits(octets)
    }

    fn push(out: &mut Vec<u8>, octets: &Octets) -> Result<(), AllocError> {
        push_string(out, octets)
    }
}

/// An `astring`, bare, quoted or as a literal.
#[derive(Drop)]
pub struct AstringText;

impl Spelling for AstringText {
    ghost use Rattle.imap_syntax.specs.Written.{astring};

    type Value = Octets;

    ghost writing = { astring };

    fn fits(octets: &Octets) -> bool {
        string_fits(octets)
    }

    fn push(out: &mut Vec<u8>, octets: &Octets) -> Result<(), AllocError> {
        push_astring(out, octets)
    }
}
