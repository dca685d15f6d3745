//! Fields of a header (RFC 5322, section 2.2).

ghost use Rattle.std.specs.Prelude.{◌≡◌, [], option_map, position, MatchOption};
ghost use Rattle.imap_text.specs.Sections.{sections};
ghost use Rattle.imap_text.specs.Fields.{is_continuation, is_colon, is_among, is_named};
ghost use Rattle.imap_text.specs.Found.{IsAfterContinuations, IsFirstField};

use crate::line::{is_empty_line, split_line};
use imap_syntax::FieldName;

/// A field of a header.
#[derive(Clone, Copy)]
pub(crate) struct Field<'a> {
    /// The first line.
    pub line: &'a [u8],
    /// All lines.
    pub octets: &'a [u8],
    /// What follows the field.
    pub later: &'a [u8],
}

/// Whether the line begins with a space or a tab.
fn is_continuation(line: &[u8]) -> bool
    ensures { result ≡ is_continuation line.now }
{
    matches!(line, [b' ' | b'\t', ..])
}

/// Returns what follows the continuation lines at the front.
fn after_continuations(octets: &[u8]) -> &[u8]
    ensures { IsAfterContinuations octets.now result.now }
{
    let mut rest = octets;
    while let Some((line, later)) = split_line(rest) {
        if !is_continuation(line) {
            return rest;
        }
        rest = later;
    }
    rest
}

/// Splits the first field from the rest of a header. Returns `None` if no line is left, or the empty one.
pub(crate) fn split_field(octets: &[u8]) -> Option<Field<'_>>
    ensures { MatchOption result ((sections octets.now).field_lines ≡ [])
        (λ f. IsFirstField octets.now f.line.now f.octets.now f.later.now) }
{
    let (line, below) = split_line(octets)?;
    if is_empty_line(line) {
        return None;
    }
    let later = after_continuations(below);
    let octets = &octets[..octets.len() - later.len()];
    Some(Field {
        line,
        octets,
        later,
    })
}

/// Returns the place of the colon after the name of the field that begins with `line`, if it has a name.
pub(crate) fn colon_of(line: &[u8]) -> Option<usize>
    ensures { result ≡ position is_colon line.now }
{
    line.iter().position(|octet| *octet == b':')
}

fn is_among(names: &[FieldName], name: &[u8]) -> bool
    ensures { result ≡ is_among names.now name.now }
{
    names
        .iter()
        .any(|asked| asked.as_slice().eq_ignore_ascii_case(name))
}

/// Whether the field that begins with `line` has one of the names, in any ASCII case.
pub(crate) fn is_named(names: &[FieldName], line: &[u8]) -> bool
    ensures { result ≡ is_named names.now line.now }
{
    match colon_of(line) {
        Some(colon) => is_among(names, &line[..colon]),
        None => false,
    }
}
