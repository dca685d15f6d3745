//! Delimiters of parts (RFC 2046, section 5.1.1).

ghost use Rattle.std.specs.Prelude.{◌≡◌};
ghost use Rattle.std.specs.List.{list_all};
ghost use Rattle.imap_mime.specs.Lexical.{is_white};
ghost use Rattle.imap_structure.specs.Parts.{delimiter_after, delimiter_by, delimiter_of, is_end};

/// What a line is between the parts of a multipart.
#[derive(Clone, Copy)]
pub(crate) enum Delimiter {
    None,
    /// A part follows.
    Part,
    /// No part follows.
    End,
}

fn is_white(octet: u8) -> bool
    ensures { result ≡ is_white octet }
{
    matches!(octet, b' ' | b'\t' | b'\r' | b'\n')
}

fn are_white(octets: &[u8]) -> bool
    ensures { result ≡ list_all is_white octets.now }
{
    octets.iter().all(|octet| is_white(*octet))
}

fn is_end(rest: &[u8]) -> bool
    ensures { result ≡ is_end rest.now }
{
    if rest.starts_with(b"--") {
        are_white(&rest[2..])
    } else {
        false
    }
}

/// Returns what a line is with these octets after the boundary.
fn delimiter_after(rest: &[u8]) -> Delimiter
    ensures { result ≡ delimiter_after rest.now }
{
    if is_end(rest) {
        Delimiter::End
    } else if are_white(rest) {
        Delimiter::Part
    } else {
        Delimiter::None
    }
}

/// Returns what a line is with these octets after `--`.
fn delimiter_by(boundary: &[u8], rest: &[u8]) -> Delimiter
    ensures { result ≡ delimiter_by boundary.now rest.now }
{
    if rest.starts_with(boundary) {
        delimiter_after(&rest[boundary.len()..])
    } else {
        Delimiter::None
    }
}

/// Returns what a line is between parts with this boundary.
pub(crate) fn delimiter_of(boundary: &[u8], line: &[u8]) -> Delimiter
    ensures { result ≡ delimiter_of boundary.now line.now }
{
    if line.starts_with(b"--") {
        delimiter_by(boundary, &line[2..])
    } else {
        Delimiter::None
    }
}
