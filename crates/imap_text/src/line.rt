//! Lines (RFC 5322, section 2.1).

ghost use Rattle.std.specs.Prelude.{◌≡◌, [], MatchOption};
ghost use Rattle.imap_text.specs.Lines.{is_empty_line};
ghost use Rattle.imap_text.specs.Found.{IsFirstLine};

use imap_lex::line_length;

pub(crate) const CRLF: &[u8] = b"\r\n";

/// Splits the first line of `octets`, its CRLF with it, from what follows. Octets without a CRLF are one
/// line. Returns `None` if there are no octets.
pub fn split_line(octets: &[u8]) -> Option<(&[u8], &[u8])>
    ensures { MatchOption result (octets.now ≡ []) (λ split. IsFirstLine octets.now split.0.now split.1.now) }
{
    if octets.is_empty() {
        return None;
    }
    match line_length(octets) {
        Some(len) => Some(octets.split_at(len)),
        None => Some(octets.split_at(octets.len())),
    }
}

/// Whether the line is CRLF alone.
pub(crate) fn is_empty_line(line: &[u8]) -> bool
    ensures { result ≡ is_empty_line line.now }
{
    line == CRLF
}
