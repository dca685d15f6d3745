//! Headers of messages and parts, and what follows them (RFC 9051, section 6.4.5.1, HEADER, MIME and TEXT).

ghost use Rattle.std.specs.Prelude.{◌≡◌};
ghost use Rattle.imap_text.specs.Sections.{header, text};

use imap_text::header_length;

/// Splits the header from what follows it.
pub fn split_header(octets: &[u8]) -> (&[u8], &[u8])
    ensures header { result.0.now ≡ header octets.now }
    ensures text { result.1.now ≡ text octets.now }
{
    octets.split_at(header_length(octets))
}

/// Returns what follows the header.
pub(crate) fn text(octets: &[u8]) -> &[u8]
    ensures { result.now ≡ text octets.now }
{
    let (_, text) = split_header(octets);
    text
}
