//! Header, text, and parts of them (RFC 9051, section 6.4.5.1).

ghost use Rattle.std.specs.Prelude.{◌≡◌, ◌≤◌, eqb, length, IfOk};
ghost use Rattle.std.specs.List.{starts_with};
ghost use Rattle.imap_lex.specs.Chars.{crlf};
ghost use Rattle.imap_text.specs.Sections.{header, text, partial};

use crate::line::CRLF;
use bstr::ByteSlice;
use imap_lex::Octets;
use std::alloc::AllocError;

/// The end of a line, and an empty line after it.
const EMPTY_LINE: &[u8] = b"\r\n\r\n";

/// Returns the number of octets of the header: those up to the first empty line, with it. Without an empty
/// line the header is the whole message.
pub fn header_length(octets: &[u8]) -> usize
    ensures length { result ≡ length (header octets.now) }
    ensures within { result ≤ length octets.now }
{
    if begins_with_empty_line(octets) {
        return CRLF.len();
    }
    match octets.find(EMPTY_LINE) {
        Some(at) => at + EMPTY_LINE.len(),
        None => octets.len(),
    }
}

fn begins_with_empty_line(octets: &[u8]) -> bool
    ensures { result ≡ starts_with eqb octets.now crlf }
{
    octets.starts_with(CRLF)
}

/// Returns the header of a message, without copying it.
pub fn header(message: &Octets) -> Result<Octets, AllocError>
    ensures { IfOk result (λ part. part ≡ header message.now) }
{
    message.slice(0, header_length(message.as_slice()))
}

/// Returns what follows the header of a message, without copying it.
pub fn text(message: &Octets) -> Result<Octets, AllocError>
    ensures { IfOk result (λ part. part ≡ text message.now) }
{
    let octets = message.as_slice();
    message.slice(header_length(octets), octets.len())
}

/// Returns at most `count` octets from `origin`, without copying them. There are none if `origin` is past the
/// end.
pub fn partial(octets: &Octets, origin: u64, count: u64) -> Result<Octets, AllocError>
    ensures { IfOk result (λ part. part ≡ partial octets.now origin count) }
{
    let len = octets.as_slice().len() as u64;
    let start = origin.min(len);
    let end = start + count.min(len - start);
    octets.slice(start as usize, end as usize)
}
