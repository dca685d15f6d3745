//! The end of a line.

ghost use Rattle.std.specs.Prelude.{◌≡◌, ◌≤◌};
ghost use Rattle.imap_lex.specs.LineEnd.{IsLineEnd, line_length};

/// How a piece goes on with a line.
#[derive(Clone, Copy)]
pub(crate) enum LineEnd {
    /// The line ends with this many octets of the piece.
    After(usize),
    /// The whole piece is of the line, which does not end with it.
    Missing,
    /// The line has more octets than it may have.
    TooLong,
}

/// Returns how `piece` goes on with the line whose first octets are `front` and
/// which may have `room` octets more.
pub(crate) fn line_end(front: &[u8], room: usize, piece: &[u8]) -> LineEnd
    ensures { IsLineEnd front.now room piece.now result }
{
    let mut after_cr = front.ends_with(b"\r");
    for (at, octet) in piece.iter().enumerate() {
        if at >= room {
            return LineEnd::TooLong;
        }
        if after_cr && *octet == b'\n' {
            return LineEnd::After(at + 1);
        }
        after_cr = *octet == b'\r';
    }
    LineEnd::Missing
}

/// Returns the length of the line with which `octets` begins, its CRLF counted, or
/// `None` if no CRLF stands in them.
pub fn line_length(octets: &[u8]) -> Option<usize>
    ensures { result ≡ line_length octets.now }
{
    match line_end(&[], octets.len(), octets) {
        LineEnd::After(len) => Some(len),
        LineEnd::Missing => None,
        // The line may have all the octets.
        LineEnd::TooLong => None,
    }
}
