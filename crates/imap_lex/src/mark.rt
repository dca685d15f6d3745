//! The mark with which a line announces a literal, as `{12}` or `{12+}`.

ghost use Rattle.std.specs.Prelude.{◌≡◌, ◌++◌, option_map};
ghost use Rattle.imap_lex.specs.Mark.{LineTail, with_octet, with_octets, line_mark};
ghost use Rattle.imap_lex.specs.Held.{held_tail, held_mark};

/// A literal that is to follow (RFC 9051, section 4.3; RFC 7888).
#[derive(Clone, Copy)]
pub struct LiteralMark {
    /// The number of octets that it announces. For a larger number it is `u128::MAX`,
    /// which is over any limit too.
    pub size: u128,
    /// Whether the client waits for a continuation request.
    pub waits: bool,
}

/// The end of a line, as far as it has been read.
#[derive(Clone, Copy)]
enum Tail {
    Text,
    Brace,
    Digits(u128),
    Plus(u128),
    Closed(LiteralMark),
    Cr(LiteralMark),
    Crlf(LiteralMark),
}

impl Tail {
    fn with_octet(self, octet: u8) -> Tail
        ensures { (t : LineTail) → self ≡ held_tail t → result ≡ held_tail (with_octet t octet) }
    {
        match (octet, self) {
            (b'{', _) => Tail::Brace,
            (b'0'..=b'9', Tail::Brace) => Tail::Digits(u128::from(octet - b'0')),
            (b'0'..=b'9', Tail::Digits(size)) => {
                let digit = u128::from(octet - b'0');
                Tail::Digits(size.saturating_mul(10).saturating_add(digit))
            }
            (b'+', Tail::Digits(size)) => Tail::Plus(size),
            (b'}', Tail::Digits(size)) => Tail::Closed(LiteralMark { size, waits: true }),
            (b'}', Tail::Plus(size)) => Tail::Closed(LiteralMark { size, waits: false }),
            (b'\r', Tail::Closed(mark)) => Tail::Cr(mark),
            (b'\n', Tail::Cr(mark)) => Tail::Crlf(mark),
            _ => Tail::Text,
        }
    }

    /// Returns the end of the line after these octets.
    fn with_octets(self, octets: &[u8]) -> Tail
        ensures { (t : LineTail) → self ≡ held_tail t → result ≡ held_tail (with_octets t octets.now) }
    {
        let mut tail = self;
        for octet in octets {
            tail = tail.with_octet(*octet);
        }
        tail
    }
}

/// Returns the mark with which the line `front` + `back` ends.
pub fn line_mark(front: &[u8], back: &[u8]) -> Option<LiteralMark>
    ensures { result ≡ option_map held_mark (line_mark (front.now ++ back.now)) }
{
    match Tail::Text.with_octets(front).with_octets(back) {
        Tail::Crlf(mark) => Some(mark),
        _ => None,
    }
}
