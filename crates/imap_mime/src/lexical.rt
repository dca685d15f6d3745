//! The signs of structured fields (RFC 5322, sections 3.2.2 to 3.2.5 and 3.4.1).

ghost use Rattle.std.specs.Prelude.{◌≡◌};
ghost use Rattle.imap_mime.specs.Lexical.{deeper, is_divider, is_white, read_comment, read_literal};
ghost use Rattle.imap_mime.specs.Lexical.{read_outside, read_quoted, sign_read};

/// The place of an octet in a field's text.
#[derive(Clone, Copy)]
pub enum Lexical {
    Outside,
    /// In a quoted string.
    Quoted,
    /// After a backslash in a quoted string.
    QuotedPair,
    /// In a domain literal.
    Literal,
    /// In a comment that stands in this many others.
    Comment(u32),
    /// After a backslash in this comment.
    CommentPair(u32),
}

/// What an octet says.
#[derive(Clone, Copy)]
pub enum Sign {
    /// An octet of a word.
    Word(u8),
    /// A quoted string begins, which is a word, also if it is empty.
    QuoteBegins,
    /// White space.
    Space,
    /// A comment begins that stands in no other.
    CommentBegins,
    /// An octet of a comment.
    Comment(u8),
    /// One of `< > @ , ; :` outside quotes, comments and domain literals.
    Divider(u8),
    Nothing,
}

/// An octet that has been read.
#[derive(Clone, Copy)]
pub struct SignRead {
    pub sign: Sign,
    /// The place of the next octet.
    pub next: Lexical,
}

fn is_white(octet: u8) -> bool
    ensures { result ≡ is_white octet }
{
    matches!(octet, b' ' | b'\t' | b'\r' | b'\n')
}

fn is_divider(octet: u8) -> bool
    ensures { result ≡ is_divider octet }
{
    matches!(octet, b'<' | b'>' | b'@' | b',' | b';' | b':')
}

/// Returns how many comments a comment stands in that begins in one that stands in `depth`.
fn deeper(depth: u32) -> u32
    ensures { result ≡ deeper depth }
{
    if depth < u32::MAX { depth + 1 } else { depth }
}

fn read_outside(octet: u8) -> SignRead
    ensures { result ≡ read_outside octet }
{
    let (sign, next) = match octet {
        b'"' => (Sign::QuoteBegins, Lexical::Quoted),
        b'(' => (Sign::CommentBegins, Lexical::Comment(0)),
        b'[' => (Sign::Word(octet), Lexical::Literal),
        _ if is_white(octet) => (Sign::Space, Lexical::Outside),
        _ if is_divider(octet) => (Sign::Divider(octet), Lexical::Outside),
        _ => (Sign::Word(octet), Lexical::Outside),
    };
    SignRead { sign, next }
}

fn read_quoted(octet: u8) -> SignRead
    ensures { result ≡ read_quoted octet }
{
    let (sign, next) = match octet {
        b'"' => (Sign::Nothing, Lexical::Outside),
        b'\\' => (Sign::Nothing, Lexical::QuotedPair),
        _ => (Sign::Word(octet), Lexical::Quoted),
    };
    SignRead { sign, next }
}

fn read_literal(octet: u8) -> SignRead
    ensures { result ≡ read_literal octet }
{
    let next = if octet == b']' {
        Lexical::Outside
    } else {
        Lexical::Literal
    };
    SignRead {
        sign: Sign::Word(octet),
        next,
    }
}

fn read_comment(depth: u32, octet: u8) -> SignRead
    ensures { result ≡ read_comment depth octet }
{
    let (sign, next) = match octet {
        b')' if depth == 0 => (Sign::Nothing, Lexical::Outside),
        b')' => (Sign::Comment(octet), Lexical::Comment(depth - 1)),
        b'(' => (Sign::Comment(octet), Lexical::Comment(deeper(depth))),
        b'\\' => (Sign::Comment(octet), Lexical::CommentPair(depth)),
        _ => (Sign::Comment(octet), Lexical::Comment(depth)),
    };
    SignRead { sign, next }
}

impl Lexical {
    /// Reads an octet that stands here.
    pub fn read(self, octet: u8) -> SignRead
        ensures { result ≡ sign_read self octet }
    {
        match self {
            Lexical::Outside => read_outside(octet),
            Lexical::Quoted => read_quoted(octet),
            Lexical::QuotedPair => SignRead {
                sign: Sign::Word(octet),
                next: Lexical::Quoted,
            },
            Lexical::Literal => read_literal(octet),
            Lexical::Comment(depth) => read_comment(depth, octet),
            Lexical::CommentPair(depth) => SignRead {
                sign: Sign::Comment(octet),
                next: Lexical::Comment(depth),
            },
        }
    }
}
