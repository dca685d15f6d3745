//! Characters of commands (RFC 9051, section 9).

ghost use Rattle.std.specs.Prelude.{◌≡◌, ◌≤◌, length};
ghost use Rattle.std.specs.List.{prefix_len};
ghost use Rattle.imap_lex.specs.Chars.{is_astring_char, is_tag_char};

/// A class of octets.
pub trait OctetClass {
    ghost use Rattle.std.specs.Prelude.{ℕ, Bool};

    ghost test: { ℕ → Bool };

    /// Whether `octet` is of the class.
    fn has(octet: u8) -> bool
        ensures { result ≡ test octet };
}

/// How many octets of the class `C` stand at the front of `octets`.
#[tactic(auto, using(crate::proofs::Classes::within))]
pub fn leading<C: OctetClass>(octets: &[u8]) -> usize
    ensures count { result ≡ prefix_len C.test octets.now }
    ensures within { result ≤ length octets.now }
{
    octets.iter().take_while(|octet| C::has(**octet)).count()
}

/// ASTRING-CHAR: the characters of an atom, and `]`.
pub fn is_astring_char(octet: u8) -> bool
    ensures { result ≡ is_astring_char octet }
{
    matches!(octet, 0x21..=0x7e)
        && !matches!(octet, b'(' | b')' | b'{' | b'%' | b'*' | b'"' | b'\\')
}

/// The characters of a tag: ASTRING-CHAR except `+`.
pub fn is_tag_char(octet: u8) -> bool
    ensures { result ≡ is_tag_char octet }
{
    is_astring_char(octet) && octet != b'+'
}

/// The class of [`is_astring_char`].
pub struct AstringChar;

impl OctetClass for AstringChar {
    ghost test = { is_astring_char };

    fn has(octet: u8) -> bool {
        is_astring_char(octet)
    }
}

/// The class of [`is_tag_char`].
pub struct TagChar;

impl OctetClass for TagChar {
    ghost test = { is_tag_char };

    fn has(octet: u8) -> bool {
        is_tag_char(octet)
    }
}
