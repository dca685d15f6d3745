//! The words and strings of which commands are made (RFC 9051, section 9).

ghost use Rattle.std.specs.Prelude.{◌≡◌, ◌≤◌, ◌^◌, length, MatchOption};
ghost use Rattle.std.specs.Char.{is_ascii_digit};
ghost use Rattle.std.specs.List.{prefix_len};
ghost use Rattle.imap_syntax.specs.Rule.{some_of};
ghost use Rattle.imap_syntax.specs.Reading.{ReadsIfMemory, Reads};
ghost use Rattle.imap_syntax.specs.Lexical.{is_astring_char, is_atom_char, is_word_char, is_tag_char};
ghost use Rattle.imap_syntax.specs.Lexical.{is_quoted_special, is_text_char, space, crlf, quoted_end};
ghost use Rattle.imap_syntax.specs.Lexical.{quoted, decimal, number, nz_number, has_nul, literal_head};
ghost use Rattle.imap_syntax.specs.Lexical.{literal, string, astring};

use crate::cursor::Cursor;
use crate::error::ReadError;
use crate::nz_number::NzNumber64;
use imap_lex::{AstringChar, OctetClass, Octets, TagChar, is_astring_char, leading};
use std::alloc::Global;

/// ATOM-CHAR: ASTRING-CHAR except `]`.
pub fn is_atom_char(octet: u8) -> bool
    ensures { result ≡ is_atom_char octet }
{
    is_astring_char(octet) && octet != b']'
}

/// The characters of the words of FETCH and of the names of months: letters, digits and `.`.
pub fn is_word_char(octet: u8) -> bool
    ensures { result ≡ is_word_char octet }
{
    octet.is_ascii_alphabetic() || octet.is_ascii_digit() || octet == b'.'
}

/// The characters that stand in a quoted string only after a backslash: `"` and the backslash.
pub(crate) fn is_quoted_special(octet: u8) -> bool
    ensures { result ≡ is_quoted_special octet }
{
    matches!(octet, b'"' | b'\\')
}

/// The characters that stand for themselves in a quoted string.
fn is_text_char(octet: u8) -> bool
    ensures { result ≡ is_text_char octet }
{
    !matches!(octet, 0 | b'\r' | b'\n') && !is_quoted_special(octet)
}

/// The class of [`is_atom_char`].
pub struct AtomChar;

impl OctetClass for AtomChar {
    ghost test = { is_atom_char };

    fn has(octet: u8) -> bool {
        is_atom_char(octet)
    }
}

/// The class of [`is_word_char`].
pub struct WordChar;

impl OctetClass for WordChar {
    ghost test = { is_word_char };

    fn has(octet: u8) -> bool {
        is_word_char(octet)
    }
}

/// The class of decimal digits.
pub struct Digit;

impl OctetClass for Digit {
    ghost test = { is_ascii_digit };

    fn has(octet: u8) -> bool {
        octet.is_ascii_digit()
    }
}

/// Whether NUL is among the octets. Literals may not have it.
pub fn has_nul(octets: &[u8]) -> bool
    ensures { result ≡ has_nul octets.now }
{
    octets.iter().any(|octet| *octet == 0)
}

/// Returns the number of these digits, or `None` if it is 2^64 or more.
pub fn decimal(digits: &[u8]) -> Option<u64>
    ensures { MatchOption result (2 ^ 64 ≤ decimal digits.now) (λ n. n ≡ decimal digits.now) }
{
    let mut number: u64 = 0;
    for digit in digits {
        number = number
            .checked_mul(10)?
            .checked_add(u64::from(digit.saturating_sub(b'0')))?;
    }
    Some(number)
}

impl<'a> Cursor<'a> {
    /// Reads SP.
    pub fn space(&mut self) -> Result<(), ReadError>
        ensures { Reads (λ _. tt) result self.new (space.read self.old) }
    {
        self.octet(b' ')
    }

    /// Reads CRLF.
    pub fn crlf(&mut self) -> Result<(), ReadError>
        ensures { Reads (λ _. tt) result self.new (crlf.read self.old) }
    {
        self.octet(b'\r')?;
        self.octet(b'\n')
    }

    /// Reads 1*ASTRING-CHAR.
    pub(crate) fn atom_string(&mut self) -> Result<&'a [u8], ReadError>
        ensures { Reads (λ s. s.now) result self.new ((some_of is_astring_char).read self.old) }
    {
        self.front(leading::<AstringChar>(self.rest()))
    }

    /// Reads `tag`.
    pub fn tag(&mut self) -> Result<&'a [u8], ReadError>
        ensures { Reads (λ s. s.now) result self.new ((some_of is_tag_char).read self.old) }
    {
        self.front(leading::<TagChar>(self.rest()))
    }

    /// Reads a quoted string after its first quote. Returns its value, without quotes and backslashes.
    pub fn quoted_end(&mut self, alloc: Global) -> Result<Octets, ReadError>
        ensures { ReadsIfMemory (λ o. o) result self.new (quoted_end.read self.old) }
    {
        let mut value = Vec::new(alloc);
        loop {
            match self.next()? {
                b'"' => return Ok(Octets::from_vec(value)?),
                b'\\' => {
                    let escaped = self.next()?;
                    if !is_quoted_special(escaped) {
                        return Err(ReadError::Syntax);
                    }
                    value.push(escaped)?;
                }
                plain if is_text_char(plain) => value.push(plain)?,
                _ => return Err(ReadError::Syntax),
            }
        }
    }

    /// Reads `quoted`.
    pub fn quoted(&mut self, alloc: Global) -> Result<Octets, ReadError>
        ensures { ReadsIfMemory (λ o. o) result self.new (quoted.read self.old) }
    {
        self.octet(b'"')?;
        self.quoted_end(alloc)
    }

    /// Reads 1*DIGIT.
    pub(crate) fn digits(&mut self) -> Result<&'a [u8], ReadError>
        ensures { Reads (λ s. s.now) result self.new ((some_of is_ascii_digit).read self.old) }
    {
        self.front(leading::<Digit>(self.rest()))
    }

    /// Reads a number from `low` to `high`.
    pub fn number(&mut self, low: u64, high: u64) -> Result<u64, ReadError>
        ensures { Reads (λ n. n) result self.new ((number low high).read self.old) }
    {
        let digits = self.digits()?;
        match decimal(digits) {
            Some(number) if low <= number && number <= high => Ok(number),
            _ => Err(ReadError::Syntax),
        }
    }

    /// Reads `nz-number`, up to `high`.
    pub fn nz_number(&mut self, high: u64) -> Result<u64, ReadError>
        ensures { Reads (λ n. n) result self.new ((nz_number high).read self.old) }
    {
        let digits = self.digits()?;
        if let [b'0', ..] = digits {
            return Err(ReadError::Syntax);
        }
        match decimal(digits) {
            Some(number) if number <= high => Ok(number),
            _ => Err(ReadError::Syntax),
        }
    }

    /// Reads `nz-number64`.
    #[tactic(auto, using(crate::proofs::NzNumbers::number_in_range))]
    pub fn nz_number64(&mut self) -> Result<NzNumber64, ReadError>
        ensures { Reads (λ n. n) result self.new ((nz_number 9223372036854775807).read self.old) }
    {
        Ok(NzNumber64::of(self.nz_number(i64::MAX as u64)?))
    }

    /// Reads the part of a literal before its octets. Returns their number.
    pub fn literal_head(&mut self) -> Result<u64, ReadError>
        ensures { Reads (λ n. n) result self.new (literal_head.read self.old) }
    {
        self.octet(b'{')?;
        let len = self.number(0, u64::MAX)?;
        self.has(b'+');
        self.octet(b'}')?;
        self.crlf()?;
        Ok(len)
    }

    /// Reads `literal`.
    fn literal(&mut self, alloc: Global) -> Result<Octets, ReadError>
        ensures { ReadsIfMemory (λ o. o) result self.new (literal.read self.old) }
    {
        let len = self.literal_head()?;
        let octets = self.counted(len)?;
        if has_nul(octets) {
            return Err(ReadError::Syntax);
        }
        Ok(Octets::from_slice(alloc, octets)?)
    }

    /// Reads `string`.
    #[tactic(auto, unfolding(crate::specs::Lexical::string))]
    pub fn string(&mut self, alloc: Global) -> Result<Octets, ReadError>
        ensures { ReadsIfMemory (λ o. o) result self.new (string.read self.old) }
    {
        match self.rest() {
            [b'"', ..] => self.quoted(alloc),
            _ => self.literal(alloc),
        }
    }

    /// Reads `astring`.
    #[tactic(auto, unfolding(crate::specs::Lexical::astring, crate::specs::Lexical::string))]
    pub fn astring(&mut self, alloc: Global) -> Result<Octets, ReadError>
        ensures { ReadsIfMemory (λ o. o) result self.new (astring.read self.old) }
    {
        match self.rest() {
            [b'"' | b'{', ..] => self.string(alloc),
            _ => Ok(Octets::from_slice(alloc, self.atom_string()?)?),
        }
    }
}
