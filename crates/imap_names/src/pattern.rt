//! Patterns of LIST.
ghost use Rattle.std.specs.Prelude.{◌≡◌, ◌++◌, map, IfOk};
ghost use Rattle.imap_names.specs.MatchTest.{is_match, letters_match, is_percent, ends_in_percent};
ghost use Rattle.imap_names.specs.Pattern.{pattern_read, token_of};

use crate::condensed::{condense, literals_of};
use crate::letters::Letters;
use crate::places::{MAX_LETTERS, match_places};
use crate::token::Token;
use crate::wildcards::{Stop, match_letters, meet};
use std::alloc::{AllocError, Global};
use std::marker::Model;
use std::str;
use unicode_normalization::to_nfc;

/// How many steps of a walk take about as long as the tables of a text's letters.
const FEW_STEPS: usize = 512;

/// The pattern of a command LIST (RFC 9051, section 6.3.9), with its reference. Contracts see its tokens.
#[derive(Drop)]
pub struct Pattern {
    tokens: Vec<Token>,
    /// Matches the same names, and has each run of wildcards as one.
    condensed: Vec<Token>,
    /// How many of the tokens stand for one letter each.
    literals: usize,
}

impl Model for Pattern {
    ghost use Rattle.std.specs.Prelude.{◌≡◌, List};
    ghost use Rattle.imap_names.specs.Condensed.{literals_of};
    ghost use Rattle.imap_names.specs.declared.token.Token.{Token};
    ghost use Rattle.imap_names.specs.MatchTest.{letters_match};

    ghost Value = { List Token };

    ghost view = { λ pattern. pattern.tokens.items };

    ghost invariant = { λ pattern. (letters_match pattern.condensed.items ≡ letters_match pattern.tokens.items)
        × (pattern.literals ≡ literals_of pattern.tokens.items) };
}

impl Pattern {
    /// Reads `pattern` after `reference`, joined and brought to NFC (RFC 5198). Wildcards of the reference
    /// count too. Returns `None` for octets that aren't UTF-8 when joined: these match no name.
    pub fn read(
        alloc: Global,
        reference: &[u8],
        pattern: &[u8],
    ) -> Result<Option<Pattern>, AllocError>
        ensures { IfOk result (λ read. read ≡ pattern_read reference.now pattern.now) }
    {
        let joined = join(alloc, reference, pattern)?;
        let Ok(text) = str::from_utf8(joined.as_slice()) else {
            return Ok(None);
        };
        let composed = to_nfc(alloc, text)?;
        let tokens = read_tokens(alloc, composed.as_bytes())?;
        let condensed = condense(alloc, tokens.as_slice())?;
        let literals = literals_of(tokens.as_slice());
        Ok(Some(Pattern {
            tokens,
            condensed,
            literals,
        }))
    }

    /// Whether a name matches, by the text that shows it to the reader. If the first component of its path
    /// is INBOX, that component matches in any ASCII case.
    pub fn matches(&self, text: &str) -> bool
        ensures { result ≡ is_match self.now text.now }
    {
        if text.len() < self.literals {
            return false;
        }
        match_tokens(self.condensed.as_slice(), &Letters::of(text))
    }

    /// Whether the last octet is the wildcard `%`: the pattern then lists levels of hierarchy too (section
    /// 6.3.9).
    pub fn ends_in_percent(&self) -> bool
        ensures { result ≡ ends_in_percent self.now }
    {
        match self.tokens.as_slice().last() {
            Some(token) => is_percent(*token),
            None => false,
        }
    }
}

/// Whether the letters match the whole pattern. A long one is matched by places, if its first octets begin
/// the text.
fn match_tokens(pattern: &[Token], text: &Letters<'_>) -> bool
    ensures { result ≡ letters_match pattern.now text.now }
{
    if let Stop::Differs = meet(pattern, text) {
        return false;
    }
    let is_long = pattern.len().saturating_mul(text.len()) > FEW_STEPS;
    if is_long && text.len() <= MAX_LETTERS {
        return match_places(pattern, text);
    }
    match_letters(pattern, text)
}

fn is_percent(token: Token) -> bool
    ensures { result ≡ is_percent token }
{
    match token {
        Token::AnyInLevel => true,
        Token::Any => false,
        Token::Octet(_) => false,
    }
}

fn join(alloc: Global, front: &[u8], back: &[u8]) -> Result<Vec<u8>, AllocError>
    ensures { IfOk result (λ joined. joined.items ≡ front.now ++ back.now) }
{
    let mut joined = Vec::new(alloc);
    joined.extend_from_slice(front)?;
    joined.extend_from_slice(back)?;
    Ok(joined)
}

fn read_tokens(alloc: Global, octets: &[u8]) -> Result<Vec<Token>, AllocError>
    ensures { IfOk result (λ tokens. tokens.items ≡ map token_of octets.now) }
{
    octets.iter().map(|octet| token_of(*octet)).collect(alloc)
}

fn token_of(octet: u8) -> Token
    ensures { result ≡ token_of octet }
{
    match octet {
        b'*' => Token::Any,
        b'%' => Token::AnyInLevel,
        octet => Token::Octet(octet),
    }
}
