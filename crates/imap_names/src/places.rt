//! The wildcards of patterns, over the places of a text as bits.
//!
//! Each token takes a few operations on words, whatever the text: so this is for long patterns. Bit `n` of
//! a word stands for the place before the last `n` letters, or in a further word before as many more than
//! the words before it have. The last place of a word is also the first of the next.
ghost use Rattle.std.specs.Prelude.{◌≡◌, ◌-◌, ◌≤◌, length};
ghost use Rattle.imap_names.specs.MatchTest.{letters_match};
ghost use Rattle.imap_names.specs.Places.{word_letters, max_letters, AddsMark, AddsLetter, AreMarks, IsInner, AreMasks, AreAllMasks, Steps, step_of, flood, IsOfOctets};

use crate::letters::{Letter, Letters};
use crate::token::Token;
use crate::wildcards::ends_level;

/// So many letters have their places in one word, and a bit is left over.
const WORD_LETTERS: usize = 62;

const WORDS: usize = 6;

/// The most letters of a text that is matched by its places. Names are shorter.
pub(crate) const MAX_LETTERS: usize = WORDS * WORD_LETTERS - 1;

/// The letters of a word.
#[derive(Drop)]
struct Masks {
    /// For each octet, the places before the letters for which it stands.
    octets: [u64; 256],
    /// The places before the letters that end no level.
    inner: u64,
}

/// Whether the letters match the whole pattern.
pub(crate) fn match_places(pattern: &[Token], text: &Letters<'_>) -> bool
    requires { length text.now ≤ max_letters }
    ensures { result ≡ letters_match pattern.now text.now }
{
    if text.len() <= WORD_LETTERS {
        return reaches(pattern, text, &masks_from(text, 0));
    }
    let masks = [
        masks_from(text, 0),
        masks_from(text, WORD_LETTERS),
        masks_from(text, 2 * WORD_LETTERS),
        masks_from(text, 3 * WORD_LETTERS),
        masks_from(text, 4 * WORD_LETTERS),
        masks_from(text, 5 * WORD_LETTERS),
    ];
    reaches_by_words(pattern, text, &masks)
}

/// Goes back over the tokens, from the place after the last letter. One word has all places.
fn reaches(pattern: &[Token], text: &Letters<'_>, masks: &Masks) -> bool
    requires within { length text.now ≤ word_letters }
    requires masks { AreMasks text.now 0 masks.now }
    ensures { result ≡ letters_match pattern.now text.now }
{
    let mut places = 1;
    let mut n = pattern.len();
    while n > 0 {
        if places == 0 {
            return false;
        }
        n -= 1;
        places = step(pattern[n], places, 0, masks);
    }
    (places >> text.len()) & 1 == 1
}

/// Goes back over the tokens, from the place after the last letter.
fn reaches_by_words(pattern: &[Token], text: &Letters<'_>, masks: &[Masks; WORDS]) -> bool
    requires within { length text.now ≤ max_letters }
    requires masks { AreAllMasks text.now masks.now }
    ensures { result ≡ letters_match pattern.now text.now }
{
    let mut words = [1, 0, 0, 0, 0, 0];
    let mut n = pattern.len();
    while n > 0 {
        n -= 1;
        step_words(pattern[n], text, &mut words, masks);
    }
    let len = text.len();
    (words[len / WORD_LETTERS] >> (len % WORD_LETTERS)) & 1 == 1
}

/// Goes back over one token, in each word that has places of the text.
fn step_words(token: Token, text: &Letters<'_>, words: &mut [u64; WORDS], masks: &[Masks; WORDS])
    requires within { length text.now ≤ max_letters }
    requires masks { AreAllMasks text.now masks.now }
    ensures { Steps token text.now words.old words.new }
{
    let used = text.len() / WORD_LETTERS + 1;
    let mut carry = 0;
    let mut word = 0;
    while word < used {
        words[word] = step(token, words[word], carry, &masks[word]);
        carry = (words[word] >> WORD_LETTERS) & 1;
        word += 1;
    }
}

/// From which places of a word the token and then the rest of a pattern match, by the places from which the
/// rest does. A `carry` of 1 says that they match from the word's first place.
fn step(token: Token, places: u64, carry: u64, masks: &Masks) -> u64
    ensures places { result ≡ step_of token places carry masks.now }
    ensures octet { IsOfOctets token }
{
    match token {
        Token::Any => flood(places | carry, u64::MAX),
        Token::AnyInLevel => flood(places | carry, masks.inner),
        Token::Octet(octet) => ((places << 1) & masks.octets[octet as usize]) | carry,
    }
}

/// Adds the places from which letters that are let `through` lead to one of `places`.
fn flood(places: u64, through: u64) -> u64
    ensures { result ≡ flood places through }
{
    let either = places | through;
    ((places ^ either) ^ places.wrapping_add(either)) >> 1
}

/// The letters of the word whose first place is before the last `base` letters.
fn masks_from(text: &Letters<'_>, base: usize) -> Masks
    ensures { AreMasks text.now base result }
{
    let left = text.len().saturating_sub(base);
    let count = if left < WORD_LETTERS {
        left
    } else {
        WORD_LETTERS
    };
    Masks {
        octets: letter_marks(text, base, count),
        inner: inner_places(text, base, count),
    }
}

fn letter_marks(text: &Letters<'_>, base: usize, count: usize) -> [u64; 256]
    requires within { count ≤ word_letters }
    requires in_text { count ≤ length text.now - base }
    ensures { AreMarks text.now base count result }
{
    let len = text.len();
    let mut octets = [0; 256];
    let mut n = 0;
    while n < count {
        n += 1;
        mark_letter(&mut octets, text.at(len - (base + n)), n);
    }
    octets
}

fn mark_letter(octets: &mut [u64; 256], letter: Letter, n: usize)
    requires { n ≤ word_letters }
    ensures { AddsLetter octets.old letter n octets.new }
{
    if letter.any_case {
        mark(octets, letter.octet.to_ascii_lowercase(), n);
        mark(octets, letter.octet.to_ascii_uppercase(), n);
    } else {
        mark(octets, letter.octet, n);
    }
}

fn mark(octets: &mut [u64; 256], octet: u8, n: usize)
    requires { n ≤ word_letters }
    ensures { AddsMark octets.old octet n octets.new }
{
    octets[octet as usize] |= 1 << n;
}

fn inner_places(text: &Letters<'_>, base: usize, count: usize) -> u64
    requires within { count ≤ word_letters }
    requires in_text { count ≤ length text.now - base }
    ensures { IsInner text.now base count result }
{
    let len = text.len();
    let mut inner = 0;
    let mut n = 0;
    while n < count {
        n += 1;
        if !ends_level(text.at(len - (base + n))) {
            inner |= 1 << n;
        }
    }
    inner
}
