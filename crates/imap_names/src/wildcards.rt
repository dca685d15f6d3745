//! The wildcards of patterns: which letters match a list of tokens.
//!
//! Only the last `*` that was reached is tried again at later letters, and after it only the last `%`. So
//! the cost goes by the pattern times the text, or the square of the text, and not by the ways to cut the
//! text.
ghost use Rattle.std.specs.Prelude.{◌≡◌, ◌≤◌, ◌↔◌, ◌∷◌, ◌-◌, IsTrue, length, take, drop, false};
ghost use Rattle.std.specs.List.{list_any};
ghost use Rattle.imap_names.specs.declared.token.Token.TheVariants.{Any, AnyInLevel};
ghost use Rattle.imap_names.specs.Pattern.{Matches, is_letter, ends_level};
ghost use Rattle.imap_names.specs.Walk.{spells, AreSpelled, Parts, Runs, Stops, Segments};

use crate::letters::{Letter, Letters};
use crate::token::Token;

/// How far the tokens before the next wildcard spell the letters.
#[derive(Clone, Copy)]
pub(crate) enum Stop {
    /// The whole pattern spells the whole text.
    Ended,
    /// The text does not match.
    Differs,
    /// A `%` comes after this many tokens, which spell as many letters.
    AtAnyInLevel(usize),
    /// A `*` comes after this many tokens, which spell as many letters.
    AtAny(usize),
}

/// The match of the tokens before the next `*`.
#[derive(Clone, Copy)]
pub(crate) enum Segment {
    /// There is no `*`, and the text matches.
    Matched,
    /// The pattern matches from none of the first letters, this many.
    Failed(usize),
    /// The `*` is the token at the first place, and begins at the earliest at the letter of the second.
    Reached(usize, usize),
}

/// Whether the letters match the whole pattern.
pub(crate) fn match_letters(pattern: &[Token], text: &Letters<'_>) -> bool
    ensures { IsTrue result ↔ Matches pattern.now text.now }
{
    match walk(pattern, text) {
        Segment::Matched => true,
        Segment::Failed(_) => false,
        Segment::Reached(token, letter) => match_after_any(
            &pattern[token + 1..],
            &text.rest(letter),
        ),
    }
}

/// Whether the letters match a `*` and then the pattern.
fn match_after_any(pattern: &[Token], text: &Letters<'_>) -> bool
    ensures { IsTrue result ↔ Matches (Any ∷ pattern.now) text.now }
{
    let len = text.len();
    let mut token = 0;
    let mut letter = 0;
    loop {
        match walk(&pattern[token..], &text.rest(letter)) {
            Segment::Matched => return true,
            Segment::Failed(letters) => {
                if len - letter < letters {
                    return false;
                }
                letter += letters;
            }
            Segment::Reached(tokens, letters) => {
                token += tokens + 1;
                letter += letters;
            }
        }
    }
}

/// Matches the tokens before the first `*`.
fn walk(pattern: &[Token], text: &Letters<'_>) -> Segment
    ensures { Segments pattern.now text.now result }
{
    match meet(pattern, text) {
        Stop::Ended => Segment::Matched,
        Stop::Differs => Segment::Failed(1),
        Stop::AtAny(n) => Segment::Reached(n, n),
        Stop::AtAnyInLevel(n) => walk_levels(pattern, text, n),
    }
}

/// Goes on from a `%` that comes after `n` tokens.
fn walk_levels(pattern: &[Token], text: &Letters<'_>, n: usize) -> Segment
    requires { Runs AnyInLevel pattern.now text.now n }
    ensures { Segments pattern.now text.now result }
{
    let len = text.len();
    let mut token = n + 1;
    let mut letter = n;
    loop {
        match meet(&pattern[token..], &text.rest(letter)) {
            Stop::Ended => return Segment::Matched,
            Stop::Differs => {
                if letter == len || ends_level(text.at(letter)) {
                    return Segment::Failed(level_end(text, n) + 1 - n);
                }
                letter += 1;
            }
            Stop::AtAny(more) => return Segment::Reached(token + more, letter + more),
            Stop::AtAnyInLevel(more) => {
                token += more + 1;
                letter += more;
            }
        }
    }
}

/// Returns the place of the first `/` from `from` on, or of the text's end.
fn level_end(text: &Letters<'_>, from: usize) -> usize
    requires { from ≤ length text.now }
    ensures after { from ≤ result }
    ensures within { result ≤ length text.now }
    ensures plain { list_any ends_level (take (result - from) (drop from text.now)) ≡ false }
{
    let mut end = from;
    while end < text.len() && !ends_level(text.at(end)) {
        end += 1;
    }
    end
}

/// Matches the tokens before the first wildcard.
pub(crate) fn meet(pattern: &[Token], text: &Letters<'_>) -> Stop
    ensures { Stops pattern.now text.now result }
{
    let n = spelled(pattern, text);
    if n == pattern.len() {
        return if n == text.len() {
            Stop::Ended
        } else {
            Stop::Differs
        };
    }
    match pattern[n] {
        Token::Any => Stop::AtAny(n),
        Token::AnyInLevel => Stop::AtAnyInLevel(n),
        Token::Octet(_) => Stop::Differs,
    }
}

/// How many of the first tokens spell the first letters.
fn spelled(pattern: &[Token], text: &Letters<'_>) -> usize
    ensures in_pattern { result ≤ length pattern.now }
    ensures in_text { result ≤ length text.now }
    ensures same { AreSpelled (take result pattern.now) (take result text.now) }
    ensures stops { Parts pattern.now text.now result }
{
    let mut n = 0;
    while n < pattern.len() && n < text.len() {
        if !spells(pattern[n], text.at(n)) {
            return n;
        }
        n += 1;
    }
    n
}

fn spells(token: Token, letter: Letter) -> bool
    ensures { result ≡ spells token letter }
{
    match token {
        Token::Octet(octet) => is_letter(octet, letter),
        Token::Any => false,
        Token::AnyInLevel => false,
    }
}

fn is_letter(octet: u8, letter: Letter) -> bool
    ensures { result ≡ is_letter octet letter }
{
    if letter.any_case {
        octet.eq_ignore_ascii_case(&letter.octet)
    } else {
        octet == letter.octet
    }
}

pub(crate) fn ends_level(letter: Letter) -> bool
    ensures { result ≡ ends_level letter }
{
    letter.octet == b'/'
}
