//! Patterns that are cheaper to match: with each run of wildcards as one.
ghost use Rattle.std.specs.Prelude.{◌≡◌, IfOk};
ghost use Rattle.imap_names.specs.Condensed.{literals_of, is_literal, Adds, Ends};
ghost use Rattle.imap_names.specs.MatchTest.{letters_match};

use crate::token::Token;
use std::alloc::{AllocError, Global};

/// The wildcards that come last in what was read of a pattern.
#[derive(Clone, Copy)]
pub(crate) enum Run {
    /// There are none.
    Empty,
    /// All are `%`.
    InLevel,
    /// One is `*`.
    Across,
}

/// Returns a pattern that matches the same letters, with each run of wildcards as one.
pub(crate) fn condense(alloc: Global, pattern: &[Token]) -> Result<Vec<Token>, AllocError>
    ensures { IfOk result (λ condensed. letters_match condensed.items ≡ letters_match pattern.now) }
{
    let mut condensed = Vec::new(alloc);
    let mut run = Run::Empty;
    let mut n = 0;
    while n < pattern.len() {
        run = add(&mut condensed, run, pattern[n])?;
        n += 1;
    }
    end(&mut condensed, run)?;
    Ok(condensed)
}

/// Adds a token to what was read, which is `condensed` and then `run`. Returns the run after it.
fn add(condensed: &mut Vec<Token>, run: Run, token: Token) -> Result<Run, AllocError>
    ensures { IfOk result (λ next. Adds condensed.old.items run token condensed.new.items next) }
{
    match token {
        Token::Octet(_) => {
            end(condensed, run)?;
            condensed.push(token)?;
            Ok(Run::Empty)
        }
        Token::Any => Ok(Run::Across),
        Token::AnyInLevel => match run {
            Run::Empty => Ok(Run::InLevel),
            Run::InLevel => Ok(Run::InLevel),
            Run::Across => Ok(Run::Across),
        },
    }
}

/// Appends one wildcard for the run.
fn end(condensed: &mut Vec<Token>, run: Run) -> Result<(), AllocError>
    ensures { IfOk result (λ _. Ends condensed.old.items run condensed.new.items) }
{
    match run {
        Run::Empty => Ok(()),
        Run::InLevel => {
            condensed.push(Token::AnyInLevel)?;
            Ok(())
        }
        Run::Across => {
            condensed.push(Token::Any)?;
            Ok(())
        }
    }
}

/// How many of the tokens are octets. No shorter text matches.
pub(crate) fn literals_of(pattern: &[Token]) -> usize
    ensures { result ≡ literals_of pattern.now }
{
    let mut literals = 0;
    let mut n = 0;
    while n < pattern.len() {
        if is_literal(pattern[n]) {
            literals += 1;
        }
        n += 1;
    }
    literals
}

fn is_literal(token: Token) -> bool
    ensures { result ≡ is_literal token }
{
    match token {
        Token::Octet(_) => true,
        Token::Any => false,
        Token::AnyInLevel => false,
    }
}
