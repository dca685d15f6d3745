//! The octets of a literal, in parts.

ghost use Rattle.std.specs.Prelude.{◌≡◌, ◌≤◌, ◌^◌, ◌∷◌, [], length, IfOk, MatchOption};
ghost use Rattle.std.specs.List.{concat};
ghost use Rattle.imap_print.specs.Literals.{IsHeld};

use imap_lex::Octets;
use imap_syntax::Items;
use imap_values::{Same, TryCopy};
use std::alloc::{AllocError, Global};
use std::marker::Model;

/// The octets of a literal (RFC 9051, section 4.3) in parts, one after another: fewer than 2^64 together.
///
/// A copy shares the octets.
#[derive(Drop)]
pub struct LiteralParts {
    parts: Items<Octets>,
    len: u64,
}

impl Model for LiteralParts {
    ghost use Rattle.std.specs.Prelude.{◌≡◌, ℕ, List, length};
    ghost use Rattle.std.specs.List.{concat};

    ghost Value = { List (List ℕ) };

    ghost view = { λ p. p.parts };

    ghost invariant = { λ p. p.len ≡ length (concat p.parts) };
}

impl LiteralParts {
    /// Returns the literal of these parts, or `None` if they have 2^64 octets or more.
    pub fn from_parts(parts: Items<Octets>) -> Option<LiteralParts>
        ensures { MatchOption result (2 ^ 64 ≤ length (concat parts)) (λ made. made ≡ parts) }
    {
        let len = total(parts.as_slice())?;
        Some(LiteralParts { parts, len })
    }

    /// Returns the literal of one part.
    pub fn of_octets(alloc: Global, octets: Octets) -> Result<LiteralParts, AllocError>
        ensures { IfOk result (λ made. made ≡ octets ∷ []) }
    {
        let len = octets.as_slice().len() as u64;
        let mut parts = Vec::new(alloc);
        parts.push(octets)?;
        let parts = Items::from_vec(parts);
        Ok(LiteralParts { parts, len })
    }

    /// Returns the parts.
    pub fn as_slice(&self) -> &[Octets]
        ensures { result.now ≡ self.now }
    {
        self.parts.as_slice()
    }

    /// Returns the number of octets of all parts.
    pub fn len(&self) -> u64
        ensures len { result ≡ length (concat self.now) }
        ensures valid { IsHeld (concat self.now) }
    {
        self.len
    }
}

impl TryCopy for LiteralParts {
    fn try_copy(&self, alloc: Global) -> Result<LiteralParts, AllocError> {
        Ok(LiteralParts {
            parts: self.parts.try_copy(alloc)?,
            len: self.len,
        })
    }
}

impl Same for LiteralParts {
    /// Whether the parts are the same, one by one.
    fn is_same(&self, other: &LiteralParts) -> bool {
        self.parts.is_same(&other.parts)
    }
}

/// Returns the number of octets of all parts, or `None` if it is 2^64 or more.
fn total(parts: &[Octets]) -> Option<u64>
    ensures { MatchOption result (2 ^ 64 ≤ length (concat parts.now)) (λ n. n ≡ length (concat parts.now)) }
{
    let mut len: u64 = 0;
    for part in parts {
        len = len.checked_add(part.as_slice().len() as u64)?;
    }
    Some(len)
}
