//! Atoms (RFC 9051, section 9, `atom`).

ghost use Rattle.std.specs.Prelude.{◌≡◌, IfOk, OnErr};
ghost use Rattle.std.specs.Str.{str_to_ascii_lowercase};
ghost use Rattle.imap_syntax.specs.Rule.{some_of};
ghost use Rattle.imap_syntax.specs.Reading.{ReadsIfMemory, Reads};
ghost use Rattle.imap_syntax.specs.Lexical.{is_atom_char};
ghost use Rattle.imap_syntax.specs.Atoms.{IsAtom, atom, atom_read};

use crate::cursor::Cursor;
use crate::error::ReadError;
use crate::lexical::AtomChar;
use crate::spelling::Spelling;
use crate::write_strings::is_bare;
use imap_lex::{Octets, leading};
use imap_values::{Same, TryCopy};
use std::alloc::{AllocError, Global};
use std::marker::Model;

/// A word of atom characters, one or more (RFC 9051, section 9, `atom`), as of a keyword.
///
/// A copy shares the octets.
#[derive(Drop)]
pub struct Atom(Octets);

impl Model for Atom {
    ghost use Rattle.std.specs.Prelude.{ℕ, List};
    ghost use Rattle.imap_syntax.specs.Atoms.{IsAtom};

    ghost Value = { List ℕ };

    ghost view = { λ a. a.0 };

    ghost invariant = { λ a. IsAtom a.0 };
}

impl Atom {
    /// Returns these octets as an atom, or `None` if they aren't one.
    pub fn read(alloc: Global, octets: &[u8]) -> Result<Option<Atom>, AllocError>
        ensures atom { IfOk result (λ atom. atom ≡ atom_read octets.now) }
        ensures err { OnErr result (IsAtom octets.now) }
    {
        if !is_atom(octets) {
            return Ok(None);
        }
        Ok(Some(Atom(Octets::from_slice(alloc, octets)?)))
    }

    /// Returns the atom of these octets.
    pub(crate) fn of(alloc: Global, octets: &[u8]) -> Result<Atom, AllocError>
        requires { IsAtom octets.now }
        ensures { IfOk result (λ atom. atom ≡ octets.now) }
    {
        Ok(Atom(Octets::from_slice(alloc, octets)?))
    }

    /// Returns the octets.
    pub fn as_slice(&self) -> &[u8]
        ensures octets { result.now ≡ self.now }
        ensures valid { IsAtom result.now }
    {
        self.0.as_slice()
    }

    /// Returns the atom with each ASCII letter in lower case.
    #[tactic(auto, using(crate::proofs::Atoms::lowered_atom))]
    pub fn lowered(&self, alloc: Global) -> Result<Atom, AllocError>
        ensures { IfOk result (λ lower. lower ≡ str_to_ascii_lowercase self.now) }
    {
        let lower = self.0.as_slice().to_ascii_lowercase(alloc)?;
        Ok(Atom(Octets::from_vec(lower)?))
    }

    /// Returns a copy, without copying the octets. It takes no memory from `alloc`.
    pub fn try_copy(&self, _alloc: Global) -> Result<Atom, AllocError>
        ensures copy { IfOk result (λ copy. copy ≡ self.now) }
        ensures valid { IsAtom self.now }
    {
        Ok(Atom(self.0.try_copy()?))
    }
}

impl TryCopy for Atom {
    fn try_copy(&self, alloc: Global) -> Result<Atom, AllocError> {
        self.try_copy(alloc)
    }
}

impl Same for Atom {
    fn is_same(&self, other: &Atom) -> bool {
        self.0.is_same(&other.0)
    }
}

/// An atom is written as it is.
impl Spelling for Atom {
    ghost use Rattle.imap_syntax.specs.Atoms.{atom};

    type Value = Atom;

    ghost writing = { atom };

    fn fits(word: &Atom) -> bool {
        let _ = word.as_slice();
        true
    }

    fn push(out: &mut Vec<u8>, word: &Atom) -> Result<(), AllocError> {
        out.extend_from_slice(word.as_slice())
    }
}

/// Whether the octets are an atom.
pub fn is_atom(octets: &[u8]) -> bool
    ensures { result ≡ atom.fits octets.now }
{
    is_bare::<AtomChar>(octets)
}

impl<'a> Cursor<'a> {
    /// Reads `atom`, without copying its octets.
    #[tactic(auto, using(crate::proofs::Atoms::lent_atom))]
    pub fn atom_octets(&mut self) -> Result<&'a [u8], ReadError>
        ensures octets { Reads (λ s. s.now) result self.new ((some_of is_atom_char).read self.old) }
        ensures valid { IfOk result (λ s. IsAtom s.now) }
    {
        self.front(leading::<AtomChar>(self.rest()))
    }

    /// Reads `atom`.
    pub fn atom(&mut self, alloc: Global) -> Result<Atom, ReadError>
        ensures { ReadsIfMemory (λ a. a) result self.new ((some_of is_atom_char).read self.old) }
    {
        Ok(Atom::of(alloc, self.atom_octets()?)?)
    }
}
