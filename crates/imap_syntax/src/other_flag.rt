//! Flags with a backslash that have no meaning of their own (RFC 9051, section 9, `flag-extension`).

ghost use Rattle.std.specs.Prelude.{◌≡◌, IfOk, OnErr};
ghost use Rattle.imap_syntax.specs.SystemFlags.{IsOtherFlag, other_fits, other_read};

use crate::atom::{Atom, is_atom};
use crate::system_flag::is_other;
use imap_values::{Same, TryCopy};
use std::alloc::{AllocError, Global};
use std::marker::Model;

/// The word after the backslash of a flag: an atom that is none of the five flags of RFC 9051, section 2.3.2,
/// in any ASCII case.
///
/// A copy shares the octets.
#[derive(Drop)]
pub struct OtherFlag(Atom);

impl Model for OtherFlag {
    ghost use Rattle.std.specs.Prelude.{ℕ, List};
    ghost use Rattle.imap_syntax.specs.SystemFlags.{IsOtherFlag};

    ghost Value = { List ℕ };

    ghost view = { λ f. f.0 };

    ghost invariant = { λ f. IsOtherFlag f.0 };
}

impl OtherFlag {
    /// Returns this word as the word of a flag, or `None` if it is no atom or one of the five.
    pub fn read(alloc: Global, word: &[u8]) -> Result<Option<OtherFlag>, AllocError>
        ensures flag { IfOk result (λ flag. flag ≡ other_read word.now) }
        ensures err { OnErr result (IsOtherFlag word.now) }
    {
        if !other_fits(word) {
            return Ok(None);
        }
        Ok(Some(OtherFlag::of(alloc, word)?))
    }

    /// Returns the word of a flag.
    pub(crate) fn of(alloc: Global, word: &[u8]) -> Result<OtherFlag, AllocError>
        requires { IsOtherFlag word.now }
        ensures { IfOk result (λ flag. flag ≡ word.now) }
    {
        Ok(OtherFlag(Atom::of(alloc, word)?))
    }

    /// Returns the octets of the word, without the backslash.
    pub fn as_slice(&self) -> &[u8]
        ensures octets { result.now ≡ self.now }
        ensures valid { IsOtherFlag result.now }
    {
        self.0.as_slice()
    }

    /// Returns a copy, without copying the octets. It takes no memory from `alloc`.
    pub fn try_copy(&self, alloc: Global) -> Result<OtherFlag, AllocError>
        ensures copy { IfOk result (λ copy. copy ≡ self.now) }
        ensures valid { IsOtherFlag self.now }
    {
        Ok(OtherFlag(self.0.try_copy(alloc)?))
    }
}

impl TryCopy for OtherFlag {
    fn try_copy(&self, alloc: Global) -> Result<OtherFlag, AllocError> {
        self.try_copy(alloc)
    }
}

impl Same for OtherFlag {
    fn is_same(&self, other: &OtherFlag) -> bool {
        self.0.is_same(&other.0)
    }
}

/// Whether the word is an atom and none of the five.
fn other_fits(word: &[u8]) -> bool
    ensures { result ≡ other_fits word.now }
{
    is_atom(word) && is_other(word)
}
