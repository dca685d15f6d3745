//! Flags (RFC 9051, section 9, `flag`).

ghost use Rattle.std.specs.Prelude.{◌≡◌, IfOk};
ghost use Rattle.imap_syntax.specs.Reading.{ReadsIfMemory};
ghost use Rattle.imap_syntax.specs.Atoms.{IsAtom};
ghost use Rattle.imap_syntax.specs.Flags.{system_flag, flag_of, message_flag};

use crate::atom::Atom;
use crate::cursor::{Cursor, Item, word_of};
use crate::error::ReadError;
use crate::items::Items;
use crate::other_flag::OtherFlag;
use crate::system_flag::SystemFlag;
use imap_values::{Same, TryCopy};
use std::alloc::{AllocError, Global};

/// A flag of a command. The five of RFC 9051, section 2.3.2 are read in any case.
pub enum Flag {
    Answered,
    Deleted,
    Draft,
    Flagged,
    Seen,
    /// Another word after a backslash.
    Other(OtherFlag),
    Keyword(Atom),
}

// Not derived: a derived one is proved anew in each crate that lets go of one.
impl Drop for Flag {
    fn drop(self) {
        match self {
            Flag::Other(value) => drop(value),
            Flag::Keyword(value) => drop(value),
            Flag::Answered | Flag::Deleted | Flag::Draft | Flag::Flagged | Flag::Seen => {}
        }
    }
}

/// Flags in the order of the command.
pub type Flags = Items<Flag>;

impl TryCopy for Flag {
    fn try_copy(&self, alloc: Global) -> Result<Flag, AllocError> {
        match self {
            Flag::Answered => Ok(Flag::Answered),
            Flag::Deleted => Ok(Flag::Deleted),
            Flag::Draft => Ok(Flag::Draft),
            Flag::Flagged => Ok(Flag::Flagged),
            Flag::Seen => Ok(Flag::Seen),
            Flag::Other(word) => Ok(Flag::Other(word.try_copy(alloc)?)),
            Flag::Keyword(word) => Ok(Flag::Keyword(word.try_copy(alloc)?)),
        }
    }
}

impl Same for Flag {
    fn is_same(&self, other: &Flag) -> bool {
        match (self, other) {
            (Flag::Answered, Flag::Answered)
            | (Flag::Deleted, Flag::Deleted)
            | (Flag::Draft, Flag::Draft)
            | (Flag::Flagged, Flag::Flagged)
            | (Flag::Seen, Flag::Seen) => true,
            (Flag::Other(word), Flag::Other(other)) => word.is_same(other),
            (Flag::Keyword(word), Flag::Keyword(other)) => word.is_same(other),
            _ => false,
        }
    }
}

impl SystemFlag {
    fn flag(self) -> Flag
        ensures { result ≡ system_flag self }
    {
        match self {
            SystemFlag::Answered => Flag::Answered,
            SystemFlag::Deleted => Flag::Deleted,
            SystemFlag::Draft => Flag::Draft,
            SystemFlag::Flagged => Flag::Flagged,
            SystemFlag::Seen => Flag::Seen,
        }
    }
}

fn flag_of(alloc: Global, backslash: bool, word: &[u8]) -> Result<Flag, AllocError>
    requires { IsAtom word.now }
    ensures { IfOk result (λ flag. flag ≡ flag_of backslash word.now) }
{
    if !backslash {
        return Ok(Flag::Keyword(Atom::of(alloc, word)?));
    }
    match word_of::<SystemFlag>(word) {
        Some(known) => Ok(known.flag()),
        None => Ok(Flag::Other(OtherFlag::of(alloc, word)?)),
    }
}

impl Item for Flag {
    ghost use Rattle.imap_syntax.specs.Flags.{message_flag};

    type Read = Flag;

    ghost item_read = { message_flag.read };

    fn item(cursor: &mut Cursor<'_>, alloc: Global) -> Result<Flag, ReadError> {
        cursor.flag(alloc)
    }
}

impl Cursor<'_> {
    pub(crate) fn flag(&mut self, alloc: Global) -> Result<Flag, ReadError>
        ensures { ReadsIfMemory (λ f. f) result self.new (message_flag.read self.old) }
    {
        let backslash = self.has(b'\\');
        let word = self.atom_octets()?;
        Ok(flag_of(alloc, backslash, word)?)
    }
}
