//! The flags with a meaning of their own (RFC 9051, section 2.3.2).

ghost use Rattle.std.specs.Prelude.{◌≡◌};
ghost use Rattle.imap_syntax.specs.SystemFlags.{is_other};

use crate::cursor::{Keyword, word_of};
use crate::lexical::AtomChar;

/// The flags of RFC 9051, section 2.3.2.
#[derive(Clone, Copy)]
pub(crate) enum SystemFlag {
    Answered,
    Deleted,
    Draft,
    Flagged,
    Seen,
}

pub(crate) const SYSTEM_FLAGS: [SystemFlag; 5] = [
    SystemFlag::Answered,
    SystemFlag::Deleted,
    SystemFlag::Draft,
    SystemFlag::Flagged,
    SystemFlag::Seen,
];

impl Keyword for SystemFlag {
    ghost use Rattle.imap_syntax.specs.SystemFlags.{flag_name};
    ghost use Rattle.imap_syntax.specs.declared.system_flag.TheConstants.{SYSTEM_FLAGS};

    type Class = AtomChar;

    ghost name_of = { flag_name };

    ghost table = { SYSTEM_FLAGS };

    fn name(self) -> &'static [u8] {
        match self {
            SystemFlag::Answered => b"ANSWERED",
            SystemFlag::Deleted => b"DELETED",
            SystemFlag::Draft => b"DRAFT",
            SystemFlag::Flagged => b"FLAGGED",
            SystemFlag::Seen => b"SEEN",
        }
    }

    fn all() -> &'static [SystemFlag] {
        &SYSTEM_FLAGS
    }
}

/// Whether the word, after a backslash, is none of these flags, in any ASCII case.
pub(crate) fn is_other(word: &[u8]) -> bool
    ensures { result ≡ is_other word.now }
{
    word_of::<SystemFlag>(word).is_none()
}
