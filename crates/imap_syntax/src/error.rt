//! Why a value was not read.

use std::alloc::{AllocError, AllocFailed};

/// Why a value was not read.
#[derive(Clone, Copy)]
pub enum ReadError {
    /// Memory ran out.
    Memory,
    /// The octets are not what was to be read.
    Syntax,
}

impl From<AllocError> for ReadError {
    ghost use Rattle.std.specs.Prelude.{◌≡◌};
    ghost use Rattle.imap_syntax.specs.declared.error.ReadError.TheVariants.{Memory};

    ghost from_gives = { λ _ error. error ≡ Memory };

    fn from(_error: AllocError) -> ReadError {
        ReadError::Memory
    }
}

impl<T: Drop> From<AllocFailed<T>> for ReadError {
    ghost use Rattle.std.specs.Prelude.{◌≡◌};
    ghost use Rattle.imap_syntax.specs.declared.error.ReadError.TheVariants.{Memory};

    ghost from_gives = { λ _ error. error ≡ Memory };

    fn from(_error: AllocFailed<T>) -> ReadError {
        ReadError::Memory
    }
}
