//! How a session over a connection ends.

ghost use Rattle.std.specs.Prelude.{◌≡◌};

use std::alloc::AllocError;
use thiserror::Error;

/// How a session ended.
#[derive(Clone, Copy, Debug, PartialEq, Eq)]
pub enum End {
    /// The session was closed by a BYE.
    Closed,
    /// The input came to its end.
    InputEnded,
    /// Nothing came for too long.
    Idle,
}

/// Why a session broke off.
#[derive(Clone, Copy, Debug, Error, PartialEq, Eq)]
pub enum ServeError {
    #[error("out of memory")]
    Memory,
    #[error("the reader failed")]
    Read,
    #[error("the writer failed")]
    Write,
    /// The room can make no more steps.
    #[error("the journal is at its end")]
    Exhausted,
}

impl From<AllocError> for ServeError {
    ghost use Rattle.imap_serve.specs.declared.error.ServeError.TheVariants as error;

    ghost from_gives = { λ _ e. e ≡ error.Memory };

    fn from(_error: AllocError) -> ServeError {
        ServeError::Memory
    }
}
