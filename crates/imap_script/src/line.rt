//! The errors of a script's lines.

use crate::error::ScriptError;
use hex::FromHexError;
use imap_names::NameError;
use imap_rights::{AclError, IdentifierError};
use imap_world::WorldError;
use std::alloc::{AllocError, AllocFailed};

/// Why a line of a script was not taken.
#[derive(Clone, Copy)]
pub(crate) enum LineError {
    /// It is no line of a script, or can't stand where it stands.
    Bad,
    Memory,
}

impl LineError {
    /// Returns the script's error after this error in the line of the number `line`.
    pub(crate) fn at(self, line: u64) -> ScriptError {
        match self {
            LineError::Bad => ScriptError::Bad { line },
            LineError::Memory => ScriptError::Memory,
        }
    }
}

impl From<AllocError> for LineError {
    fn from(_error: AllocError) -> LineError {
        LineError::Memory
    }
}

impl<T: Drop> From<AllocFailed<T>> for LineError {
    fn from(_error: AllocFailed<T>) -> LineError {
        LineError::Memory
    }
}

impl From<NameError> for LineError {
    fn from(error: NameError) -> LineError {
        match error {
            NameError::Memory => LineError::Memory,
            _ => LineError::Bad,
        }
    }
}

impl From<IdentifierError> for LineError {
    fn from(error: IdentifierError) -> LineError {
        match error {
            IdentifierError::Memory => LineError::Memory,
            IdentifierError::Invalid => LineError::Bad,
        }
    }
}

impl From<AclError> for LineError {
    fn from(error: AclError) -> LineError {
        match error {
            AclError::Memory => LineError::Memory,
            AclError::Full => LineError::Bad,
        }
    }
}

impl From<WorldError> for LineError {
    fn from(error: WorldError) -> LineError {
        match error {
            WorldError::Memory => LineError::Memory,
            _ => LineError::Bad,
        }
    }
}

impl From<FromHexError> for LineError {
    fn from(error: FromHexError) -> LineError {
        match error {
            FromHexError::OutOfMemory => LineError::Memory,
            _ => LineError::Bad,
        }
    }
}
