//! Why a script isn't run to its end.

use imap_hall::OpenError;
use std::alloc::{AllocError, AllocFailed};
use thiserror::Error;

/// Why a script didn't run to its end.
#[derive(Debug, Drop, Error)]
pub enum ScriptError {
    /// This is the first line that isn't as a script's lines are, counted from 1. Nothing was run.
    #[error("line {line}: bad script")]
    Bad { line: u64 },
    /// The input wasn't read to its end, the keeper refused at the start, or the output wasn't taken. What
    /// was written is a beginning of the transcript.
    #[error("input or output failed")]
    Io,
    /// Memory ran out. What was written is a beginning of the transcript.
    #[error("out of memory")]
    Memory,
}

impl From<AllocError> for ScriptError {
    fn from(_error: AllocError) -> ScriptError {
        ScriptError::Memory
    }
}

impl<T: Drop> From<AllocFailed<T>> for ScriptError {
    fn from(_error: AllocFailed<T>) -> ScriptError {
        ScriptError::Memory
    }
}

impl From<OpenError> for ScriptError {
    fn from(error: OpenError) -> ScriptError {
        match error {
            OpenError::Memory => ScriptError::Memory,
            OpenError::Store | OpenError::Damaged => ScriptError::Io,
        }
    }
}
