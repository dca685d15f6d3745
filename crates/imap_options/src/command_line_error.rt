//! Why a command line isn't read.

use clap::error::ErrorKind;
use std::alloc::{AllocError, AllocFailed, Global};
use thiserror::Error;

/// Why a command line isn't read as a task. The texts end with a line end.
#[derive(Debug, Drop, Error)]
pub enum CommandLineError {
    /// The parser's own text: what it found wrong, or the help that was asked for.
    #[error("{0}")]
    Usage(clap::Error),
    #[error("imapd: bad command line\nimapd: the words of the command line can't be read\n")]
    Unreadable,
    #[error("imapd: bad command line\nimapd: a subcommand is wanted: serve, check, dump, load or script\n")]
    NoSubcommand,
    /// The value of an option isn't valid.
    #[error("imapd: bad command line\nimapd: --{option} {value}: {reason}\n")]
    Value {
        option: &'static str,
        value: String,
        reason: &'static str,
    },
    /// A line of a configuration file isn't valid.
    #[error("imapd: bad command line\nimapd: {file}, line {line}: {text}: {reason}\n")]
    Line {
        file: String,
        line: usize,
        text: String,
        reason: &'static str,
    },
    #[error("imapd: out of memory\n")]
    Memory,
}

impl CommandLineError {
    /// Why the value of an option isn't valid.
    pub(crate) fn of_value(
        alloc: Global,
        option: &'static str,
        value: &str,
        reason: &'static str,
    ) -> CommandLineError {
        match String::from_str(alloc, value) {
            Ok(value) => CommandLineError::Value {
                option,
                value,
                reason,
            },
            Err(_) => CommandLineError::Memory,
        }
    }
}

impl From<AllocError> for CommandLineError {
    fn from(_error: AllocError) -> CommandLineError {
        CommandLineError::Memory
    }
}

impl<T: Drop> From<AllocFailed<T>> for CommandLineError {
    fn from(_error: AllocFailed<T>) -> CommandLineError {
        CommandLineError::Memory
    }
}

impl From<clap::Error> for CommandLineError {
    fn from(error: clap::Error) -> CommandLineError {
        match error.kind() {
            ErrorKind::OutOfMemory => CommandLineError::Memory,
            _ => CommandLineError::Usage(error),
        }
    }
}
