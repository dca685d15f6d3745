//! How the program ends: its exit statuses, and what standard error is told. A reader of standard error that is behind for
//! over a second is told nothing: the program ends.

use crate::service_error::ServiceError;
use crate::standard_error::takes_last_lines;
use imap_options::{CommandLineError, VERSION};
use std::fmt::Display;
use std::process::ExitCode;

const MISUSED: u8 = 2;

const BROKEN_STREAM: u8 = 3;

const OUT_OF_MEMORY: u8 = 4;

const NO_STORE: u8 = 5;

/// Prints the program's version. Returns the exit status: 0, or 3 if standard output failed.
pub fn report_version(rt: &impl Print) -> ExitCode {
    match println!(rt; "imapd {VERSION}") {
        Ok(()) => ExitCode::SUCCESS,
        Err(_) => ExitCode::from(BROKEN_STREAM),
    }
}

/// Tells standard error, as far as it takes it, why the command line wasn't read. Returns the exit status: 4 for
/// want of memory, else 2.
pub fn report_misuse(rt: &impl Eprint, error: &CommandLineError) -> ExitCode {
    let status = match error {
        CommandLineError::Memory => OUT_OF_MEMORY,
        _ => MISUSED,
    };
    if takes_last_lines() {
        let _ = rt.eprint(error);
    }
    ExitCode::from(status)
}

/// Tells standard error, as far as it takes it, which file or folder can't be used, and why. Returns the exit status 3.
pub fn report_file_fault<E: Display>(rt: &impl Eprint, fault: &E) -> ExitCode {
    if takes_last_lines() {
        let _ = eprintln!(rt; "imapd: {fault}");
    }
    ExitCode::from(BROKEN_STREAM)
}

/// Tells standard error, as far as it takes it, why serving ended: in words after the line that each exit status has.
/// Returns the exit status: 3 if a port or a socket file can't be had, too few files may be open, no connection comes any more or
/// standard output failed, 4 for want of memory, and 5 if the store can't be used.
pub fn report_service_error(rt: &impl Eprint, error: ServiceError) -> ExitCode {
    match error {
        ServiceError::Output
        | ServiceError::NoConnection
        | ServiceError::Port { .. }
        | ServiceError::SocketFile { .. }
        | ServiceError::Descriptors { .. } => {
            if takes_last_lines() {
                let _ = eprintln!(rt; "imapd: {error}");
            }
            ExitCode::from(BROKEN_STREAM)
        }
        ServiceError::Memory => {
            if takes_last_lines() {
                let _ = eprintln!(rt; "imapd: out of memory");
            }
            ExitCode::from(OUT_OF_MEMORY)
        }
        ServiceError::Store(fault) => report_store_fault(rt, &fault),
    }
}

/// Tells standard error, as far as it takes it, why the store can't be used: in words after the line that says so.
/// Returns the exit status 5.
pub fn report_store_fault<E: Display>(rt: &impl Eprint, fault: &E) -> ExitCode {
    if takes_last_lines() {
        let _ = eprintln!(rt; "imapd: store unusable\nimapd: {fault}");
    }
    ExitCode::from(NO_STORE)
}
