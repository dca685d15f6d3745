//! How a program that runs a script ends.

use crate::error::ScriptError;
use std::process::ExitCode;

const BAD_SCRIPT: u8 = 2;

const BROKEN_STREAM: u8 = 3;

const OUT_OF_MEMORY: u8 = 4;

/// Tells standard error, as far as it takes it, why the script didn't run to its end. Returns the exit status: 2 for
/// a bad script, 3 for an input or output that failed, which standard error isn't told, and 4 for want of memory.
pub fn report_script_error(rt: &impl Eprint, error: &ScriptError) -> ExitCode {
    let status = match error {
        ScriptError::Bad { .. } => BAD_SCRIPT,
        ScriptError::Io => return ExitCode::from(BROKEN_STREAM),
        ScriptError::Memory => OUT_OF_MEMORY,
    };
    let _ = eprintln!(rt; "imapd: {error}");
    ExitCode::from(status)
}
