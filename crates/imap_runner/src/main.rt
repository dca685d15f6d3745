//! The program `imap_runner`: runs a script over mailboxes in memory, as `imapd script` does.
//!
//! Without a store and a server it is read and built in less than half of the time. It reads the script from standard input
//! and writes its transcript to standard output.
#![tactic(auto)]

use imap_script::script;
use std::process::ExitCode;

const FAILED: u8 = 1;

fn main(rt: HostRuntime) -> ExitCode {
    match script(&rt, rt.stdin(), rt.stdout()) {
        Ok(()) => ExitCode::SUCCESS,
        Err(error) => {
            let _ = eprintln!(rt; "imap_runner: {error}");
            ExitCode::from(FAILED)
        }
    }
}
