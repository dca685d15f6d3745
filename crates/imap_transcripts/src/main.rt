//! The program `imap_transcripts`: runs scripts whose transcripts are known, over a keeper in memory and over a
//! database.
//!
//! Standard input has scripts, each after a line `== NAME`. Standard output gets the same lines, and
//! after each the script's transcript, and why the script wasn't run to its end if it wasn't. If the
//! transcript over a database is another one, it follows. The files `stdin` and `stdout` of this crate are
//! scripts and the transcripts that they are to have.
//!
//! Lines `-- TEXT` are no part of a script. `-- stop at each call` runs the script once for each call of
//! each of the database's two files, from the first on if there are no mailboxes yet: this call fails, and all later
//! ones. A line says what was left. `-- stop at each call from the first version` does the same over the database that
//! the script leaves, with the tables of the first version. `-- as USER in NAME` compares what that user's sessions were sent with the run of
//! an earlier script, and a line says whether it is equal. Lines `-- octets HEX` and `-- zeros COUNT` are, one after
//! another, the octets of the file of a database: the script runs over the mailboxes that this keeps, and those of its
//! own lines don't count. Any other TEXT is SQL that runs in a copy of the database at the end, or of the one whose
//! octets are given. A line says what can be loaded then.
#![tactic(auto)]

use imap_trials::write_transcripts;
use std::process::ExitCode;

const FAILED: u8 = 1;

fn main(rt: HostRuntime) -> ExitCode {
    match write_transcripts(&rt, rt.stdin(), rt.stdout()) {
        Ok(()) => ExitCode::SUCCESS,
        Err(error) => {
            let _ = eprintln!(rt; "imap_transcripts: {error}");
            ExitCode::from(FAILED)
        }
    }
}
