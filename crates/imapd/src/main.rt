//! The program `imapd`: an IMAP server for shared mailboxes.
//!
//! `imapd serve` serves users over TCP. `imapd check` says whether a store is sound, `imapd dump` writes its mailboxes as
//! folders of messages, and `imapd load` reads such folders. `imapd script` reads a script from standard input, runs it on
//! the server's machine, and writes what each session was told to standard output.
#![tactic(auto)]

use imap_host::PARTS;
use imap_options::{Task, read_command_line};
use imap_script::{report_script_error, script};
use imap_service::{report_misuse, report_version};
use imap_store_file::{StoreTask, perform, serve};
use std::marker::Brand;
use std::process::ExitCode;
use std::sync::ledger::Blank;
use std::time::Instant;

fn main(rt: HostRuntime) -> ExitCode {
    let since = Instant::now(&rt).ok();
    match read_command_line(&rt) {
        Ok(Task::Check(database)) => perform(&rt, database.as_str(), StoreTask::Check),
        Ok(Task::Dump { database, folder }) => {
            perform(&rt, database.as_str(), StoreTask::Dump(folder.as_str()))
        }
        Ok(
            Task::Load {
                database,
                folder,
                administrator,
                layout,
            },
        ) => perform(
            &rt,
            database.as_str(),
            StoreTask::Load(folder.as_str(), &administrator, layout),
        ),
        Ok(Task::Script) => match script(&rt, rt.stdin(), rt.stdout()) {
            Ok(()) => ExitCode::SUCCESS,
            Err(error) => report_script_error(&rt, &error),
        },
        Ok(Task::Version) => report_version(&rt),
        Ok(Task::Serve { database, service }) => {
            let blank = Blank::new(PARTS);
            serve::<Brand, HostRuntime>(&rt, &rt, &database, service, since, blank)
        }
        Err(error) => report_misuse(&rt, &error),
    }
}
