//! The mailboxes of a store, written as folders of messages.

use imap_maildir::{Dumped, MaildirError};
use imap_service::{ServiceError, StoreFault, report_file_fault, report_service_error};
use std::process::ExitCode;

/// Prints how many mailboxes were written below the folder, or tells standard error why they weren't. Returns the exit
/// status.
pub(crate) fn report_dump<R: Print + Eprint>(
    rt: &R,
    folder: &str,
    ended: Result<Dumped, MaildirError>,
) -> ExitCode {
    match ended {
        Ok(
            Dumped {
                mailboxes,
                messages,
                faults,
            },
        ) => match println!(rt; "{folder}: {mailboxes} mailboxes, {messages} messages") {
            Ok(()) => status_of(faults),
            Err(_) => report_service_error(rt, ServiceError::Output),
        },
        Err(error) => report_maildir_error(rt, error),
    }
}

/// Returns the exit status of a task that passed over so many files and folders.
pub(crate) fn status_of(faults: u64) -> ExitCode {
    if faults == 0 {
        ExitCode::SUCCESS
    } else {
        ExitCode::from(3)
    }
}

/// Tells standard error why mailboxes weren't written or read. Returns the exit status.
pub(crate) fn report_maildir_error(rt: &impl Eprint, error: MaildirError) -> ExitCode {
    match error {
        MaildirError::Memory => report_service_error(rt, ServiceError::Memory),
        MaildirError::Refused => report_service_error(rt, ServiceError::Store(StoreFault::Refused)),
        error => report_file_fault(rt, &error),
    }
}
