//! Folders of messages, read into the mailboxes of a store.

use crate::dumping::{report_maildir_error, status_of};
use imap_maildir::{Loaded, MaildirError};
use imap_service::{ServiceError, report_service_error};
use std::process::ExitCode;

/// Prints how many messages of the folder were added, or tells standard error why they weren't, or why the store wasn't
/// `closed`. Returns the exit status.
pub(crate) fn report_load<R: Print + Eprint>(
    rt: &R,
    folder: &str,
    ended: Result<Loaded, MaildirError>,
    closed: Result<(), ServiceError>,
) -> ExitCode {
    let Loaded {
        mailboxes,
        added,
        met,
        faults,
    } = match ended {
        Ok(loaded) => loaded,
        Err(error) => return report_maildir_error(rt, error),
    };
    if let Err(error) = closed {
        return report_service_error(rt, error);
    }
    match println!(rt;
        "{folder}: {mailboxes} mailboxes, {added} messages added, {met} were there"
    ) {
        Ok(()) => status_of(faults),
        Err(_) => report_service_error(rt, ServiceError::Output),
    }
}
