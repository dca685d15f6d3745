//! What a store holds, or why it can't be used.

use imap_keeper::KeepError;
use imap_maildir::KeptMailboxes;
use imap_service::{ServiceError, StoreFault, count_messages, report_service_error};
use imap_sql_keeper::{Finding, SqlKeeper};
use imap_world::World;
use sqlite::Alter;
use std::alloc::Global;
use std::process::ExitCode;

/// Why a store can't be used, and of what its damaged row is.
pub(crate) type Fault = (ServiceError, Option<Finding>);

/// Prints how much the store in the file holds.
pub(crate) fn report_store<R: Print + Eprint>(rt: &R, path: &str, world: &World) -> ExitCode {
    let mailboxes = world.mailboxes().len();
    let messages = count_messages(world);
    match println!(rt; "{path}: {mailboxes} mailboxes, {messages} messages") {
        Ok(()) => ExitCode::SUCCESS,
        Err(_) => report_service_error(rt, ServiceError::Output),
    }
}

/// Tells standard error why a store can't be used. Returns the exit status.
pub(crate) fn report_fault(rt: &impl Eprint, fault: Fault) -> ExitCode {
    let (error, found) = fault;
    let status = report_service_error(rt, error);
    if let Some(finding) = found {
        report_finding(rt, &finding);
    }
    status
}

/// Loads the mailboxes that the keeper keeps.
pub(crate) fn load<S: Alter + Drop>(
    alloc: Global,
    keeper: SqlKeeper<S>,
) -> Result<KeptMailboxes<SqlKeeper<S>>, Fault> {
    match KeptMailboxes::load(alloc, keeper) {
        Ok(kept) => Ok(kept),
        Err((keeper, KeepError::Damaged)) => Err(with_row(keeper.into_finding(alloc))),
        Err((keeper, error)) => {
            drop(keeper);
            Err((ServiceError::from(error), None))
        }
    }
}

fn with_row(found: Option<Finding>) -> Fault {
    let damage = match &found {
        Some(finding) => Some(finding.damage),
        None => None,
    };
    let error = ServiceError::Store(StoreFault::Damaged).with_row(damage);
    (error, found)
}

/// Says of what the row is, and what goes with it.
fn report_finding(rt: &impl Eprint, finding: &Finding) {
    let loss = loss_of(finding.damage.table);
    let _said = match (&finding.mailbox, finding.uid) {
        (Some((tree, path)), Some(uid)) => eprintln!(rt;
            "imapd: it is of the message with UID {uid} in mailbox {path:?}, tree {tree:?}; without it {loss}"
        ),
        (Some((tree, path)), None) => eprintln!(rt;
            "imapd: it is of mailbox {path:?}, tree {tree:?}; without it {loss}"
        ),
        (None, _) => eprintln!(rt; "imapd: no mailbox is known of it; without it {loss}"),
    };
}

/// Says what is lost with a row of this table.
fn loss_of(table: &str) -> &'static str {
    match table {
        "acl" => "an identifier has no rights on the mailbox",
        "body" | "message" | "message2" => "the message is lost",
        "epoch" => "a UIDVALIDITY may be used again",
        "gone" => "clients that were away aren't told that the message went",
        "keyword" => "the message has a keyword less",
        "mailbox" => "the mailbox is lost, with its messages",
        "mark" => "a change of a user's \\Seen flag is lost",
        "meta" => "the store has no version",
        "sub" => "a subscription is lost",
        _ => "nothing is lost",
    }
}
