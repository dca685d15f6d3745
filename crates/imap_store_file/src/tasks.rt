//! Tasks over a store that nobody is served from.

use crate::checking::{load, report_fault, report_store};
use crate::dumping::report_dump;
use crate::loading::report_load;
use crate::pair::{real_path, report_fault_at};
use crate::store::{close, open};
use crate::told_progress::ToldProgress;
use crate::unchanged::{Unchanged, open_unchanged};
use imap_maildir::{Layout, Loaded, MaildirError, dump};
use imap_names::UserName;
use imap_options::{LayoutName, LogLevel};
use imap_service::{ServiceError, StoreFault, remove_made, report_service_error};
use imap_sql_keeper::SqlKeeper;
use sqlite::{Alter, Connection, FileStore};
use sqlite_disk::Disk;
use std::fs;
use std::io::ErrorKind;
use std::process::ExitCode;
use std::rt::Files;

/// A task of the program over a store that nobody is served from.
#[derive(Clone, Copy)]
pub enum StoreTask<'a> {
    /// Prints how much the store holds.
    Check,
    /// Writes its mailboxes as folders of messages below this folder, which is made. Prints how many there are.
    Dump(&'a str),
    /// Adds the messages in a folder to its mailboxes, as this administrator. Prints how many there are. What was added
    /// stays if the task fails later.
    Load(&'a str, &'a UserName, LayoutName),
}

/// Does the task over the store in the file, which `Load` alone makes if it is missing. If the store can't be used, tells
/// standard error why, as where it is to be served, and of what the damaged row is. Returns the exit
/// status: 0, 3 if a file or a folder can't be made or read or standard output failed, 4 for want of memory, and 5 if the
/// store can't be used.
pub fn perform(rt: &HostRuntime, path: &str, task: StoreTask<'_>) -> ExitCode {
    let real = match real_path(rt, path) {
        Ok(real) => real,
        Err(error) => return report_service_error(rt, error),
    };
    match perform_at(rt, path, real.as_str(), task) {
        Ok(status) => status,
        Err(error) => report_fault_at(rt, real.as_str(), error),
    }
}

/// Does the task over the store whose file, named `path`, lies at `real`.
fn perform_at(
    rt: &HostRuntime,
    path: &str,
    real: &str,
    task: StoreTask<'_>,
) -> Result<ExitCode, ServiceError> {
    let progress = ToldProgress::new(rt, &rt.stderr());
    let (keeper, made) = match task {
        StoreTask::Load(..) => (open(rt, real, LogLevel::Errors)?, None),
        StoreTask::Check | StoreTask::Dump(_) => {
            present(rt, real)?;
            match open_unchanged(rt, real, LogLevel::Errors)? {
                Unchanged::InFile(keeper, made) => (keeper, Some(made)),
                Unchanged::InMemory(keeper) => {
                    return Ok(perform_over(rt, path, keeper, task, progress));
                }
            }
        }
    };
    let status = perform_over(rt, path, keeper, task, progress);
    match made {
        Some(made) => remove_made(rt, real, made)?,
        None => {}
    }
    Ok(status)
}

/// Fails if the file isn't there: `open` would make it.
fn present(rt: &impl Files, path: &str) -> Result<(), ServiceError> {
    match fs::metadata(rt, path) {
        Ok(_) => Ok(()),
        Err(error) => Err(match error.kind() {
            ErrorKind::NotFound => ServiceError::Store(StoreFault::Missing),
            ErrorKind::OutOfMemory => ServiceError::Memory,
            _ => ServiceError::Store(StoreFault::CannotOpen),
        }),
    }
}

fn layout_of(name: LayoutName) -> Layout {
    match name {
        LayoutName::Recognised => Layout::Recognised,
        LayoutName::Dump => Layout::Dump,
        LayoutName::Maildirpp => Layout::Maildirpp,
    }
}

/// What came of a task.
enum Performed<'a, S: Alter> {
    /// The exit status.
    Ended(ExitCode),
    /// A folder, how its messages were added, and the database, which is to be closed.
    Loaded(&'a str, Result<Loaded, MaildirError>, Connection<S>),
}

/// Does the task over what the keeper keeps, and ends it. It takes any file, since the proof over a file of the system is
/// long, and hands the keeper once to a function that takes any store.
fn perform_over<R: Files + Print + Eprint + AllocGlobal + Clone + Drop, D: Disk + Drop>(
    rt: &R,
    path: &str,
    keeper: SqlKeeper<FileStore<D>>,
    task: StoreTask<'_>,
    progress: ToldProgress<'_, R>,
) -> ExitCode {
    match perform_in(rt, path, keeper, task, progress) {
        Performed::Ended(status) => status,
        Performed::Loaded(folder, ended, conn) => report_load(rt, folder, ended, close(conn)),
    }
}

/// Does the task over what the keeper keeps, and lets go of the database but after a load.
fn perform_in<'a, R: Files + Print + Eprint + AllocGlobal + Clone + Drop, S: Alter + Drop>(
    rt: &R,
    path: &str,
    keeper: SqlKeeper<S>,
    task: StoreTask<'a>,
    mut progress: ToldProgress<'_, R>,
) -> Performed<'a, S> {
    let mut kept = match load(rt.alloc(), keeper) {
        Ok(kept) => kept,
        Err(fault) => return Performed::Ended(report_fault(rt, fault)),
    };
    match task {
        StoreTask::Check => {
            let status = report_store(rt, path, kept.world());
            drop(kept);
            Performed::Ended(status)
        }
        StoreTask::Dump(folder) => {
            let ended = dump(rt, kept.world(), folder, &mut progress);
            progress.end();
            let status = report_dump(rt, folder, ended);
            drop(kept);
            Performed::Ended(status)
        }
        StoreTask::Load(folder, administrator, name) => {
            let layout = layout_of(name);
            let ended = imap_maildir::load(
                rt,
                &mut kept,
                administrator,
                folder,
                layout,
                &mut progress,
            );
            progress.end();
            Performed::Loaded(folder, ended, kept.into_keeper().release())
        }
    }
}
