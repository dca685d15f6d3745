//! Serving users from the store in a file.

ghost use Rattle.std.specs.Prelude.{◌≡◌};

use crate::pair::{real_path, report_fault_at};
use crate::store::{FileKeeper, end, open};
use imap_options::{LogLevel, Service};
use imap_service::{ServiceError, report_service_error, run};
use imap_sql_keeper::SqlKeeper;
use sqlite::Alter;
use std::net::{Net, TcpListener, TcpStream};
use std::process::ExitCode;
use std::rt::{Clock, Files};
use std::sync::Wait;
use std::sync::ledger::{Blank, Ledger};
use std::thread::Threads;
use std::time::Instant;

/// Serves the users of `service` from the store in the file, which is made if it is missing, until no connection comes any
/// more. `since` is when the program was started. Tells standard error why serving ended or didn't begin, and returns
/// the exit status. `threads` and `files` are the program's one runtime: threads are its `main`'s to give. No number of
/// a ledger can be picked for a call that takes a `&str`, hence the `String`.
pub fn serve<
    L: Ledger + Send + Sync,
    R: Net<Listener = TcpListener, Stream = TcpStream>
        + Threads
        + Wait
        + Clock
        + Print
        + Eprint
        + Files
        + AllocGlobal
        + Sync,
>(
    threads: &R,
    files: &HostRuntime,
    path: &String,
    service: Service,
    since: Option<Instant>,
    blank: Blank,
) -> ExitCode
    requires name { blank.name ≡ L.name }
    requires parts { (blank.parts ≡ L.parts) × (blank.parts ≡ 1048576) }
{
    match open_at(files, path.as_str(), service.log) {
        Ok(keeper) => {
            let error = serve_from::<_, L, R>(threads, keeper, service, since, blank);
            report_service_error(files, error)
        }
        Err(status) => {
            drop(service);
            status
        }
    }
}

/// Opens the store in the file. If it can't be used, tells standard error why, and returns the exit status.
fn open_at(rt: &HostRuntime, path: &str, level: LogLevel) -> Result<FileKeeper, ExitCode> {
    let real = match real_path(rt, path) {
        Ok(real) => real,
        Err(error) => return Err(report_service_error(rt, error)),
    };
    match open(rt, real.as_str(), level) {
        Ok(keeper) => Ok(keeper),
        Err(error) => Err(report_fault_at(rt, real.as_str(), error)),
    }
}

/// Serves the users of `service` from what the keeper keeps, and ends it. Returns why serving ended or didn't begin.
fn serve_from<
    S: Alter + Drop + Send,
    L: Ledger + Send + Sync,
    R: Net<Listener = TcpListener, Stream = TcpStream>
        + Threads
        + Wait
        + Clock
        + Print
        + Eprint
        + Files
        + AllocGlobal
        + Sync,
>(
    threads: &R,
    keeper: SqlKeeper<S>,
    service: Service,
    since: Option<Instant>,
    blank: Blank,
) -> ServiceError
    requires name { blank.name ≡ L.name }
    requires parts { (blank.parts ≡ L.parts) × (blank.parts ≡ 1048576) }
{
    let (keeper, error) = run::<SqlKeeper<S>, L, R>(threads, keeper, service, since, blank);
    end(threads.alloc(), keeper, error)
}
