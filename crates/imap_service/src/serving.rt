//! Serving users at ports and socket files.

ghost use Rattle.std.specs.Prelude.{◌≡◌, IfOk};
ghost use Rattle.imap_host.specs.Hall.{IsFresh};

use crate::client_door::ClientDoor;
use crate::idle_ticks::TICKS_PER_SECOND;
use crate::idle_waker::IdleWakers;
use crate::listening::listen;
use crate::notify_on_change::NotifyOnChange;
use crate::port_door::{PortDoor, Receptionist};
use crate::reception::{Reception, SEATS};
use crate::report::Report;
use crate::reporting_keeper::ReportingKeeper;
use crate::service_error::ServiceError;
use crate::system_clock::SystemClock;
use imap_dialect::{Dialect, Standard};
use imap_host::{Hall, Host, Seat, crew};
use imap_keeper::Keeper;
use imap_names::UserName;
use imap_options::{DialectName, Port, Service};
use imap_rev1::Utf7Rev1;
use imap_rights::Groups;
use imap_world::{Limits, World};
use std::alloc::{AllocError, Global};
use std::net::{Net, TcpListener, TcpStream};
use std::rt::{Clock, Files};
use std::sync::Wait;
use std::sync::ledger::{Blank, Ledger};
use std::thread::Threads;
use std::time::{Duration, Instant};

/// The number of reads in a row that bring nothing after which a session ends: those of 30 minutes.
pub const IDLE_TICKS: u64 = 1800 * TICKS_PER_SECOND;

/// The seconds for which a client may keep a reply from being written.
const WRITE_SECONDS: u64 = 300;

/// Serves the users of `service` at their ports of 127.0.0.1 and socket files from what `keeper` keeps, until no connection comes any
/// more. Prints a line `listening USER PORT` or `listening USER PATH` for each once all are open. `since` is when the program was started.
/// Returns the keeper, and why serving ended or didn't begin.
pub fn run<
    K: Keeper + Send,
    L: Ledger + Send + Sync,
    R: Net<Listener = TcpListener, Stream = TcpStream>
        + Threads
        + Wait
        + Clock
        + Print
        + Eprint
        + Files
        + AllocGlobal
        + Sync,
>(rt: &R, keeper: K, service: Service, since: Option<Instant>, blank: Blank) -> (K, ServiceError)
    requires name { blank.name ≡ L.name }
    requires parts { (blank.parts ≡ L.parts) × (blank.parts ≡ 1048576) }
{
    let Service {
        administrator,
        ports,
        groups,
        limits,
        dialect,
        log,
    } = service;
    let report = Report::new(rt, log);
    let keeper = ReportingKeeper {
        keeper,
        report: &report,
        is_refusing: false,
    };
    let setting = Setting {
        rt,
        report: &report,
        ports: ports.as_slice(),
        dialect,
        max_octets: limits.max_octets,
        since,
    };
    let users = ports.as_slice();
    let (keeper, error) = match open(rt.alloc(), keeper, administrator, users, groups, limits) {
        Ok(hall) => serve_hall::<ReportingKeeper<'_, K, R>, L, R>(&setting, hall, blank),
        Err((error, keeper)) => (keeper, error),
    };
    (keeper.into_inner(), error)
}

/// What all of a service share.
#[derive(Drop)]
struct Setting<'a, R: Eprint> {
    rt: &'a R,
    report: &'a Report<'a, R>,
    ports: &'a [Port],
    dialect: DialectName,
    max_octets: u64,
    since: Option<Instant>,
}

/// Opens the hall of these users, who are in these groups.
fn open<K: Keeper>(
    alloc: Global,
    keeper: K,
    administrator: UserName,
    ports: &[Port],
    groups: Groups,
    limits: Limits,
) -> Result<Hall<K>, (ServiceError, K)>
    ensures fresh { IfOk result IsFresh }
{
    let Ok(users) = users(alloc, ports) else {
        drop(groups);
        drop(administrator);
        return Err((ServiceError::Memory, keeper));
    };
    let opened = Hall::open(
        alloc,
        keeper,
        administrator,
        users.as_slice(),
        groups,
        limits,
    );
    drop(users);
    match opened {
        Ok(hall) => Ok(hall),
        Err((error, keeper)) => Err((ServiceError::from(error), keeper)),
    }
}

fn users(alloc: Global, ports: &[Port]) -> Result<Vec<UserName>, AllocError> {
    let mut users = Vec::new(alloc);
    for port in ports {
        users.push(port.user.try_copy()?)?;
    }
    Ok(users)
}

/// Serves the users of a new hall at their ports.
fn serve_hall<
    K: Keeper + Send,
    L: Ledger + Send + Sync,
    R: Net<Listener = TcpListener, Stream = TcpStream>
        + Threads
        + Wait
        + Clock
        + Print
        + Eprint
        + Files
        + AllocGlobal
        + Sync,
>(setting: &Setting<'_, R>, hall: Hall<K>, blank: Blank) -> (K, ServiceError)
    requires name { blank.name ≡ L.name }
    requires parts { (blank.parts ≡ L.parts) × (blank.parts ≡ 1048576) }
    requires fresh { IsFresh hall }
{
    match listen(setting.rt, setting.ports) {
        Ok(receptions) => {
            report_start(setting, hall.base().world());
            let host: Host<K, L> = Host::new(setting.rt.alloc(), hall, blank);
            serve_host(setting, host, receptions)
        }
        Err(error) => (hall.into_keeper(), error),
    }
}

/// Reports of how many users, mailboxes and messages mail is served.
fn report_start<R: Wait + Clock + Eprint>(setting: &Setting<'_, R>, world: &World) {
    let millis = match &setting.since {
        Some(since) => since.elapsed(setting.rt).map_or(0, |time| time.as_millis()),
        None => 0,
    };
    let mailboxes = world.mailboxes().len();
    setting.report.started(
        setting.ports.len(),
        mailboxes,
        count_messages(world),
        millis,
    );
}

/// Returns how many messages there are.
pub fn count_messages(world: &World) -> u64 {
    let mut count: u64 = 0;
    for (_, entry) in world.mailboxes().entries() {
        count = count.saturating_add(entry.messages.as_ref().len() as u64);
    }
    count
}

/// Serves the users at their receptions: each is that of the port at the same index.
fn serve_host<
    K: Keeper + Send,
    L: Ledger + Send + Sync,
    R: Net<Listener = TcpListener, Stream = TcpStream>
        + Threads
        + Wait
        + Clock
        + Eprint
        + AllocGlobal
        + Sync,
>(setting: &Setting<'_, R>, mut host: Host<K, L>, receptions: Vec<Reception>) -> (K, ServiceError) {
    let ended = serve_wakeable(setting, &mut host, receptions.as_slice());
    drop(receptions);
    (host.into_hall().into_keeper(), ended)
}

/// The same, with a waker for each worker.
fn serve_wakeable<
    K: Keeper + Send,
    L: Ledger + Send + Sync,
    R: Net<Listener = TcpListener, Stream = TcpStream>
        + Threads
        + Wait
        + Clock
        + Eprint
        + AllocGlobal
        + Sync,
>(setting: &Setting<'_, R>, host: &mut Host<K, L>, receptions: &[Reception]) -> ServiceError {
    let count = setting.ports.len().saturating_mul(SEATS);
    match IdleWakers::new(setting.rt.alloc(), count) {
        Ok(wakers) => {
            let ended = serve_posts(setting, host, receptions, &wakers);
            drop(wakers);
            ended
        }
        Err(error) => ServiceError::from(error),
    }
}

/// The same by the workers of these wakers: runs a thread for each post, until no connection comes any more.
fn serve_posts<
    K: Keeper + Send,
    L: Ledger + Send + Sync,
    R: Net<Listener = TcpListener, Stream = TcpStream>
        + Threads
        + Wait
        + Clock
        + Eprint
        + AllocGlobal
        + Sync,
>(
    setting: &Setting<'_, R>,
    host: &mut Host<K, L>,
    receptions: &[Reception],
    wakers: &IdleWakers,
) -> ServiceError {
    match posts(
        setting.rt,
        setting.report,
        host,
        setting.ports,
        receptions,
        wakers,
        setting.dialect,
    ) {
        Ok(mut posts) => {
            serve_in(
                setting.rt,
                host,
                wakers,
                posts.as_mut_slice(),
                setting.dialect,
                setting.max_octets,
            );
            drop(posts);
            // Whether all threads ran or not, no connection comes any more.
            ServiceError::NoConnection
        }
        Err(error) => error,
    }
}

/// Runs a thread for each post, whose clients are spoken to in the dialect of this name and may send this many octets
/// in a message, until no connection comes any more.
pub fn serve_in<
    'a,
    K: Keeper + Send,
    L: Ledger + Send + Sync,
    R: Net<Listener = TcpListener, Stream = TcpStream>
        + Threads
        + Wait
        + Clock
        + Eprint
        + AllocGlobal
        + Sync,
>(
    rt: &'a R,
    host: &Host<K, L>,
    wakers: &'a IdleWakers,
    posts: &mut [(Seat<L>, PortDoor<'a, R>)],
    dialect: DialectName,
    max_octets: u64,
) {
    match dialect {
        DialectName::Rev2 => run_crew(rt, host, wakers, posts, &Standard, max_octets),
        DialectName::Rev1 => run_crew(rt, host, wakers, posts, &Utf7Rev1::new(), max_octets),
    }
}

/// The same for a dialect.
fn run_crew<
    'a,
    K: Keeper + Send,
    L: Ledger + Send + Sync,
    R: Net<Listener = TcpListener, Stream = TcpStream>
        + Threads
        + Wait
        + Clock
        + Eprint
        + AllocGlobal
        + Sync,
    T: Dialect + Copy + Sync,
>(
    rt: &'a R,
    host: &Host<K, L>,
    wakers: &'a IdleWakers,
    posts: &mut [(Seat<L>, PortDoor<'a, R>)],
    dialect: &T,
    max_octets: u64,
) {
    let _ran = crew(
        rt,
        rt.alloc(),
        host,
        posts,
        &SystemClock { rt },
        &NotifyOnChange::new(rt, host.changes(), wakers),
        dialect,
        max_octets,
        IDLE_TICKS,
    );
}

/// Returns the posts of the reception at each port's index: first those that serve, sixteen for each port with a waker
/// each, and then one for each port that receives its clients. Who logs in is spoken to in the dialect.
pub fn posts<
    'a,
    K: Keeper,
    L: Ledger,
    R: Net<Listener = TcpListener, Stream = TcpStream> + Wait + Clock + Eprint + AllocGlobal,
>(
    rt: &'a R,
    report: &'a Report<'a, R>,
    host: &mut Host<K, L>,
    ports: &'a [Port],
    receptions: &'a [Reception],
    wakers: &'a IdleWakers,
    dialect: DialectName,
) -> Result<Vec<(Seat<L>, PortDoor<'a, R>)>, ServiceError> {
    let alloc = rt.alloc();
    let mut posts = Vec::new(alloc);
    for (index, waker) in wakers.as_slice().iter().enumerate() {
        let port = index / SEATS;
        if let (Some(port), Some(reception)) = (ports.get(port), receptions.get(port)) {
            let door = PortDoor::Serving(ClientDoor {
                rt,
                alloc,
                reception,
                wakers,
                waker,
                report,
                user: &port.user,
                dialect,
                number: index % SEATS + 1,
                write_timeout: Duration::from_secs(WRITE_SECONDS),
                has_client: false,
            });
            posts = with_post(posts, seat(alloc, host, &port.user), door)?;
        }
    }
    for (reception, port) in receptions.iter().zip(ports) {
        let door = PortDoor::Receiving(Receptionist {
            rt,
            alloc,
            reception,
            user: &port.user,
            credentials: &port.credentials,
            dialect,
            report,
        });
        posts = with_post(posts, seat(alloc, host, &port.user), door)?;
    }
    Ok(posts)
}

/// Appends a seat with its door. It is generic, since the proof that a seat is dropped is long.
fn with_post<S: Drop, D: Drop>(
    mut posts: Vec<(S, D)>,
    seat: Result<S, ServiceError>,
    door: D,
) -> Result<Vec<(S, D)>, ServiceError> {
    let seat = seat?;
    posts.push((seat, door))?;
    Ok(posts)
}

fn seat<K: Keeper, L: Ledger>(
    alloc: Global,
    host: &mut Host<K, L>,
    user: &UserName,
) -> Result<Seat<L>, ServiceError> {
    let user = user.try_copy()?;
    Ok(host.seat(alloc, user)?)
}
