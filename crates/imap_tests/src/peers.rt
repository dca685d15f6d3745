//! Clients of a port: one too many, a web page, one that doesn't read; and the seats behind the ports.

ghost use Rattle.std.specs.Prelude.{◌≡◌};

use crate::command_lines::task;
use crate::hosts::{new_host, user};
use crate::owned::{both, push};
use imap_host::{Door, Host, PARTS, Seat};
use imap_keeper::Keeper;
use imap_login::Credentials;
use imap_names::UserName;
use imap_options::{DialectName, LogLevel, Port, Task};
use imap_service::{
    ClientDoor, Connection, IdleWakers, Listener, LoginPort, PendingLogins, PortDoor, Reception,
    Report, SEATS, listen_at, posts,
};
use std::alloc::{AllocError, Global};
use std::io::{self, Read, Write};
use std::marker::Brand;
use std::net::{Ipv4Addr, Net, SocketAddr, TcpListener, TcpStream};
use std::rt::Clock;
use std::sync::Wait;
use std::sync::ledger::{Blank, Ledger};
use std::time::Duration;

const GOODBYE: &[u8] = b"* BYE limit reached\r\n";

/// A port of this machine.
pub(crate) fn listener<R: Net<Listener = TcpListener, Stream = TcpStream>>(
    rt: &R,
) -> io::Result<TcpListener> {
    match listen_at(rt, 0) {
        Ok(listener) => Ok(listener),
        Err(_) => Err(io::Error::from(io::ErrorKind::AddrInUse)),
    }
}

/// A client of the listener, and its connection.
pub(crate) fn connection<R: Net<Listener = TcpListener, Stream = TcpStream>>(
    rt: &R,
    listener: &TcpListener,
) -> io::Result<(TcpStream, TcpStream)> {
    let client = TcpStream::connect(rt, listener.local_addr()?);
    let (client, (stream, _)) = both(client, listener.accept())?;
    Ok((client, stream))
}

/// What a client is told until the connection ends.
pub(crate) fn told(alloc: Global, client: &mut TcpStream) -> io::Result<Vec<u8>> {
    let mut text = Vec::new(alloc);
    client.read_to_end(&mut text)?;
    Ok(text)
}

/// What stands between ann's clients and their one worker.
#[derive(Drop)]
pub(crate) struct Place {
    pub(crate) reception: Reception,
    pub(crate) user: UserName,
    credentials: Option<Credentials>,
    pub(crate) wakers: IdleWakers,
}

impl Place {
    /// Clients come in by this listener, and log in if they are asked.
    pub(crate) fn new(
        alloc: Global,
        listener: Listener,
        is_asked: bool,
    ) -> Result<Place, AllocError> {
        let received = both(Reception::new(alloc, listener), user(alloc, "ann"));
        let known = both(credentials(alloc, is_asked), IdleWakers::new(alloc, 1));
        let ((reception, user), (credentials, wakers)) = both(received, known)?;
        Ok(Place {
            reception,
            user,
            credentials,
            wakers,
        })
    }

    /// Lets a connection in.
    pub(crate) fn admit<R: Wait + Eprint>(&self, rt: &R, stream: Connection) {
        let report = Report::new(rt, LogLevel::Off);
        self.reception.admit(rt, &self.user, &report, stream);
    }

    /// Lets a client log in who has connected and sent all, if clients are to. Returns whether there is a client for a
    /// worker then.
    pub(crate) fn log_in<
        R: Net<Listener = TcpListener, Stream = TcpStream> + Wait + Clock + Eprint + AllocGlobal,
    >(&self, rt: &R, dialect: DialectName) -> io::Result<bool> {
        let Some(credentials) = &self.credentials else {
            return Ok(false);
        };
        let report = Report::new(rt, LogLevel::Off);
        let port = LoginPort {
            rt,
            alloc: rt.alloc(),
            reception: &self.reception,
            user: &self.user,
            credentials,
            dialect,
            report: &report,
        };
        self.log_in_at(rt, &port)
    }

    /// The same at this port.
    fn log_in_at<R: Net<Listener = TcpListener, Stream = TcpStream> + Wait + Clock + Eprint>(
        &self,
        rt: &R,
        port: &LoginPort<'_, R>,
    ) -> io::Result<bool> {
        let mut logins = PendingLogins::new(port)?;
        for _ in 0..8 {
            logins.turn(port)?;
            if self.reception.taken(rt) > 0 {
                return Ok(true);
            }
        }
        Ok(false)
    }

    /// The worker's door, or `None` if there is no waker. A client may keep a reply from being written for 100
    /// milliseconds.
    pub(crate) fn door<
        'a,
        R: Net<Listener = TcpListener, Stream = TcpStream> + Wait + Clock + Eprint + AllocGlobal,
    >(
        &'a self,
        rt: &'a R,
        report: &'a Report<'a, R>,
        dialect: DialectName,
    ) -> Option<ClientDoor<'a, R>> {
        let waker = self.wakers.as_slice().first()?;
        Some(ClientDoor {
            rt,
            alloc: rt.alloc(),
            reception: &self.reception,
            wakers: &self.wakers,
            waker,
            report,
            user: &self.user,
            dialect,
            number: 1,
            write_timeout: Duration::from_millis(100),
            has_client: false,
        })
    }
}

/// What ann logs in with, if she is asked.
fn credentials(alloc: Global, is_asked: bool) -> Result<Option<Credentials>, AllocError> {
    if is_asked {
        Ok(Some(Credentials::new(alloc, b"ann", b"s3cret")?))
    } else {
        Ok(None)
    }
}

/// Lets one connection in seventeen times.
fn admit_seventeen<R: Wait + Eprint>(rt: &R, place: &Place, stream: &TcpStream) -> io::Result<()> {
    for _ in 0..SEATS + 1 {
        place.admit(rt, Connection::from(stream.try_clone()?));
    }
    Ok(())
}

/// What the client of seventeen connections is told.
fn told_by_seventeen<
    R: Net<Listener = TcpListener, Stream = TcpStream> + Wait + Eprint + AllocGlobal,
>(rt: &R) -> io::Result<Vec<u8>> {
    let listener = listener(rt)?;
    let (mut client, stream) = connection(rt, &listener)?;
    let admitted = match Place::new(rt.alloc(), Listener::from(listener), false) {
        Ok(place) => {
            let admitted = admit_seventeen(rt, &place, &stream);
            drop(place);
            admitted
        }
        Err(error) => Err(io::Error::from(error)),
    };
    drop(stream);
    match admitted {
        Ok(()) => told(rt.alloc(), &mut client),
        Err(error) => Err(error),
    }
}

/// Sixteen connections wait, and the next one is told that it isn't served. The library's own threads aren't needed
/// to refuse it.
#[test]
fn a_seventeenth_client_is_refused(rt: HostRuntime) {
    match told_by_seventeen(&rt) {
        Ok(text) => assert!(rt; text.as_slice() == GOODBYE),
        Err(error) => panic!(rt; "{error:?}"),
    }
}

/// What is done with the connection of one client.
pub(crate) trait Deed {
    /// Whether it came out as it should.
    fn is_done<C: Read + Write, I: Read, O: Write>(
        &self,
        alloc: Global,
        client: &mut C,
        input: &mut I,
        output: &mut O,
    ) -> io::Result<bool>;
}

/// A web page's request is told apart.
pub(crate) struct Web;

impl Deed for Web {
    fn is_done<C: Read + Write, I: Read, O: Write>(
        &self,
        alloc: Global,
        client: &mut C,
        input: &mut I,
        _output: &mut O,
    ) -> io::Result<bool> {
        client.write_all(b"POST / HTTP/1.1\r\nx CREATE Hacked\r\n")?;
        let mut buf = [0u8; 256];
        let count = input.read(&mut buf)?;
        let mut text = [0u8; 21];
        client.read_exact(&mut text)?;
        let _alloc = alloc;
        Ok(count == 0 && text.as_slice() == GOODBYE)
    }
}

/// A client that doesn't read is let go.
pub(crate) struct Unread;

impl Deed for Unread {
    fn is_done<C: Read + Write, I: Read, O: Write>(
        &self,
        alloc: Global,
        _client: &mut C,
        _input: &mut I,
        output: &mut O,
    ) -> io::Result<bool> {
        let mut text = Vec::new(alloc);
        text.resize(65_536, b'x')?;
        for _ in 0..1000 {
            if output.write(text.as_slice()).is_err() {
                return Ok(true);
            }
        }
        Ok(false)
    }
}

/// Does it with one client over TCP.
fn done<
    D: Deed,
    R: Net<Listener = TcpListener, Stream = TcpStream> + Wait + Clock + Eprint + Sync + AllocGlobal,
>(rt: &R, deed: &D) -> io::Result<bool> {
    let listener = listener(rt)?;
    let (client, stream) = connection(rt, &listener)?;
    let stream = Connection::from(stream);
    done_with(rt, deed, Listener::from(listener), client, stream)
}

/// Does it with the client of a listener.
pub(crate) fn done_with<
    D: Deed,
    C: Read + Write + Drop,
    R: Net<Listener = TcpListener, Stream = TcpStream> + Wait + Clock + Eprint + Sync + AllocGlobal,
>(rt: &R, deed: &D, listener: Listener, client: C, stream: Connection) -> io::Result<bool> {
    let place = Place::new(rt.alloc(), listener, false);
    let (place, (mut client, stream)) = both(place, Ok((client, stream)))?;
    place.admit(rt, stream);
    let done = done_at(rt, deed, &place, &mut client);
    drop(place);
    drop(client);
    done
}

/// Does it with the client who was let in.
fn done_at<
    D: Deed,
    C: Read + Write,
    R: Net<Listener = TcpListener, Stream = TcpStream> + Wait + Clock + Eprint + Sync + AllocGlobal,
>(rt: &R, deed: &D, place: &Place, client: &mut C) -> io::Result<bool> {
    let report = Report::new(rt, LogLevel::Off);
    let Some(mut door) = place.door(rt, &report, DialectName::Rev2) else {
        return Ok(false);
    };
    match door.next() {
        Some((mut input, mut output)) => {
            let done = deed.is_done(rt.alloc(), client, &mut input, &mut output);
            drop(input);
            drop(output);
            done
        }
        None => Ok(false),
    }
}

#[test]
fn clients_are_refused_or_let_go(rt: HostRuntime) {
    assert!(rt; matches!(done(&rt, &Web), Ok(true)));
    assert!(rt; matches!(done(&rt, &Unread), Ok(true)));
}

fn address<R: Net<Listener = TcpListener, Stream = TcpStream>>(rt: &R) -> io::Result<SocketAddr> {
    let listener = listener(rt)?;
    listener.local_addr()
}

/// A listener stands at 127.0.0.1 alone.
#[test]
fn listens_at_this_machine_alone(rt: HostRuntime) {
    match address(&rt) {
        Ok(SocketAddr::V4(address)) => assert!(rt; *address.ip() == Ipv4Addr::LOCALHOST),
        Ok(SocketAddr::V6(_)) => panic!(rt; "another address"),
        Err(error) => panic!(rt; "{error:?}"),
    }
}

/// The words by which ann and bob are served.
const TWO_PORTS: &[&str] = &[
    "imapd",
    "serve",
    "--db=x",
    "--admin=root",
    "--listen=ann=1143",
    "--listen=bob=1144",
];

/// Two receptions.
fn receptions<R: Net<Listener = TcpListener, Stream = TcpStream> + AllocGlobal>(
    rt: &R,
) -> io::Result<Vec<Reception>> {
    let mut receptions = Vec::new(rt.alloc());
    for _ in 0..2 {
        let listener = Listener::from(listener(rt)?);
        push(&mut receptions, Reception::new(rt.alloc(), listener))?;
    }
    Ok(receptions)
}

/// Whether the first sixteen seats are ann's, at her port, and the other sixteen bob's.
fn are_seated<
    K: Keeper,
    L: Ledger,
    R: Net<Listener = TcpListener, Stream = TcpStream> + Wait + Clock + Eprint + AllocGlobal,
>(rt: &R, host: &mut Host<K, L>) -> bool {
    let Ok(receptions) = receptions(rt) else {
        return false;
    };
    let task = task(rt.alloc(), TWO_PORTS);
    let are_seated = match &task {
        Ok(Task::Serve { service, .. }) => are_seated_at(rt, host, &service.ports, &receptions),
        _ => false,
    };
    drop(task);
    drop(receptions);
    are_seated
}

/// The same at these ports.
fn are_seated_at<
    K: Keeper,
    L: Ledger,
    R: Net<Listener = TcpListener, Stream = TcpStream> + Wait + Clock + Eprint + AllocGlobal,
>(rt: &R, host: &mut Host<K, L>, ports: &[Port], receptions: &[Reception]) -> bool {
    let Ok(wakers) = IdleWakers::new(rt.alloc(), 2 * SEATS) else {
        return false;
    };
    let report = Report::new(rt, LogLevel::Off);
    let dialect = DialectName::Rev2;
    match posts(rt, &report, host, ports, receptions, &wakers, dialect) {
        Ok(posts) => {
            let are_seated = are_posts(posts.as_slice(), receptions);
            drop(posts);
            are_seated
        }
        Err(_) => false,
    }
}

/// Whether the posts are those seats with these doors.
fn are_posts<L: Ledger, R: Net<Listener = TcpListener, Stream = TcpStream> + Wait + Clock + Eprint>(
    posts: &[(Seat<L>, PortDoor<'_, R>)],
    receptions: &[Reception],
) -> bool {
    for (index, (seat, door)) in posts.iter().enumerate() {
        let (user, reception, number) = match door {
            PortDoor::Serving(door) => (door.user, door.reception, door.number),
            PortDoor::Receiving(door) => (door.user, door.reception, 0),
        };
        let is_own = user.as_str() == seat.who.user.as_str();
        if !is_own || !is_post(index, user, reception, number, receptions) {
            return false;
        }
    }
    posts.len() == 2 * SEATS + 2
}

/// Whether the post at this index is of this user, with a door of this number to this reception. A door that receives
/// clients has the number 0.
fn is_post(
    index: usize,
    user: &UserName,
    reception: &Reception,
    number: usize,
    receptions: &[Reception],
) -> bool {
    let (port, wanted) = if index < 2 * SEATS {
        (index / SEATS, index % SEATS + 1)
    } else {
        (index.saturating_sub(2 * SEATS), 0)
    };
    let name = if port == 0 { "ann" } else { "bob" };
    match receptions.get(port) {
        Some(at) => {
            user.as_str() == name && reception.descriptor() == at.descriptor() && number == wanted
        }
        None => false,
    }
}

/// The same in a new host.
fn are_seated_anew<
    L: Ledger,
    R: Net<Listener = TcpListener, Stream = TcpStream> + Wait + Clock + Eprint + AllocGlobal,
>(rt: &R, blank: Blank) -> bool
    requires name { blank.name ≡ L.name }
    requires parts { (blank.parts ≡ L.parts) × (blank.parts ≡ 1048576) }
{
    match new_host::<L>(rt.alloc(), blank) {
        Ok(mut host) => {
            let are_seated = are_seated(rt, &mut host);
            drop(host);
            are_seated
        }
        Err(_) => false,
    }
}

#[test]
fn each_port_is_its_users(rt: HostRuntime) {
    assert!(rt; are_seated_anew::<Brand, HostRuntime>(&rt, Blank::new(PARTS)));
}
