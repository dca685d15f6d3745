//! Clients of a port who are spoken to in its dialect, whether they log in or not.

ghost use Rattle.std.specs.Prelude.{◌≡◌};

use crate::hosts::{new_host, post};
use crate::peers::{Place, listener, told};
use crate::wanted::expect;
use imap_host::{Host, PARTS};
use imap_keeper::Keeper;
use imap_limits::DEFAULT_LIMITS;
use imap_options::{DialectName, LogLevel};
use imap_service::{Connection, Listener, PortDoor, Report, serve_in};
use std::io::{self, ErrorKind, Write};
use std::marker::Brand;
use std::net::{Net, TcpListener, TcpStream};
use std::rt::Clock;
use std::sync::Wait;
use std::sync::ledger::{Blank, Ledger};
use std::thread::Threads;

/// What a port is told to do, what its one client sends, and what it is told.
#[derive(Clone, Copy)]
struct Visit {
    dialect: DialectName,
    is_asked: bool,
    sent: &'static [u8],
    wanted: &'static [u8],
}

const VISITS: &[Visit] = &[
    Visit {
        dialect: DialectName::Rev1,
        is_asked: false,
        sent: b"a1 CHECK\r\na2 LOGOUT\r\n",
        wanted: b"* PREAUTH [CAPABILITY IMAP4rev1 IMAP4rev2 ACL RIGHTS=texk UIDPLUS MOVE UNSELECT NAMESPACE \
ESEARCH LITERAL- CHILDREN LIST-EXTENDED LIST-STATUS CONDSTORE ENABLE IDLE QRESYNC] shared mailbox profile ready\r\n\
a1 OK done\r\n* BYE logging out\r\na2 OK done\r\n",
    },
    Visit {
        dialect: DialectName::Rev1,
        is_asked: true,
        sent: b"a1 CAPABILITY\r\na2 LOGIN ann s3cret\r\na3 CHECK\r\na4 LOGOUT\r\n",
        wanted: b"* OK [CAPABILITY IMAP4rev1 IMAP4rev2 ACL RIGHTS=texk UIDPLUS MOVE UNSELECT NAMESPACE \
ESEARCH LITERAL- CHILDREN LIST-EXTENDED LIST-STATUS CONDSTORE ENABLE IDLE QRESYNC AUTH=PLAIN SASL-IR] \
shared mailbox profile ready\r\n\
* CAPABILITY IMAP4rev1 IMAP4rev2 ACL RIGHTS=texk UIDPLUS MOVE UNSELECT NAMESPACE \
ESEARCH LITERAL- CHILDREN LIST-EXTENDED LIST-STATUS CONDSTORE ENABLE IDLE QRESYNC AUTH=PLAIN SASL-IR\r\n\
a1 OK done\r\n\
a2 OK [CAPABILITY IMAP4rev1 IMAP4rev2 ACL RIGHTS=texk UIDPLUS MOVE UNSELECT NAMESPACE \
ESEARCH LITERAL- CHILDREN LIST-EXTENDED LIST-STATUS CONDSTORE ENABLE IDLE QRESYNC] done\r\n\
a3 OK done\r\n* BYE logging out\r\na4 OK done\r\n",
    },
    Visit {
        dialect: DialectName::Rev2,
        is_asked: true,
        sent: b"a1 LOGIN ann s3cret\r\na2 CHECK\r\na3 LOGOUT\r\n",
        wanted: b"* OK [CAPABILITY IMAP4rev2 ACL RIGHTS=texk CONDSTORE ENABLE IDLE QRESYNC AUTH=PLAIN \
        SASL-IR] \
shared mailbox profile ready\r\n\
a1 OK [CAPABILITY IMAP4rev2 ACL RIGHTS=texk CONDSTORE ENABLE IDLE QRESYNC] done\r\n\
a2 BAD malformed command\r\n* BYE logging out\r\na3 OK done\r\n",
    },
];

/// Serves the client who was let in, by a seat of ann. Returns whether there was one.
fn is_served<
    K: Keeper + Send,
    L: Ledger + Send + Sync,
    R: Net<Listener = TcpListener, Stream = TcpStream>
        + Threads
        + Wait
        + Clock
        + Eprint
        + Sync
        + AllocGlobal,
>(rt: &R, host: &mut Host<K, L>, place: &Place, dialect: DialectName) -> bool {
    let report = Report::new(rt, LogLevel::Off);
    let Some(door) = place.door(rt, &report, dialect) else {
        return false;
    };
    let Ok(mut posts) = post(rt.alloc(), host, "ann", PortDoor::Serving(door)) else {
        return false;
    };
    serve_in(
        rt,
        host,
        &place.wakers,
        posts.as_mut_slice(),
        dialect,
        DEFAULT_LIMITS.max_octets,
    );
    drop(posts);
    true
}

/// The connection of the client, if the client doesn't log in.
fn accepted(listener: &TcpListener, is_asked: bool) -> Option<TcpStream> {
    if is_asked {
        return None;
    }
    let (stream, _) = listener.accept().ok()?;
    Some(stream)
}

/// Lets the client in whose connection this is, or who logs in. Returns whether there is one.
fn has_come<
    R: Net<Listener = TcpListener, Stream = TcpStream> + Wait + Clock + Eprint + AllocGlobal,
>(rt: &R, place: &Place, stream: Option<TcpStream>, dialect: DialectName) -> bool {
    match stream {
        Some(stream) => {
            place.admit(rt, Connection::from(stream));
            true
        }
        None => place.log_in(rt, dialect).unwrap_or(false),
    }
}

/// What the client is told who comes to ann's port.
fn told_over<
    K: Keeper + Send,
    L: Ledger + Send + Sync,
    R: Net<Listener = TcpListener, Stream = TcpStream>
        + Threads
        + Wait
        + Clock
        + Eprint
        + Sync
        + AllocGlobal,
>(rt: &R, host: &mut Host<K, L>, visit: Visit) -> io::Result<Vec<u8>> {
    let listener = listener(rt)?;
    let mut client = TcpStream::connect(rt, listener.local_addr()?)?;
    let sent = client.write_all(visit.sent);
    let stream = accepted(&listener, visit.is_asked);
    let is_served = match Place::new(rt.alloc(), Listener::from(listener), visit.is_asked) {
        Ok(place) => {
            let has_come = has_come(rt, &place, stream, visit.dialect);
            place.reception.close(rt);
            let is_served = has_come && is_served(rt, host, &place, visit.dialect);
            drop(place);
            is_served
        }
        Err(_) => {
            drop(stream);
            false
        }
    };
    if sent.is_err() || !is_served {
        return Err(io::Error::from(ErrorKind::Other));
    }
    told(rt.alloc(), &mut client)
}

/// The same in a new host.
fn told_anew<
    L: Ledger + Send + Sync,
    R: Net<Listener = TcpListener, Stream = TcpStream>
        + Threads
        + Wait
        + Clock
        + Eprint
        + Sync
        + AllocGlobal,
>(rt: &R, blank: Blank, visit: Visit) -> io::Result<Vec<u8>>
    requires name { blank.name ≡ L.name }
    requires parts { (blank.parts ≡ L.parts) × (blank.parts ≡ 1048576) }
{
    match new_host::<L>(rt.alloc(), blank) {
        Ok(mut host) => {
            let told = told_over(rt, &mut host, visit);
            drop(host);
            told
        }
        Err(_) => Err(io::Error::from(ErrorKind::OutOfMemory)),
    }
}

#[test]
fn clients_are_spoken_to_in_the_dialect(rt: HostRuntime) {
    for visit in VISITS {
        let told = told_anew::<Brand, HostRuntime>(&rt, Blank::new(PARTS), *visit);
        expect(&rt, told, visit.wanted);
    }
}
