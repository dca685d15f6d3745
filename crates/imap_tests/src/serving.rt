//! What a session writes, and how it ends.

use crate::connection::{Behaviour, OCTETS, Sink, Source, WHOLE};
use crate::hosts::{opened, user};
use crate::wanted::expect;
use imap_keeper::{Keeper, ListKeeper};
use imap_limits::DEFAULT_LIMITS;
use imap_serve::{
    Act, End, Entry, Gate, Hall, Moment, Moments, OpenGate, Room, ServeError, SessionId,
    SessionNumber, Watched, serve,
};
use imap_world::World;
use std::alloc::{AllocError, Global};
use std::io::Read;
use std::process::Abort;
use std::sync::Wait;

/// The number of reads in a row that bring nothing after which a session ends.
pub(crate) const IDLE_TICKS: u64 = 3;

/// A clock that stands.
#[derive(Drop)]
pub(crate) struct Standing;

impl Moments for Standing {
    fn now(&self) -> Moment {
        Moment::epoch()
    }
}

/// The first session of the user.
pub(crate) fn session(alloc: Global, text: &str) -> Result<SessionId, AllocError> {
    let number = SessionNumber::new(1).ok_or(AllocError)?;
    Ok(SessionId {
        user: user(alloc, text)?,
        number,
    })
}

/// What became of a session.
#[derive(Drop)]
pub(crate) struct Served {
    pub(crate) written: Vec<u8>,
    pub(crate) end: Result<End, ServeError>,
}

/// Serves the session over this input. The behaviour is that of the output.
pub(crate) fn serve_over<W: Wait + AllocGlobal, R: Room, G: Gate, I: Read + Drop>(
    rt: &W,
    room: &mut R,
    who: &SessionId,
    gate: &G,
    input: I,
    behaviour: Behaviour,
) -> Served {
    let mut input = Watched::new(input);
    let mut output = Watched::new(Sink::new(rt.alloc(), behaviour));
    let end = serve(
        rt,
        rt.alloc(),
        room,
        who,
        &Standing,
        gate,
        DEFAULT_LIMITS.max_octets,
        IDLE_TICKS,
        &mut input,
        &mut output,
    );
    let Sink { taken, .. } = output.into_inner();
    Served {
        written: taken,
        end,
    }
}

/// Serves ann's first session over this text.
pub(crate) fn serve_in<W: Wait + AllocGlobal, R: Room, G: Gate>(
    rt: &W,
    room: &mut R,
    gate: &G,
    text: &[u8],
    behaviour: Behaviour,
) -> Result<Served, AllocError> {
    let who = session(rt.alloc(), "ann")?;
    let input = Source::new(text, behaviour);
    let served = serve_over(rt, room, &who, gate, input, behaviour);
    drop(who);
    Ok(served)
}

/// A new hall whose administrator is ann, kept in memory.
pub(crate) fn new_hall(alloc: Global) -> Result<Hall<ListKeeper>, AllocError> {
    opened(alloc, World::new(alloc), "ann", &[])
}

/// The same in a new hall. The session must have left.
pub(crate) fn serve_anew<W: Wait + AllocGlobal>(
    rt: &W,
    text: &[u8],
    behaviour: Behaviour,
) -> Result<Served, AllocError> {
    let mut hall = new_hall(rt.alloc())?;
    let served = serve_in(rt, &mut hall, &OpenGate, text, behaviour);
    let has_left = ends_with_leave(&hall);
    drop(hall);
    kept_if(has_left, served)
}

fn kept_if<T: Drop>(is_kept: bool, value: Result<T, AllocError>) -> Result<T, AllocError> {
    if is_kept { value } else { Err(AllocError) }
}

/// Whether the last entry is a Leave.
pub(crate) fn ends_with_leave<K: Keeper>(hall: &Hall<K>) -> bool {
    match hall.entries().last() {
        Some(Entry { step, .. }) => matches!(step.act, Act::Leave),
        None => false,
    }
}

/// What was written, and how the session ended.
pub(crate) fn shown(
    alloc: Global,
    served: Result<Served, AllocError>,
) -> Result<Vec<u8>, AllocError> {
    let Served { mut written, end } = served?;
    let end = format!(in alloc; "{end:?}")?;
    written.extend_from_slice(end.as_bytes())?;
    Ok(written)
}

/// Appends how many entries the journal has, and whether the last is the Leave of the session.
pub(crate) fn with_entries(
    alloc: Global,
    shown: Result<Vec<u8>, AllocError>,
    count: u64,
    has_left: bool,
) -> Result<Vec<u8>, AllocError> {
    let mut shown = shown?;
    let text = format!(in alloc; " {count} {has_left}")?;
    shown.extend_from_slice(text.as_bytes())?;
    Ok(shown)
}

const GREETING: &[u8] =
    b"* PREAUTH [CAPABILITY IMAP4rev2 ACL RIGHTS=texk CONDSTORE ENABLE IDLE QRESYNC] \
    shared mailbox profile ready\r\n";

/// Asserts that this stands after the greeting.
pub(crate) fn expect_after_greeting(
    rt: &(impl Abort + AllocGlobal),
    made: Result<Vec<u8>, AllocError>,
    wanted: &[u8],
) {
    match made {
        Ok(octets) => match octets.strip_prefix(GREETING) {
            Some(rest) => expect::<AllocError>(rt, Vec::from_slice(rt.alloc(), rest), wanted),
            None => panic!(rt; "no greeting"),
        },
        Err(_) => panic!(rt; "out of memory"),
    }
}

/// The behaviour of the connection, what is sent, and what is written and answered after the greeting.
const ROWS: &[(Behaviour, &[u8], &[u8])] = &[
    (
        WHOLE,
        b"a1 NOOP\r\na2 LOGOUT\r\n",
        b"a1 OK done\r\n* BYE logging out\r\na2 OK done\r\nOk(Closed)",
    ),
    (WHOLE, b"a1 NOOP\r\n", b"a1 OK done\r\nOk(InputEnded)"),
    // What follows the end of a session is dropped.
    (
        WHOLE,
        b"a1 LOGOUT\r\na2 NOOP\r\n",
        b"* BYE logging out\r\na1 OK done\r\nOk(Closed)",
    ),
    (
        OCTETS,
        b"a1 MYRIGHTS {5}\r\nINBOX\r\n",
        b"+ ready\r\n* MYRIGHTS INBOX lrswipkxtea\r\na1 OK done\r\nOk(InputEnded)",
    ),
    (
        WHOLE,
        b"a1 CREATE {4097+}\r\n",
        b"* BYE limit reached\r\nOk(Closed)",
    ),
    (
        Behaviour {
            is_silent: true,
            ..WHOLE
        },
        b"",
        b"* BYE idle too long\r\nOk(Idle)",
    ),
    // A session that idles ends too.
    (
        Behaviour {
            is_silent: true,
            ..OCTETS
        },
        b"a1 IDLE\r\n",
        b"+ idling\r\n* BYE idle too long\r\nOk(Idle)",
    ),
    (
        OCTETS,
        b"a1 IDLE\r\ndone\r\na2 NOOP\r\n",
        b"+ idling\r\na1 OK done\r\na2 OK done\r\nOk(InputEnded)",
    ),
];

#[test]
fn sessions_are_served(rt: HostRuntime) {
    for &(behaviour, text, wanted) in ROWS {
        let served = serve_anew(&rt, text, behaviour);
        expect_after_greeting(&rt, shown(rt.alloc(), served), wanted);
    }
}
