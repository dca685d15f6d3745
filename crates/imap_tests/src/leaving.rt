//! Rooms that refuse a step. The session leaves all the same.

use crate::connection::{Behaviour, WHOLE};
use crate::faulty_room::FaultyRoom;
use crate::serving::{
    ends_with_leave, expect_after_greeting, new_hall, serve_in, shown, with_entries,
};
use crate::wanted::expect;
use imap_serve::{HallError, OpenGate};
use std::alloc::AllocError;
use std::sync::Wait;

/// Serves a session in a room that refuses the step of the number `refused`. Returns what was
/// written, how the session ended, how many entries the journal has, and whether the last is its
/// Leave.
fn told<W: Wait + AllocGlobal>(
    rt: &W,
    behaviour: Behaviour,
    text: &[u8],
    refused: u32,
    error: HallError,
) -> Result<Vec<u8>, AllocError> {
    let mut room = FaultyRoom::new(new_hall(rt.alloc())?, refused, error);
    let served = serve_in(rt, &mut room, &OpenGate, text, behaviour);
    let hall = room.into_inner();
    let count = hall.count();
    let has_left = ends_with_leave(&hall);
    drop(hall);
    with_entries(rt.alloc(), shown(rt.alloc(), served), count, has_left)
}

const SENT: &[u8] = b"a1 NOOP\r\na2 NOOP\r\n";

const SILENT: Behaviour = Behaviour {
    is_silent: true,
    ..WHOLE
};

/// The behaviour of the connection, what is sent, the number of the step that is refused, the
/// error, and what is returned after the greeting.
const ROWS: &[(Behaviour, &[u8], u32, HallError, &[u8])] = &[
    (WHOLE, SENT, 2, HallError::Memory, b"Err(Memory) 2 true"),
    (
        WHOLE,
        SENT,
        3,
        HallError::Exhausted,
        b"a1 OK done\r\nErr(Exhausted) 3 true",
    ),
    // The third step of a session that idles is a Poll.
    (
        SILENT,
        b"a1 IDLE\r\n",
        3,
        HallError::Memory,
        b"+ idling\r\nErr(Memory) 3 true",
    ),
    // If the Leave is refused, the session ends as without that.
    (
        WHOLE,
        SENT,
        4,
        HallError::Memory,
        b"a1 OK done\r\na2 OK done\r\nOk(InputEnded) 3 false",
    ),
    (
        SILENT,
        b"",
        2,
        HallError::Exhausted,
        b"* BYE idle too long\r\nOk(Idle) 1 false",
    ),
];

/// A session that wasn't opened has no greeting. It leaves all the same.
#[test]
fn a_room_refuses_a_step(rt: HostRuntime) {
    for &(behaviour, text, refused, error, wanted) in ROWS {
        let made = told(&rt, behaviour, text, refused, error);
        expect_after_greeting(&rt, made, wanted);
    }
    let memory = told(&rt, WHOLE, SENT, 1, HallError::Memory);
    expect(&rt, memory, b"Err(Memory) 1 true");
    let exhausted = told(&rt, WHOLE, SENT, 1, HallError::Exhausted);
    expect(&rt, exhausted, b"Err(Exhausted) 1 true");
}
