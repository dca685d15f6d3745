//! What sessions are told of their mailbox, beside what is found by comparing whole lists.

use crate::hosts::{act, user};
use crate::owned::both;
use imap_limits::DEFAULT_LIMITS;
use imap_print::{Response, print};
use imap_rights::Groups;
use imap_serve::{Act, Core, Moment, SessionId, SessionNumber, Step};
use imap_session::{NoticeOptions, Selected, notices_plain};
use imap_world::World;
use std::alloc::{AllocError, Global};

/// A session: its user, and its number.
pub(crate) type At = (&'static str, u32);

/// What the sessions begin with.
const OPENING: &[(u32, &[u8])] = &[
    (1, b"a SELECT INBOX\r\n"),
    (2, b"a SELECT INBOX\r\n"),
    (2, b"a ENABLE CONDSTORE\r\n"),
    (3, b"a SELECT INBOX\r\n"),
];

/// What they do then.
const COMMANDS: &[&[u8]] = &[
    b"a APPEND INBOX {5+}\r\nhello\r\n",
    b"a APPEND INBOX (\\Seen \\Flagged) {5+}\r\nhello\r\n",
    b"a STORE 1 +FLAGS (\\Flagged)\r\n",
    b"a STORE 2:* -FLAGS.SILENT (\\Flagged)\r\n",
    b"a STORE * FLAGS (\\Seen \\Deleted $Junk)\r\n",
    b"a STORE 2 +FLAGS.SILENT (\\Deleted)\r\n",
    b"a STORE 1:3 -FLAGS (\\Seen)\r\n",
    b"a FETCH 1:2 BODY[]\r\n",
    b"a COPY 1:2 INBOX\r\n",
    b"a MOVE 1 INBOX\r\n",
    b"a EXPUNGE\r\n",
    b"a NOOP\r\n",
];

/// One of `many` numbers from 0 on. It looks random, and is the same in each run.
fn pick(turn: u32, salt: u32, many: u32) -> usize {
    let mixed = turn.wrapping_mul(0x9e37_79b1) ^ salt.wrapping_mul(0x85eb_ca6b);
    let spread = (mixed ^ (mixed >> 15)).wrapping_mul(0xc2b2_ae35);
    (spread >> 8).checked_rem(many).unwrap_or(0) as usize
}

/// A machine of ann alone, who is the administrator, without mailboxes but her INBOX.
fn machine(alloc: Global) -> Result<Core, AllocError> {
    let administrator = user(alloc, "ann")?;
    let groups = Groups::new(alloc);
    first(Core::open(
        alloc,
        World::new(alloc),
        administrator,
        &[],
        groups,
        DEFAULT_LIMITS,
    ))
}

pub(crate) fn first<A: Drop, B: Drop>(both: Result<(A, B), AllocError>) -> Result<A, AllocError> {
    let (one, _other) = both?;
    Ok(one)
}

fn alone<T: Drop>(alloc: Global, item: Result<T, AllocError>) -> Result<Vec<T>, AllocError> {
    let mut items = Vec::with_capacity(alloc, 1)?;
    items.push(item?)?;
    Ok(items)
}

pub(crate) fn session(alloc: Global, at: At) -> Result<SessionId, AllocError> {
    let (name, number) = at;
    let number = SessionNumber::new(number).ok_or(AllocError)?;
    Ok(SessionId {
        user: user(alloc, name)?,
        number,
    })
}

fn step(alloc: Global, at: At, act: Result<Act, AllocError>) -> Result<Step, AllocError> {
    let (who, act) = both(session(alloc, at), act)?;
    Ok(Step {
        who,
        at: Moment::epoch(),
        act,
    })
}

/// What the session is answered.
pub(crate) fn reply(
    alloc: Global,
    core: &mut Core,
    at: At,
    act: Result<Act, AllocError>,
) -> Result<Vec<u8>, AllocError> {
    let steps = alone(alloc, step(alloc, at, act))?;
    let said = core.run(alloc, &steps);
    drop(steps);
    printed(alloc, said)
}

fn printed(
    alloc: Global,
    said: Result<Vec<Vec<Response>>, AllocError>,
) -> Result<Vec<u8>, AllocError> {
    let said = said?;
    let octets = match said.as_slice() {
        [replies] => print(alloc, replies.as_slice()),
        _ => Err(AllocError),
    };
    drop(said);
    octets
}

fn begin(alloc: Global, core: &mut Core) -> Result<(), AllocError> {
    for number in 1..4 {
        drop(reply(alloc, core, ("ann", number), Ok(Act::Open))?);
    }
    for &(number, octets) in OPENING {
        drop(reply(alloc, core, ("ann", number), act(alloc, octets))?);
    }
    Ok(())
}

// ---- by comparing whole lists

fn plain_lines(
    alloc: Global,
    world: &World,
    selected: &Selected,
    options: &NoticeOptions,
    user: &str,
) -> Result<Vec<Response>, AllocError> {
    match world.mailbox(&selected.name.as_ref()) {
        Some(entry) => {
            let rows = entry.messages.as_ref().rows(user);
            notices_plain(alloc, &selected.known, &rows, options, selected.up_to)?.ok_or(AllocError)
        }
        None => Err(AllocError),
    }
}

/// The lines of which a session would be told now, of expunged messages too if `expunges`.
pub(crate) fn session_lines(
    alloc: Global,
    core: &Core,
    who: &SessionId,
    expunges: bool,
) -> Result<Vec<Response>, AllocError> {
    match core.session(who) {
        Some(session) => {
            let options = NoticeOptions {
                expunges,
                qresync: session.enabled.qresync,
                condstore: session.enabled.condstore,
            };
            match &session.selected {
                Some(selected) => {
                    plain_lines(alloc, core.world(), selected, &options, who.user.as_str())
                }
                None => Err(AllocError),
            }
        }
        None => Err(AllocError),
    }
}

/// The lines as they are sent, and the end of a NOOP.
fn sent(alloc: Global, lines: Result<Vec<Response>, AllocError>) -> Result<Vec<u8>, AllocError> {
    let lines = lines?;
    let octets = print(alloc, lines.as_slice());
    drop(lines);
    let mut octets = octets?;
    octets.extend_from_slice(b"a OK done\r\n")?;
    Ok(octets)
}

/// What a NOOP of the session is to be answered.
fn wanted(alloc: Global, core: &Core, number: u32) -> Result<Vec<u8>, AllocError> {
    let who = session(alloc, ("ann", number))?;
    let lines = session_lines(alloc, core, &who, true);
    drop(who);
    sent(alloc, lines)
}

/// What the session would be answered now.
pub(crate) fn answer_of_copy(
    alloc: Global,
    core: &Core,
    at: At,
    act: Result<Act, AllocError>,
) -> Result<Vec<u8>, AllocError> {
    let mut copy = core.try_copy(alloc)?;
    let said = reply(alloc, &mut copy, at, act);
    drop(copy);
    said
}

// ---- in turns

/// Makes a step of a session. Returns how many octets all sessions are told by a NOOP of each then, or `None` where one
/// of them is told other ones.
fn turn(alloc: Global, core: &mut Core, turn: u32) -> Result<Option<usize>, AllocError> {
    let octets = COMMANDS.get(pick(turn, 1, 12)).ok_or(AllocError)?;
    let number = if pick(turn, 2, 2) == 0 { 1 } else { 2 };
    drop(reply(alloc, core, ("ann", number), act(alloc, octets))?);
    let mut count: usize = 0;
    for number in 1..4 {
        let (said, wanted) = both(
            answer_of_copy(alloc, core, ("ann", number), act(alloc, b"a NOOP\r\n")),
            wanted(alloc, core, number),
        )?;
        if said.as_slice() != wanted.as_slice() {
            return Ok(None);
        }
        count = count.saturating_add(said.len());
    }
    Ok(Some(count))
}

/// How many turns are as they should be, and how many octets are told in them.
fn count_turns(alloc: Global, core: &mut Core) -> Result<(u32, usize), AllocError> {
    begin(alloc, core)?;
    let mut count: usize = 0;
    for number in 0..500 {
        match turn(alloc, core, number)? {
            Some(octets) => count = count.saturating_add(octets),
            None => return Ok((number, count)),
        }
    }
    Ok((500, count))
}

fn counts(alloc: Global) -> Result<(u32, usize), AllocError> {
    let mut core = machine(alloc)?;
    let counts = count_turns(alloc, &mut core);
    drop(core);
    counts
}

/// Three sessions of one user have selected one mailbox, of which the third does nothing. More than 500 lines are told:
/// the ends of the commands alone are 16,500 octets.
#[test]
fn notices_are_found_by_comparing_lists(rt: HostRuntime) {
    let counts = counts(rt.alloc());
    assert!(rt;
        matches!(counts, Ok((500, count)) if count > 22_500),
        "{counts:?}"
    );
}
