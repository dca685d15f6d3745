//! What sessions are told after each step of short scenes, beside what is found by comparing whole lists.

use crate::hosts::{act, user, users};
use crate::notices::{At, answer_of_copy, first, reply, session, session_lines};
use crate::owned::{both, second};
use imap_limits::DEFAULT_LIMITS;
use imap_names::UserName;
use imap_print::{Response, print};
use imap_rights::Groups;
use imap_script::Scenario;
use imap_serve::{Act, Core};
use imap_world::World;
use std::alloc::{AllocError, Global};

/// The mailboxes at the start of each scene.
const MAILBOXES: &[u8] = b"admin root\n\
mailbox Shared/News\nacl anyone lrs\nacl root lrswipkxtea\n\
mailbox Shared/Daily\nacl bob lr\nacl root lrswipkxtea\n\
mailbox Shared/Moved\nacl bob lrswit\nacl root lrswipkxtea\n";

/// The sessions of each scene.
const SESSIONS: &[At] = &[("ann", 1), ("ann", 2), ("bob", 1), ("root", 1)];

/// Octets that a session sends.
type Deed = (At, &'static [u8]);

const ANN: At = ("ann", 1);

const ANN_AGAIN: At = ("ann", 2);

const BOB: At = ("bob", 1);

const ROOT: At = ("root", 1);

/// A mailbox of ten messages, of which bob has seen all.
const SEEN: &[Deed] = &[
    (ROOT, b"a APPEND Shared/News {5+}\r\nhello\r\n"),
    (ROOT, b"a APPEND Shared/News {5+}\r\nhello\r\n"),
    (ROOT, b"a APPEND Shared/News {5+}\r\nhello\r\n"),
    (ANN, b"a SELECT Shared/News\r\n"),
    (BOB, b"a SELECT Shared/News\r\n"),
    (ROOT, b"a SELECT Shared/News\r\n"),
    (ROOT, b"a APPEND Shared/News {5+}\r\nhello\r\n"),
    (ROOT, b"a APPEND Shared/News {5+}\r\nhello\r\n"),
    (ROOT, b"a APPEND Shared/News {5+}\r\nhello\r\n"),
    (ROOT, b"a APPEND Shared/News {5+}\r\nhello\r\n"),
    (ROOT, b"a APPEND Shared/News {5+}\r\nhello\r\n"),
    (ROOT, b"a APPEND Shared/News {5+}\r\nhello\r\n"),
    (ROOT, b"a APPEND Shared/News {5+}\r\nhello\r\n"),
    (BOB, b"a NOOP\r\n"),
    (BOB, b"a STORE 1:10 +FLAGS.SILENT (\\Seen)\r\n"),
    (ANN, b"a STATUS Shared/News (HIGHESTMODSEQ)\r\n"),
    (BOB, b"a STATUS Shared/News (HIGHESTMODSEQ)\r\n"),
    (BOB, b"a STORE 3:5 -FLAGS (\\Seen)\r\n"),
];

/// A message that one session expunges, and another one still counts.
const EXPUNGED: &[Deed] = &[
    (ANN, b"a APPEND INBOX {5+}\r\nhello\r\n"),
    (ANN, b"a APPEND INBOX {5+}\r\nhello\r\n"),
    (ANN, b"a APPEND INBOX {5+}\r\nhello\r\n"),
    (ANN, b"a SELECT INBOX\r\n"),
    (ANN_AGAIN, b"a SELECT INBOX\r\n"),
    (ANN_AGAIN, b"a STORE 2 +FLAGS.SILENT (\\Deleted)\r\n"),
    (ANN_AGAIN, b"a EXPUNGE\r\n"),
    (ANN, b"a FETCH 2 FLAGS\r\n"),
    (ANN, b"a FETCH 3 FLAGS\r\n"),
    (ANN, b"a NOOP\r\n"),
];

/// Flags that are stored only where no other session changed the message since (RFC 7162, section 3.1.3).
const UNCHANGED: &[Deed] = &[
    (ANN, b"a APPEND INBOX {5+}\r\nhello\r\n"),
    (ANN, b"a APPEND INBOX {5+}\r\nhello\r\n"),
    (ANN, b"a APPEND INBOX {5+}\r\nhello\r\n"),
    (ANN, b"a SELECT INBOX\r\n"),
    (ANN_AGAIN, b"a SELECT INBOX\r\n"),
    (ANN, b"a STORE 1 +FLAGS (\\Flagged)\r\n"),
    (ANN, b"a STORE 2 +FLAGS (\\Flagged)\r\n"),
    (
        ANN,
        b"a STORE 1:3 (UNCHANGEDSINCE 5) +FLAGS (\\Answered)\r\n",
    ),
    (ANN, b"a STORE 1:3 (UNCHANGEDSINCE 0) +FLAGS (\\Draft)\r\n"),
    (ANN_AGAIN, b"a NOOP\r\n"),
];

/// A right that is given back while its user idles.
const GIVEN_BACK: &[Deed] = &[
    (ROOT, b"a APPEND Shared/Daily {5+}\r\nhello\r\n"),
    (BOB, b"a SELECT Shared/Daily\r\n"),
    (BOB, b"a IDLE\r\n"),
    (ROOT, b"a APPEND Shared/Daily {5+}\r\nhello\r\n"),
    (ROOT, b"a SETACL Shared/Daily bob l\r\n"),
    (ROOT, b"a APPEND Shared/Daily {5+}\r\nhello\r\n"),
    (ROOT, b"a SETACL Shared/Daily bob lr\r\n"),
];

/// A right that is lost.
const LOST: &[Deed] = &[
    (BOB, b"a SELECT Shared/Daily\r\n"),
    (BOB, b"a IDLE\r\n"),
    (ROOT, b"a SETACL Shared/Daily bob l\r\n"),
];

/// A mailbox that goes.
const DELETED: &[Deed] = &[
    (BOB, b"a SELECT Shared/Daily\r\n"),
    (BOB, b"a IDLE\r\n"),
    (ROOT, b"a DELETE Shared/Daily\r\n"),
];

/// Messages that are moved once a right is given.
const MOVED: &[Deed] = &[
    (ROOT, b"a APPEND Shared/Moved {5+}\r\nhello\r\n"),
    (ROOT, b"a APPEND Shared/Moved {5+}\r\nhello\r\n"),
    (BOB, b"a SELECT Shared/Moved\r\n"),
    (ROOT, b"a SELECT Shared/Moved\r\n"),
    (BOB, b"a MOVE 1:2 INBOX\r\n"),
    (ROOT, b"a SETACL Shared/Moved bob +e\r\n"),
    (BOB, b"a MOVE 1:2 INBOX\r\n"),
    (BOB, b"a SELECT INBOX\r\n"),
    (BOB, b"a UID FETCH 1:* FLAGS\r\n"),
];

/// The machine of ann, bob and root over the mailboxes.
fn machine(alloc: Global) -> Result<Core, AllocError> {
    let users = users(alloc, &["ann", "bob"]);
    let (users, world) = both(users, world(alloc))?;
    let core = opened(alloc, world, users.as_slice());
    drop(users);
    core
}

fn world(alloc: Global) -> Result<World, AllocError> {
    match Scenario::read(alloc, MAILBOXES) {
        Ok(read) => Ok(second(read)),
        Err(_) => Err(AllocError),
    }
}

fn opened(alloc: Global, world: World, users: &[UserName]) -> Result<Core, AllocError> {
    let (administrator, world) = both(user(alloc, "root"), Ok(world))?;
    let groups = Groups::new(alloc);
    first(Core::open(alloc, world, administrator, users, groups, DEFAULT_LIMITS))
}

/// What is found of a session by comparing whole lists, as it is sent: after these octets, and before the end of its
/// command.
fn wanted(
    alloc: Global,
    core: &Core,
    at: At,
    before: &[u8],
    expunges: bool,
    end: &[u8],
) -> Result<Vec<u8>, AllocError> {
    let who = session(alloc, at)?;
    let lines = session_lines(alloc, core, &who, expunges);
    drop(who);
    sent(alloc, before, lines, end)
}

fn sent(
    alloc: Global,
    before: &[u8],
    lines: Result<Vec<Response>, AllocError>,
    end: &[u8],
) -> Result<Vec<u8>, AllocError> {
    let lines = lines?;
    let octets = print(alloc, lines.as_slice());
    drop(lines);
    joined(alloc, before, octets, end)
}

fn joined(
    alloc: Global,
    before: &[u8],
    octets: Result<Vec<u8>, AllocError>,
    end: &[u8],
) -> Result<Vec<u8>, AllocError> {
    let octets = octets?;
    let mut all = Vec::new(alloc);
    all.extend_from_slice(before)?;
    all.extend_from_slice(octets.as_slice())?;
    all.extend_from_slice(end)?;
    Ok(all)
}

/// What a session has to compare.
#[derive(Clone, Copy, PartialEq, Eq)]
enum Rest {
    /// No mailbox is selected.
    Nothing,
    Selected,
    /// It idles, and so is told at a poll.
    Idling,
    /// It has lost its mailbox.
    Lost,
}

const BYE: &[u8] = b"* BYE selected mailbox is no longer available\r\n";

fn rest_of(alloc: Global, core: &Core, at: At) -> Result<Rest, AllocError> {
    let who = session(alloc, at)?;
    let rest = match core.session(&who) {
        Some(session) => match (&session.selected, &session.idle) {
            (Some(_), Some(_)) => Rest::Idling,
            (Some(_), None) => Rest::Selected,
            (None, _) => Rest::Nothing,
        },
        None => Rest::Nothing,
    };
    drop(who);
    Ok(rest)
}

/// Whether both were made, and are the same.
fn are_same(both: Result<(Vec<u8>, Vec<u8>), AllocError>) -> bool {
    match both {
        Ok((said, wanted)) => said.as_slice() == wanted.as_slice(),
        Err(_) => false,
    }
}

/// Whether the session is told at NOOP, and at a SEARCH, which may not tell of expunges, or at a poll if it idles, what
/// is found by comparing whole lists.
fn is_told(alloc: Global, core: &Core, at: At, rest: Rest) -> bool {
    match rest {
        Rest::Nothing => true,
        Rest::Selected => {
            is_answered(alloc, core, at, b"a NOOP\r\n", b"", true)
                && is_answered(
                    alloc,
                    core,
                    at,
                    b"a SEARCH RETURN (COUNT) NOT ALL\r\n",
                    b"* ESEARCH (TAG \"a\") COUNT 0\r\n",
                    false,
                )
        }
        Rest::Idling => are_same(both(
            answer_of_copy(alloc, core, at, Ok(Act::Poll)),
            wanted(alloc, core, at, b"", true, b""),
        )),
        Rest::Lost => match answer_of_copy(alloc, core, at, Ok(Act::Poll)) {
            Ok(said) => said.as_slice() == BYE,
            Err(_) => false,
        },
    }
}

fn is_answered(
    alloc: Global,
    core: &Core,
    at: At,
    asked: &[u8],
    before: &[u8],
    expunges: bool,
) -> bool {
    are_same(both(
        answer_of_copy(alloc, core, at, act(alloc, asked)),
        wanted(alloc, core, at, before, expunges, b"a OK done\r\n"),
    ))
}

/// Opens the sessions, and enables QRESYNC in each if `qresync`.
fn begin(alloc: Global, core: &mut Core, qresync: bool) -> Result<(), AllocError> {
    for &at in SESSIONS {
        drop(reply(alloc, core, at, Ok(Act::Open))?);
        if qresync {
            drop(reply(alloc, core, at, act(alloc, b"a ENABLE QRESYNC\r\n"))?);
        }
    }
    Ok(())
}

/// After how many of the deeds all sessions are told what is found by comparing whole lists, from the first on. bob has
/// lost his mailbox after the deeds of which `lost` has the place.
fn told_after(alloc: Global, core: &mut Core, deeds: &[Deed], lost: &[usize]) -> usize {
    for (place, &(at, octets)) in deeds.iter().enumerate() {
        let said = reply(alloc, core, at, act(alloc, octets));
        if said.is_err() || !are_told(alloc, core, lost.contains(&place)) {
            return place;
        }
    }
    deeds.len()
}

/// Whether each session is told what is found by comparing whole lists.
fn are_told(alloc: Global, core: &Core, lost: bool) -> bool {
    for &at in SESSIONS {
        let rest = match rest_of(alloc, core, at) {
            Ok(Rest::Idling) if lost => Rest::Lost,
            Ok(rest) => rest,
            Err(_) => return false,
        };
        if !is_told(alloc, core, at, rest) {
            return false;
        }
    }
    true
}

/// After how many deeds of a new machine all is told.
fn scene(alloc: Global, deeds: &[Deed], lost: &[usize], qresync: bool) -> Option<usize> {
    match machine(alloc) {
        Ok(mut core) => {
            let begun = begin(alloc, &mut core, qresync);
            let count = told_after(alloc, &mut core, deeds, lost);
            drop(core);
            begun.ok().map(|_| count)
        }
        Err(_) => None,
    }
}

/// After each step each session is told what is found by comparing whole lists, with QRESYNC and without, where
/// expunges may be told and where not.
#[test]
fn scenes_are_told_as_lists_differ(rt: HostRuntime) {
    const SCENES: &[(&[Deed], &[usize])] = &[
        (SEEN, &[]),
        (EXPUNGED, &[]),
        (UNCHANGED, &[]),
        (GIVEN_BACK, &[4, 5]),
        (LOST, &[2]),
        (DELETED, &[2]),
        (MOVED, &[]),
    ];
    for &(deeds, lost) in SCENES {
        for qresync in [false, true] {
            let count = scene(rt.alloc(), deeds, lost, qresync);
            assert!(rt; count == Some(deeds.len()), "{qresync}: {count:?}");
        }
    }
}
