//! Hosts that end with their seats.

ghost use Rattle.std.specs.Prelude.{◌≡◌};

use crate::hosts::{Posts, act, hall, make, new_host, posts};
use crate::owned::firsts;
use crate::serving::{IDLE_TICKS, Standing};
use imap_dialect::Standard;
use imap_host::{Host, PARTS, Seat, SettleError, crew};
use imap_keeper::Keeper;
use imap_limits::DEFAULT_LIMITS;
use imap_names::read_full;
use imap_serve::{Act, Hall, OpenGate};
use imap_world::World;
use std::alloc::{AllocError, Global};
use std::marker::Brand;
use std::sync::Wait;
use std::sync::ledger::{Blank, Ledger};
use std::thread::Threads;

/// With the steps in which a session opens and leaves these are ten calls.
const SENT: &[u8] =
    b"c CREATE Mine\r\nn NOOP\r\nn NOOP\r\nn NOOP\r\nn NOOP\r\nn NOOP\r\nn NOOP\r\nn NOOP\r\n";

/// What root and bob are each answered to LIST after that (RFC 9051, section 7.3.1): their own
/// mailboxes, and the one that both may look up.
const LISTED: &[u8] = b"* LIST (\\HasNoChildren) \"/\" INBOX\r\n\
* LIST (\\HasNoChildren) \"/\" Mine\r\n\
* LIST (\\HasNoChildren) \"/\" Shared/News\r\n\
l OK done\r\n";

/// What is done to the seats before the host ends.
#[derive(Clone, Copy, Debug, PartialEq, Eq)]
enum Fault {
    None,
    /// A seat is left out.
    Seat,
    /// A seat has lost its last receipt.
    Receipt,
    /// The first two receipts of a seat have changed their places.
    Order,
    /// The seats were told another base.
    Base,
}

/// How a host ended.
#[derive(Clone, Copy, Debug, PartialEq, Eq)]
struct Ending {
    /// How many entries its journal has.
    entries: usize,
    /// How many were made before.
    before: u64,
    /// Whether the journal's base has the world with which the hall was opened.
    is_opening: bool,
    /// How many of root and bob have the mailbox `Mine` in the base.
    mine: u32,
}

/// Four seats, through whose doors five clients come.
const POSTS: &[Posts] = &[
    ("root", 1, 5, SENT),
    ("bob", 1, 5, SENT),
    ("root", 1, 5, SENT),
    ("bob", 1, 5, SENT),
];

/// Twenty requests.
const TWENTY: &[u8] = b"n NOOP\r\nn NOOP\r\nn NOOP\r\nn NOOP\r\nn NOOP\r\nn NOOP\r\nn NOOP\r\n\
n NOOP\r\nn NOOP\r\nn NOOP\r\nn NOOP\r\nn NOOP\r\nn NOOP\r\nn NOOP\r\n\
n NOOP\r\nn NOOP\r\nn NOOP\r\nn NOOP\r\nn NOOP\r\nn NOOP\r\n";

/// Four users with 16 seats each, as many as may be open at once, through whose doors one client
/// each comes.
const MANY_POSTS: &[Posts] = &[
    ("ann", 16, 1, TWENTY),
    ("bob", 16, 1, TWENTY),
    ("cat", 16, 1, TWENTY),
    ("root", 16, 1, TWENTY),
];

/// The seats after their clients were served.
fn served<K: Keeper + Send, L: Ledger + Send + Sync, R: Threads + Wait + AllocGlobal + Sync>(
    rt: &R,
    host: &mut Host<K, L>,
    rows: &[Posts],
) -> Result<Vec<Seat<L>>, AllocError> {
    let mut posts = posts(rt.alloc(), host, rows)?;
    let slice = posts.as_mut_slice();
    let ran = crew(
        rt,
        rt.alloc(),
        host,
        slice,
        &Standing,
        &OpenGate,
        &Standard,
        DEFAULT_LIMITS.max_octets,
        IDLE_TICKS,
    );
    if ran.is_err() {
        drop(posts);
        return Err(AllocError);
    }
    firsts(rt.alloc(), posts)
}

/// Has the first seat begin the journal anew, and each seat make two calls after that. Returns how
/// many seats are answered `LISTED`.
fn go_on<K: Keeper, L: Ledger, R: Wait + AllocGlobal>(
    rt: &R,
    host: &Host<K, L>,
    seats: &mut [Seat<L>],
) -> u32 {
    if let [first, ..] = seats {
        let _turned = host.turn_over(rt, rt.alloc(), first);
    }
    let mut count: u32 = 0;
    for seat in seats {
        if lists(rt, host, seat) {
            count = count.saturating_add(1);
        }
    }
    count
}

/// Opens the seat's session, and asks for all mailboxes. Whether the answer is `LISTED`.
fn lists<K: Keeper, L: Ledger, R: Wait + AllocGlobal>(
    rt: &R,
    host: &Host<K, L>,
    seat: &mut Seat<L>,
) -> bool {
    drop(make(rt, host, seat, Ok(Act::Open)));
    match make(rt, host, seat, act(rt.alloc(), b"l LIST \"\" *\r\n")) {
        Some(text) => text.as_slice() == LISTED,
        None => false,
    }
}

/// Does this to the seats.
fn spoil<L: Ledger>(seats: &mut Vec<Seat<L>>, fault: Fault) {
    if fault == Fault::Seat {
        drop(seats.pop());
    }
    if fault == Fault::Base {
        for seat in seats.iter_mut() {
            seat.told_base = 199;
        }
    }
    if let Some(seat) = seats.last_mut() {
        spoil_seat(seat, fault);
    }
}

fn spoil_seat<L: Ledger>(seat: &mut Seat<L>, fault: Fault) {
    if fault == Fault::Receipt {
        drop(seat.receipts.pop_back());
    }
    if fault == Fault::Order && seat.receipts.len() > 1 {
        seat.receipts.swap(0, 1);
    }
}

/// The mailbox `Mine` of root and that of bob.
const MINE: &[&str] = &["Other Users/root/Mine", "Other Users/bob/Mine"];

/// How many of root and bob have the mailbox `Mine` in the world.
fn mine_in(alloc: Global, world: &World) -> u32 {
    let mut count: u32 = 0;
    for text in MINE {
        if let Ok(name) = read_full(alloc, text.as_bytes()) {
            if world.mailbox(&name.as_ref()).is_some() {
                count = count.saturating_add(1);
            }
        }
    }
    count
}

/// Whether it is the world with which a hall is opened.
fn is_opening(alloc: Global, world: &World) -> bool {
    match hall(alloc) {
        Ok(hall) => {
            let is_opening = world.same(hall.base().world());
            drop(hall);
            is_opening
        }
        Err(_) => false,
    }
}

/// How the host ends with these seats.
fn end<K: Keeper + Drop, L: Ledger>(
    alloc: Global,
    host: Host<K, L>,
    seats: Vec<Seat<L>>,
) -> Result<Ending, SettleError>
    requires { L.parts ≡ 1048576 }
{
    match host.settle(seats) {
        Ok(hall) => {
            let ending = ended_hall(alloc, &hall);
            drop(hall);
            Ok(ending)
        }
        Err((error, host, seats)) => {
            drop(host);
            drop(seats);
            Err(error)
        }
    }
}

fn ended_hall<K: Keeper>(alloc: Global, hall: &Hall<K>) -> Ending {
    let base = hall.base().world();
    Ending {
        entries: hall.entries().len(),
        before: hall.before(),
        is_opening: is_opening(alloc, base),
        mine: mine_in(alloc, base),
    }
}

/// How many seats of a new host are answered `LISTED`, and how it ends, after its clients were
/// served and this was done to its seats.
fn ended<L: Ledger + Send + Sync, R: Threads + Wait + AllocGlobal + Sync>(
    rt: &R,
    blank: Blank,
    rows: &[Posts],
    turns: bool,
    fault: Fault,
) -> Option<(u32, Result<Ending, SettleError>)>
    requires name { blank.name ≡ L.name }
    requires parts { (blank.parts ≡ L.parts) × (blank.parts ≡ 1048576) }
{
    match new_host::<L>(rt.alloc(), blank) {
        Ok(mut host) => {
            let seats = served(rt, &mut host, rows);
            ended_of(rt, host, seats, turns, fault)
        }
        Err(_) => None,
    }
}

fn ended_of<K: Keeper + Drop, L: Ledger, R: Wait + AllocGlobal>(
    rt: &R,
    host: Host<K, L>,
    seats: Result<Vec<Seat<L>>, AllocError>,
    turns: bool,
    fault: Fault,
) -> Option<(u32, Result<Ending, SettleError>)>
    requires { L.parts ≡ 1048576 }
{
    match seats {
        Ok(mut seats) => {
            let mut listed: u32 = 0;
            if turns {
                listed = go_on(rt, &host, seats.as_mut_slice());
            }
            spoil(&mut seats, fault);
            Some((listed, end(rt.alloc(), host, seats)))
        }
        Err(_) => {
            drop(host);
            None
        }
    }
}

/// Four seats of fifty calls each: with all of them the host ends, else it tells why not. After the
/// journal began anew each seat asks LIST once, and is answered with the mailbox that its user
/// created. Until then the base has the world of the opening, and later these mailboxes too. 64
/// sessions that are served side by side each open, ask twenty times and leave.
#[test]
fn a_host_ends_with_its_seats(rt: HostRuntime) {
    const FIRST: Ending = Ending {
        entries: 200,
        before: 0,
        is_opening: true,
        mine: 0,
    };
    const LATER: Ending = Ending {
        entries: 8,
        before: 200,
        is_opening: false,
        mine: 2,
    };
    const MANY: Ending = Ending {
        entries: 1408,
        ..FIRST
    };
    const ROWS: &[(&[Posts], bool, Fault, u32, Result<Ending, SettleError>)] = &[
        (POSTS, false, Fault::None, 0, Ok(FIRST)),
        (POSTS, true, Fault::None, 4, Ok(LATER)),
        (POSTS, false, Fault::Seat, 0, Err(SettleError::Missing)),
        (POSTS, true, Fault::Seat, 4, Err(SettleError::Missing)),
        (POSTS, true, Fault::Receipt, 4, Err(SettleError::Mismatch)),
        (POSTS, true, Fault::Order, 4, Err(SettleError::Mismatch)),
        (POSTS, true, Fault::Base, 4, Err(SettleError::Mismatch)),
        (MANY_POSTS, false, Fault::None, 0, Ok(MANY)),
    ];
    for &(posts, turns, fault, listed, wanted) in ROWS {
        let ended = ended::<Brand, HostRuntime>(&rt, Blank::new(PARTS), posts, turns, fault);
        assert!(rt;
            ended == Some((listed, wanted)),
            "{turns} {fault:?}: {ended:?}"
        );
    }
}
