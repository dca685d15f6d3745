//! Hosts and seats.

ghost use Rattle.std.specs.Prelude.{◌≡◌, IfOk};
ghost use Rattle.imap_serve.specs.Hall.{IsFresh};

use crate::doors::Clients;
use crate::owned::{both, push, push_beside, second};
use imap_grammar::parse;
use imap_host::{Desk, Host, Seat};
use imap_keeper::{Keeper, ListKeeper};
use imap_lex::Octets;
use imap_limits::DEFAULT_LIMITS;
use imap_names::UserName;
use imap_print::print;
use imap_rights::Groups;
use imap_script::Scenario;
use imap_serve::{Act, Hall, Moment, Receipt, Room, Step};
use imap_world::World;
use std::alloc::{AllocError, Global};
use std::sync::Wait;
use std::sync::ledger::{Blank, Ledger};

pub(crate) fn user(alloc: Global, text: &str) -> Result<UserName, AllocError> {
    UserName::read(alloc, text)?.ok_or(AllocError)
}

pub(crate) fn users(alloc: Global, texts: &[&str]) -> Result<Vec<UserName>, AllocError> {
    let mut users = Vec::new(alloc);
    for text in texts {
        push(&mut users, user(alloc, text))?;
    }
    Ok(users)
}

/// Shared/News, on which bob has `lr` and root all rights.
const MAILBOXES: &[u8] = b"admin root\nmailbox Shared/News\nacl bob lr\nacl root lrswipkxtea\n";

/// A world with that mailbox.
fn world(alloc: Global) -> Result<World, AllocError> {
    match Scenario::read(alloc, MAILBOXES) {
        Ok(read) => Ok(second(read)),
        Err(_) => Err(AllocError),
    }
}

/// A hall over that world, of ann, bob and cat, and of root, who is the administrator.
pub(crate) fn hall(alloc: Global) -> Result<Hall<ListKeeper>, AllocError>
    ensures fresh { IfOk result IsFresh }
{
    let users = users(alloc, &["ann", "bob", "cat"]);
    let (users, world) = both(users, world(alloc))?;
    let hall = opened(alloc, world, "root", users.as_slice());
    drop(users);
    hall
}

/// A hall over this world, of these users and of the administrator.
pub(crate) fn opened(
    alloc: Global,
    world: World,
    administrator: &str,
    users: &[UserName],
) -> Result<Hall<ListKeeper>, AllocError>
    ensures fresh { IfOk result IsFresh }
{
    let (administrator, world) = both(user(alloc, administrator), Ok(world))?;
    let keeper = ListKeeper::new(world);
    let groups = Groups::new(alloc);
    match Hall::open(alloc, keeper, administrator, users, groups, DEFAULT_LIMITS) {
        Ok(hall) => Ok(hall),
        Err(refused) => {
            drop(refused);
            Err(AllocError)
        }
    }
}

/// A host over the hall of ann, bob, cat and root.
pub(crate) fn new_host<L: Ledger>(
    alloc: Global,
    blank: Blank,
) -> Result<Host<ListKeeper, L>, AllocError>
    requires name { blank.name ≡ L.name }
    requires parts { (blank.parts ≡ L.parts) × (blank.parts ≡ 1048576) }
{
    match hall(alloc) {
        Ok(hall) => Ok(Host::new(alloc, hall, blank)),
        Err(error) => Err(error),
    }
}

pub(crate) fn seat<K: Keeper, L: Ledger>(
    alloc: Global,
    host: &mut Host<K, L>,
    text: &str,
) -> Result<Seat<L>, AllocError> {
    let user = user(alloc, text)?;
    match host.seat(alloc, user) {
        Ok(seat) => Ok(seat),
        Err(_) => Err(AllocError),
    }
}

pub(crate) fn act(alloc: Global, text: &[u8]) -> Result<Act, AllocError> {
    let octets = Octets::from_slice(alloc, text)?;
    let request = parse(alloc, &octets);
    drop(octets);
    Ok(Act::Do(request?))
}

/// A step of the seat's session.
fn step_of<L: Ledger>(seat: &Seat<L>, act: Result<Act, AllocError>) -> Result<Step, AllocError> {
    let (who, act) = both(seat.who.try_copy(), act)?;
    Ok(Step {
        who,
        at: Moment::epoch(),
        act,
    })
}

/// Makes an act of the seat's session. Returns the text of the replies, or `None` if it wasn't made.
pub(crate) fn make<K: Keeper, L: Ledger, R: Wait + AllocGlobal>(
    rt: &R,
    host: &Host<K, L>,
    seat: &mut Seat<L>,
    act: Result<Act, AllocError>,
) -> Option<Vec<u8>> {
    match step_of(seat, act) {
        Ok(step) => {
            let mut desk = Desk { rt, host, seat };
            let made = desk.step(rt.alloc(), &step);
            drop(step);
            told(rt.alloc(), made.ok())
        }
        Err(_) => None,
    }
}

fn told(alloc: Global, receipt: Option<Receipt>) -> Option<Vec<u8>> {
    let receipt = receipt?;
    let text = print(alloc, receipt.replies.as_slice());
    drop(receipt);
    text.ok()
}

/// A user, how many seats the user has, how many clients come through the door of each, and what these send.
pub(crate) type Posts = (&'static str, u32, u32, &'static [u8]);

/// Seats with doors through which clients come.
pub(crate) fn posts<K: Keeper, L: Ledger>(
    alloc: Global,
    host: &mut Host<K, L>,
    rows: &[Posts],
) -> Result<Vec<(Seat<L>, Clients)>, AllocError> {
    let mut posts = Vec::new(alloc);
    let pushed = push_posts(alloc, host, rows, &mut posts);
    let (_, posts) = both(pushed, Ok(posts))?;
    Ok(posts)
}

fn push_posts<K: Keeper, L: Ledger>(
    alloc: Global,
    host: &mut Host<K, L>,
    rows: &[Posts],
    posts: &mut Vec<(Seat<L>, Clients)>,
) -> Result<(), AllocError> {
    for &(user, seats, left, text) in rows {
        for _ in 0..seats {
            push_beside(posts, seat(alloc, host, user), Clients { left, text })?;
        }
    }
    Ok(())
}

/// A seat of the user with this door.
pub(crate) fn post<K: Keeper, L: Ledger, D: Drop>(
    alloc: Global,
    host: &mut Host<K, L>,
    text: &str,
    door: D,
) -> Result<Vec<(Seat<L>, D)>, AllocError> {
    let mut posts = Vec::new(alloc);
    let pushed = push_beside(&mut posts, seat(alloc, host, text), door);
    let (_, posts) = both(pushed, Ok(posts))?;
    Ok(posts)
}
