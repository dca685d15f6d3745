//! A store that refuses.

use crate::connection::WHOLE;
use crate::hosts::user;
use crate::serving::{ends_with_leave, expect_after_greeting, serve_in, shown, with_entries};
use imap_keeper::{Keeper, ListKeeper, Refuser};
use imap_limits::DEFAULT_LIMITS;
use imap_rights::Groups;
use imap_serve::{Hall, OpenError, OpenGate};
use imap_world::World;
use std::alloc::{AllocError, Global};
use std::sync::Wait;

/// A new host whose store passes on this many saves.
fn hall(alloc: Global, saves: u64) -> Result<Hall<Refuser<ListKeeper>>, OpenError> {
    let administrator = user(alloc, "ann")?;
    let keeper = Refuser::new(ListKeeper::new(World::new(alloc)), saves);
    let groups = Groups::new(alloc);
    match Hall::open(alloc, keeper, administrator, &[], groups, DEFAULT_LIMITS) {
        Ok(hall) => Ok(hall),
        Err((error, keeper)) => {
            drop(keeper.release());
            Err(error)
        }
    }
}

/// Why the host doesn't open.
fn opening(alloc: Global, saves: u64) -> Option<OpenError> {
    match hall(alloc, saves) {
        Ok(hall) => {
            drop(hall.into_keeper().release());
            None
        }
        Err(error) => Some(error),
    }
}

/// What a session is told, and how many entries the journal has.
fn told<W: Wait + AllocGlobal>(rt: &W, text: &[u8]) -> Result<Vec<u8>, AllocError> {
    let Ok(mut hall) = hall(rt.alloc(), 1) else {
        return Err(AllocError);
    };
    let served = serve_in(rt, &mut hall, &OpenGate, text, WHOLE);
    let count = hall.count();
    let has_left = ends_with_leave(&hall);
    drop(hall.into_keeper().release());
    with_entries(rt.alloc(), shown(rt.alloc(), served), count, has_left)
}

const SENT: &[u8] = b"a1 CREATE Box\r\na2 LIST \"\" Box\r\na3 CREATE Shared\r\n";

const WRITTEN: &[u8] = b"a1 NO [UNAVAILABLE] store refused\r\na2 OK done\r\n\
a3 NO [CANNOT] not possible\r\nOk(InputEnded) 5 true";

/// The INBOX is saved when the host opens.
#[test]
fn a_store_refuses(rt: HostRuntime) {
    expect_after_greeting(&rt, told(&rt, SENT), WRITTEN);
    assert!(rt; opening(rt.alloc(), 0) == Some(OpenError::Store));
}
