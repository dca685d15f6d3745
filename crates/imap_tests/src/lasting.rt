//! Sessions that last.

ghost use Rattle.std.specs.Prelude.{◌≡◌};

use crate::hosts::{make, new_host, seat};
use imap_host::{Host, PARTS};
use imap_keeper::Keeper;
use imap_serve::Act;
use std::marker::Brand;
use std::sync::Wait;
use std::sync::ledger::{Blank, Ledger};

const CALLS: u32 = 30_000;

/// How many receipts a seat of root keeps at most while it makes `CALLS` calls.
fn most_kept<K: Keeper, L: Ledger, R: Wait + AllocGlobal>(rt: &R, host: &mut Host<K, L>) -> usize {
    let Ok(mut seat) = seat(rt.alloc(), host, "root") else {
        return 0;
    };
    let mut most = 0;
    for _ in 0..CALLS {
        drop(make(rt, host, &mut seat, Ok(Act::Poll)));
        most = most.max(seat.receipts.len());
    }
    drop(seat);
    most
}

/// The same in a new host, then how many steps were made, and how many entries the journal has.
fn kept<L: Ledger, R: Wait + AllocGlobal>(rt: &R, blank: Blank) -> (usize, u64, usize)
    requires name { blank.name ≡ L.name }
    requires parts { (blank.parts ≡ L.parts) × (blank.parts ≡ 1048576) }
{
    match new_host::<L>(rt.alloc(), blank) {
        Ok(mut host) => {
            let most = most_kept(rt, &mut host);
            let hall = host.into_hall();
            let counts = (most, hall.count(), hall.entries().len());
            drop(hall);
            counts
        }
        Err(_) => (0, 0, 0),
    }
}

/// The journal begins anew after 10,000 entries at the latest, and the seat lets go of receipts with it.
#[test]
fn receipts_do_not_grow(rt: HostRuntime) {
    let (most, count, left) = kept::<Brand, HostRuntime>(&rt, Blank::new(PARTS));
    assert!(rt;
        most <= 10_000 && count == 30_000 && left < 10_000,
        "{most} {count} {left}"
    );
}
