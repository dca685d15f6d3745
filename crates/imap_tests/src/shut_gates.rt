//! Gates that hold requests back.

use crate::connection::WHOLE;
use crate::serving::{new_hall, serve_in};
use imap_serve::{Gate, SessionId};
use std::alloc::AllocError;
use std::sync::Wait;
use std::sync::atomic::{AtomicU64, Ordering};

/// It never opens, and notes what it is asked and told.
#[derive(Drop)]
struct Shut {
    asked: AtomicU64,
    answered: AtomicU64,
}

impl Gate for Shut {
    fn open(&self, _who: &SessionId, call: u64) -> bool {
        self.asked.fetch_add(call, Ordering::SeqCst);
        false
    }

    fn answered(&self, _who: &SessionId, call: u64) {
        self.answered.fetch_add(call, Ordering::SeqCst);
    }
}

/// The numbers of the requests added up, once for each time that the gate was asked, and once for each
/// answer.
fn noted<W: Wait + AllocGlobal>(rt: &W, text: &[u8]) -> Result<(u64, u64), AllocError> {
    let gate = Shut {
        asked: AtomicU64::new(0),
        answered: AtomicU64::new(0),
    };
    let mut hall = new_hall(rt.alloc())?;
    let served = serve_in(rt, &mut hall, &gate, text, WHOLE);
    drop(hall);
    drop(served?);
    Ok((
        gate.asked.load(Ordering::SeqCst),
        gate.answered.load(Ordering::SeqCst),
    ))
}

/// A request goes on after the gate was asked 1,000 times.
#[test]
fn a_gate_holds_back(rt: HostRuntime) {
    assert!(rt; noted(&rt, b"a1 NOOP\r\na2 NOOP\r\n") == Ok((3000, 3)));
}
