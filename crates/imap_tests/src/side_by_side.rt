//! Sessions that are served at once.

ghost use Rattle.std.specs.Prelude.{◌≡◌};

use crate::hosts::{Posts, new_host, posts};
use crate::serving::{IDLE_TICKS, Standing};
use imap_dialect::Standard;
use imap_host::{Host, PARTS, crew};
use imap_keeper::Keeper;
use imap_limits::DEFAULT_LIMITS;
use imap_serve::{Entry, Gate, SessionId};
use std::marker::Brand;
use std::rt::Clock;
use std::sync::Wait;
use std::sync::atomic::{AtomicBool, AtomicU64, Ordering};
use std::sync::ledger::{Blank, Ledger};
use std::thread;
use std::thread::Threads;
use std::time::Duration;

/// Holds root's first request back until bob's second is answered, and bob's second until root's
/// first was held back once.
#[derive(Drop)]
struct Waiting<'a, R: Clock> {
    rt: &'a R,
    /// The number of bob's request that was answered last.
    answered: AtomicU64,
    /// Whether root's first request was held back.
    is_held: AtomicBool,
    /// Whether it was let through when the gate was asked last.
    is_open: AtomicBool,
}

impl<'a, R: Clock> Waiting<'a, R> {
    fn open_root(&self) -> bool {
        thread::sleep(self.rt, Duration::from_millis(1));
        let is_open = self.answered.load(Ordering::SeqCst) == 2;
        if !is_open {
            self.is_held.store(true, Ordering::SeqCst);
        }
        self.is_open.store(is_open, Ordering::SeqCst);
        is_open
    }
}

impl<'a, R: Clock> Gate for Waiting<'a, R> {
    fn open(&self, who: &SessionId, call: u64) -> bool {
        match (who.user.as_str(), call) {
            ("root", 1) => self.open_root(),
            ("bob", 2) => {
                thread::sleep(self.rt, Duration::from_millis(1));
                self.is_held.load(Ordering::SeqCst)
            }
            _ => true,
        }
    }

    fn answered(&self, who: &SessionId, call: u64) {
        if who.user.as_str() == "bob" {
            self.answered.store(call, Ordering::SeqCst);
        }
    }
}

/// One client for root, who sends one request, and one for bob, who sends two.
const TWO_POSTS: &[Posts] = &[
    ("root", 1, 1, b"a1 NOOP\r\n"),
    ("bob", 1, 1, b"b1 NOOP\r\nb2 NOOP\r\n"),
];

/// Whether root's first request was held back, and then let through by the answer to bob's second.
fn waits<K: Keeper + Send, L: Ledger + Send + Sync, R: Threads + Wait + Clock + AllocGlobal + Sync>(
    rt: &R,
    host: &mut Host<K, L>,
) -> bool {
    let gate = Waiting {
        rt,
        answered: AtomicU64::new(0),
        is_held: AtomicBool::new(false),
        is_open: AtomicBool::new(false),
    };
    let Ok(mut posts) = posts(rt.alloc(), host, TWO_POSTS) else {
        return false;
    };
    let posts = posts.as_mut_slice();
    let ran = crew(
        rt,
        rt.alloc(),
        host,
        posts,
        &Standing,
        &gate,
        &Standard,
        DEFAULT_LIMITS.max_octets,
        IDLE_TICKS,
    );
    ran.is_ok() && gate.is_held.load(Ordering::SeqCst) && gate.is_open.load(Ordering::SeqCst)
}

/// Whether the entry of root's first request follows that of bob's second. The first entry of a
/// session is that of its Open.
fn is_in_order(entries: &[Entry]) -> bool {
    let mut is_answered = false;
    for entry in entries {
        let user = entry.step.who.user.as_str();
        if user == "bob" && entry.own == 3 {
            is_answered = true;
        }
        if user == "root" && entry.own == 2 {
            return is_answered;
        }
    }
    false
}

/// The same in a new host, then whether its journal has that order, and how many steps were made.
fn waited<L: Ledger + Send + Sync, R: Threads + Wait + Clock + AllocGlobal + Sync>(
    rt: &R,
    blank: Blank,
) -> (bool, bool, u64)
    requires name { blank.name ≡ L.name }
    requires parts { (blank.parts ≡ L.parts) × (blank.parts ≡ 1048576) }
{
    match new_host::<L>(rt.alloc(), blank) {
        Ok(mut host) => {
            let waits = waits(rt, &mut host);
            let hall = host.into_hall();
            let (is_in_order, count) = (is_in_order(hall.entries()), hall.count());
            drop(hall);
            (waits, is_in_order, count)
        }
        Err(_) => (false, false, 0),
    }
}

/// Call 1 of root is held back until call 2 of bob is answered. The sessions open, ask and leave.
#[test]
fn sessions_run_side_by_side(rt: HostRuntime) {
    let waited = waited::<Brand, HostRuntime>(&rt, Blank::new(PARTS));
    assert!(rt; waited == (true, true, 7), "{waited:?}");
}
