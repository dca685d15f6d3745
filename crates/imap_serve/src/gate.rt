//! Gates, which may hold requests back.

ghost use Rattle.std.specs.Prelude.{◌≡◌, ◌+◌, ◌-◌, ◌^◌, ◌≤◌, min};
ghost use Rattle.imap_serve.specs.Asked.{max_asks};

use imap_hall::SessionId;

/// How many times a gate is asked at most. After that the request goes on.
const MAX_ASKS: u32 = 1000;

/// Is asked before each request, and hears that its reply was written. `call` is the number of the request among
/// those of the connection, from 1.
pub trait Gate {
    /// Whether the request may be handed to the room.
    fn open(&self, who: &SessionId, call: u64) -> bool;

    /// The reply to the request was written.
    fn answered(&self, who: &SessionId, call: u64);
}

/// Holds nothing back.
#[derive(Clone, Copy)]
pub struct OpenGate;

impl Gate for OpenGate {
    fn open(&self, _who: &SessionId, _call: u64) -> bool {
        true
    }

    fn answered(&self, _who: &SessionId, _call: u64) {}
}

/// Asks the gate until it lets the request through, at most [`MAX_ASKS`] times. Returns how often it was asked.
pub(crate) fn wait_for<G: Gate>(gate: &G, who: &SessionId, call: u64) -> u32
    ensures { result ≤ max_asks }
{
    let mut asked = 0;
    for _ in 0..MAX_ASKS {
        if ask(gate, who, call, &mut asked) {
            return asked;
        }
    }
    asked
}

/// Asks the gate once, and counts that.
fn ask<G: Gate>(gate: &G, who: &SessionId, call: u64, asked: &mut u32) -> bool
    ensures { asked.new ≡ min (asked.old + 1) (2 ^ 32 - 1) }
{
    *asked = asked.saturating_add(1);
    gate.open(who, call)
}
