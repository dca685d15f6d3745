//! What a session may do.

ghost use Rattle.std.specs.Prelude.{◌≡◌, ◌↔◌, IfOk, IsTrue};

use imap_answer::Moment;
use imap_grammar::Request;
use imap_sessions::SessionId;
use imap_values::{Same, TryCopy};
use std::alloc::{AllocError, Global};

/// What a session does in one step.
pub enum Act {
    /// The connection is made.
    Open,
    /// A command has come whole.
    Do(Request),
    /// The client may be told something.
    Poll,
    /// The line that ends IDLE (RFC 2177).
    Done,
    /// The connection is gone.
    Leave,
}

// Not derived: a derived one is proved anew in each crate that lets go of one.
impl Drop for Act {
    fn drop(self) {
        match self {
            Act::Do(value) => drop(value),
            Act::Open | Act::Poll | Act::Done | Act::Leave => {}
        }
    }
}

impl TryCopy for Act {
    fn try_copy(&self, alloc: Global) -> Result<Act, AllocError> {
        match self {
            Act::Open => Ok(Act::Open),
            Act::Do(request) => Ok(Act::Do(request.try_copy(alloc)?)),
            Act::Poll => Ok(Act::Poll),
            Act::Done => Ok(Act::Done),
            Act::Leave => Ok(Act::Leave),
        }
    }
}

impl Same for Act {
    fn is_same(&self, other: &Act) -> bool {
        match (self, other) {
            (Act::Open, Act::Open)
            | (Act::Poll, Act::Poll)
            | (Act::Done, Act::Done)
            | (Act::Leave, Act::Leave) => true,
            (Act::Do(request), Act::Do(other)) => request.is_same(other),
            _ => false,
        }
    }
}

/// One act of one session.
pub struct Step {
    pub who: SessionId,
    pub at: Moment,
    pub act: Act,
}

// Not derived: a derived one is proved anew in each crate that lets go of one.
impl Drop for Step {
    fn drop(self) {
        let Step {
            who: _,
            at: _,
            act: _,
        } = self;
    }
}

impl Step {
    /// Returns an equal copy. It shares the texts of names and the octets of the request.
    pub fn try_copy(&self, alloc: Global) -> Result<Step, AllocError>
        ensures { IfOk result (λ copy. copy ≡ self.now) }
    {
        let who = self.who.try_copy()?;
        let act = self.act.try_copy(alloc)?;
        Ok(Step {
            who,
            at: self.at,
            act,
        })
    }

    /// Whether both are the same step.
    pub fn is_same(&self, other: &Step) -> bool
        ensures { IsTrue result ↔ (self.now ≡ other.now) }
    {
        self.who.is_same(&other.who) && self.at.is_same(&other.at) && self.act.is_same(&other.act)
    }
}
