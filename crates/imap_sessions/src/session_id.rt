//! The names of sessions.

ghost use Rattle.std.specs.Prelude.{◌≡◌, ◌≤◌, ◌↔◌, IfOk, IsTrue, MatchOption};

use imap_names::UserName;
use std::alloc::AllocError;
use std::marker::Model;

/// The number of a session, from 1. Each user's sessions have numbers of their own.
#[derive(Clone, Copy, PartialEq, Eq)]
pub struct SessionNumber {
    number: u32,
}

impl Model for SessionNumber {
    ghost use Rattle.std.specs.Prelude.{ℕ, ◌≤◌};

    ghost Value = { ℕ };

    ghost view = { λ n. n.number };

    ghost invariant = { λ n. 1 ≤ n.number };

    ghost inverse = { λ n. record { number = n } };
}

impl SessionNumber {
    /// `None` for 0.
    pub fn new(number: u32) -> Option<SessionNumber>
        ensures { MatchOption result (number ≡ 0) (λ session. session ≡ number) }
    {
        if number == 0 {
            return None;
        }
        Some(SessionNumber { number })
    }

    /// The number, at least 1.
    pub fn get(self) -> u32
        ensures value { result ≡ self }
        ensures from_one { 1 ≤ self }
    {
        self.number
    }
}

/// A session of a user.
pub struct SessionId {
    pub user: UserName,
    pub number: SessionNumber,
}

// Not derived: a derived one is proved anew in each crate that lets go of one.
impl Drop for SessionId {
    fn drop(self) {
        let SessionId { user: _, number: _ } = self;
    }
}

impl SessionId {
    /// Copies the name and the number. Fails for want of memory alone.
    pub fn try_copy(&self) -> Result<SessionId, AllocError>
        ensures { IfOk result (λ copy. copy ≡ self.now) }
    {
        Ok(SessionId {
            user: self.user.try_copy()?,
            number: self.number,
        })
    }

    /// Whether both are the same session.
    pub fn is_same(&self, other: &SessionId) -> bool
        ensures { IsTrue result ↔ (self.now ≡ other.now) }
    {
        self.user.is_same(&other.user) && self.number.get() == other.number.get()
    }
}
