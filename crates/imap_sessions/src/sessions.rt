//! The open sessions of one user.

ghost use Rattle.std.specs.Prelude.{◌≡◌, ◌<◌, ◌≤◌, ◌==◌, ◌⊎◌, not, Some, filter, vec_len, true};
ghost use Rattle.std.specs.Prelude.{ℕ, IfOk, OnOk, nat_le, option_copied, option_map};
ghost use Rattle.std.specs.List.{position};
ghost use Rattle.std.specs.Vec.{vec_capacity};
ghost use Rattle.std.specs.FinMap as map;
ghost use Rattle.imap_sessions.specs.Held.{HasKnownRoom, room_in};
ghost use Rattle.imap_sessions.specs.Planned.{MayOpen, MayTell, room_needed};
ghost use Rattle.imap_sessions.specs.Sessions as specs;
ghost use Rattle.imap_sessions.specs.Sessions.{edited, max_sessions, own_of};
ghost use Rattle.imap_session.specs.State.{new_session, state_of};

use crate::open_session::OpenSession;
use crate::session_id::SessionNumber;
use imap_lex::Tag;
use imap_print::EnabledCapabilities;
use imap_session::{KnownUpdate, NewSelection, Session};
use imap_values::TryCopy;
use std::alloc::{AllocError, Global};
use std::marker::Model;

/// The most sessions that a user may have open at once.
pub const MAX_SESSIONS: usize = 16;

/// What a step asks of its session.
#[derive(Drop)]
pub enum SessionEffect {
    Keep,
    /// It is opened, or begins anew.
    Open,
    /// Its client enables these, and it is told this of its mailbox.
    Note(EnabledCapabilities, Option<KnownUpdate>),
    /// Its client enables these, and selects another mailbox, or none.
    Select(EnabledCapabilities, NewSelection),
    /// Its client begins an IDLE with this tag, or ends one, and it is told this of its mailbox (RFC 2177).
    Idle(Option<Tag>, Option<KnownUpdate>),
    End,
}

/// The room that is needed in the known list of the session.
pub fn room_needed(effect: &SessionEffect) -> usize
    ensures { result ≡ room_needed effect.now }
{
    match effect {
        SessionEffect::Note(_, Some(told)) | SessionEffect::Idle(_, Some(told)) =>
            told.room_needed(),
        _ => 0,
    }
}

/// The open sessions of one user, by their numbers, with room for as many as may be open. They are so
/// few that a plain walk finds one. Contracts see each with the room of its known list.
pub struct OwnSessions {
    entries: Vec<(SessionNumber, OpenSession)>,
}

// Not derived: a derived one is proved anew in each crate that lets go of one.
impl Drop for OwnSessions {
    fn drop(self) {
        let OwnSessions { entries: _ } = self;
    }
}

impl Model for OwnSessions {
    ghost use Rattle.std.specs.FinMap as map;
    ghost use Rattle.imap_sessions.specs.Sessions.{HeldOwn, held_own_code, IsKept};

    ghost Value = { HeldOwn };

    ghost coded = { held_own_code };

    ghost view = { λ s. map.from_entries s.entries.items };

    ghost invariant = { λ s. IsKept s.entries };
}

impl OwnSessions {
    /// No session, with room for as many as a user may open. Fails for want of memory alone.
    pub fn new(alloc: Global) -> Result<OwnSessions, AllocError>
        ensures { IfOk result (λ own. own ≡ map.empty) }
    {
        let entries = Vec::with_capacity(alloc, MAX_SESSIONS)?;
        Ok(OwnSessions { entries })
    }

    /// Whether a session with this number is open.
    pub fn is_open(&self, number: SessionNumber) -> bool
        ensures { result ≡ map.contains_key (own_of self.now) number }
    {
        self.get(number).is_some()
    }

    /// The session with this number, if it is open.
    pub fn get(&self, number: SessionNumber) -> Option<&Session>
        ensures { option_map state_of (option_copied result) ≡ map.get (own_of self.now) number }
    {
        match index_of(&self.entries, number) {
            Some(index) => Some(self.entries[index].1.session()),
            None => None,
        }
    }

    /// Whether as many are open as may be.
    pub fn is_full(&self) -> bool
        ensures { result ≡ nat_le max_sessions (map.len (own_of self.now)) }
    {
        self.entries.len() >= MAX_SESSIONS
    }

    /// Makes what a step asks of the session with the number.
    pub fn change(&mut self, number: SessionNumber, effect: SessionEffect)
        requires open { MayOpen (Some (own_of self.old)) number effect }
        requires told { MayTell (map.get (own_of self.old) number) effect }
        requires room { HasKnownRoom (room_needed effect) (map.get self.old number) }
        ensures { own_of self.new ≡ specs.own_with number effect (own_of self.old) }
    {
        match effect {
            SessionEffect::Keep => {}
            SessionEffect::Open => self.open(number),
            SessionEffect::Note(more, told) => {
                self.edit(number, SessionEffect::Note(more, told));
            }
            SessionEffect::Select(more, selection) => {
                self.edit(number, SessionEffect::Select(more, selection));
            }
            SessionEffect::Idle(tag, told) => self.edit(number, SessionEffect::Idle(tag, told)),
            SessionEffect::End => self.remove(number),
        }
    }

    /// Makes the room `more` in the known list of the session with the number, if it is open.
    pub fn reserve(&mut self, number: SessionNumber, more: usize) -> Result<(), AllocError>
        ensures unchanged { own_of self.new ≡ own_of self.old }
        ensures ok { OnOk result (HasKnownRoom more (map.get self.new number)) }
        ensures room { (other : ℕ) → room_in (map.get self.old other) ≤ room_in (map.get self.new other) }
    {
        match index_of(&self.entries, number) {
            Some(index) => reserve_in(&mut self.entries[index], more),
            None => Ok(()),
        }
    }

    /// Opens a session, or begins an open one anew.
    fn open(&mut self, number: SessionNumber)
        requires { let own = own_of self.old in
            (map.len own < max_sessions) ⊎ (map.contains_key own number ≡ true) }
        ensures { own_of self.new ≡ map.insert (own_of self.old) number new_session }
    {
        take_out(&mut self.entries, number);
        self.entries.push_reserved((number, OpenSession::new()));
    }

    /// Makes what a step asks of a session that stays open, if it is open.
    fn edit(&mut self, number: SessionNumber, effect: SessionEffect)
        requires told { MayTell (map.get (own_of self.old) number) effect }
        requires room { HasKnownRoom (room_needed effect) (map.get self.old number) }
        ensures { own_of self.new ≡ specs.with_edit number effect (own_of self.old) }
    {
        match index_of(&self.entries, number) {
            Some(index) => edit_in(&mut self.entries[index], effect),
            None => drop(effect),
        }
    }

    /// Closes a session, if it is open.
    fn remove(&mut self, number: SessionNumber)
        ensures { own_of self.new ≡ map.remove (own_of self.old) number }
    {
        take_out(&mut self.entries, number);
    }
}

impl TryCopy for OwnSessions {
    fn try_copy(&self, alloc: Global) -> Result<OwnSessions, AllocError> {
        let entries = copy_entries(alloc, self.entries.as_slice())?;
        Ok(OwnSessions { entries })
    }
}

/// An equal copy, with room for as many sessions as may be open.
fn copy_entries(
    alloc: Global,
    entries: &[(SessionNumber, OpenSession)],
) -> Result<Vec<(SessionNumber, OpenSession)>, AllocError>
    ensures items { IfOk result (λ copy. copy.items ≡ entries.now) }
    ensures room { IfOk result (λ copy. max_sessions ≤ vec_capacity copy) }
{
    let mut copy = Vec::with_capacity(alloc, MAX_SESSIONS)?;
    for (number, session) in entries {
        copy.push((*number, session.try_copy(alloc)?))?;
    }
    Ok(copy)
}

fn edit_in(entry: &mut (SessionNumber, OpenSession), effect: SessionEffect)
    requires told { MayTell (Some entry.old.1.state) effect }
    requires room { room_needed effect ≤ entry.old.1.room }
    ensures number { entry.new.0 ≡ entry.old.0 }
    ensures state { entry.new.1.state ≡ edited effect entry.old.1.state }
{
    match effect {
        SessionEffect::Note(more, told) => entry.1.note(more, told),
        SessionEffect::Select(more, selection) => entry.1.select(more, selection),
        SessionEffect::Idle(tag, told) => entry.1.idle(tag, told),
        SessionEffect::Keep | SessionEffect::Open | SessionEffect::End => {}
    }
}

fn reserve_in(entry: &mut (SessionNumber, OpenSession), more: usize) -> Result<(), AllocError>
    ensures number { entry.new.0 ≡ entry.old.0 }
    ensures state { entry.new.1.state ≡ entry.old.1.state }
    ensures ok { OnOk result (more ≤ entry.new.1.room) }
    ensures room { entry.old.1.room ≤ entry.new.1.room }
{
    entry.1.reserve(more)
}

fn index_of(entries: &[(SessionNumber, OpenSession)], number: SessionNumber) -> Option<usize>
    ensures { result ≡ position (λ e. e.0 == number) entries.now }
{
    entries.iter().position(|entry| entry.0 == number)
}

fn take_out(entries: &mut Vec<(SessionNumber, OpenSession)>, number: SessionNumber)
    ensures items { entries.new.items ≡ filter (λ e. not (e.0 == number)) entries.old.items }
    ensures capacity { vec_capacity entries.new ≡ vec_capacity entries.old }
    ensures bound { vec_len entries.new ≤ vec_len entries.old }
{
    entries.retain(|entry| entry.0 != number);
}
