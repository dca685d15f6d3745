//! A session with the room of its known list.

ghost use Rattle.std.specs.Prelude.{◌≡◌, ◌≤◌, IfSome, OnOk};
ghost use Rattle.imap_sessions.specs.Held.{room_for_any};
ghost use Rattle.imap_sessions.specs.Sessions.{with_idle};
ghost use Rattle.imap_session.specs.State as specs;
ghost use Rattle.imap_session.specs.State.{HasRoomFor, IsTellingFor, state_of};
ghost use Rattle.imap_session.specs.Told.{session_after};

use imap_lex::Tag;
use imap_print::EnabledCapabilities;
use imap_session::{KnownUpdate, NewSelection, Session};
use imap_values::TryCopy;
use std::alloc::{AllocError, Global};
use std::marker::Model;

/// An open session, and the room that was made in the known list of its mailbox.
#[derive(Drop)]
pub(crate) struct OpenSession {
    session: Session,
    room: usize,
}

impl Model for OpenSession {
    ghost use Rattle.imap_sessions.specs.Held.{HeldSession, held_code};
    ghost use Rattle.imap_session.specs.State.{HasRoomFor, room_of, state_of};

    ghost Value = { HeldSession };

    ghost coded = { held_code };

    ghost view = { λ s. record { state = state_of s.session; room = s.room } };

    ghost invariant = { λ s. HasRoomFor s.room (room_of s.session) (state_of s.session).selected };
}

impl OpenSession {
    /// A session that begins.
    pub(crate) fn new() -> OpenSession
        ensures { result.state ≡ specs.new_session }
    {
        OpenSession {
            session: Session::new(),
            room: 0,
        }
    }

    /// The session.
    pub(crate) fn session(&self) -> &Session
        ensures { state_of result.now ≡ self.now.state }
    {
        &self.session
    }

    /// Notes what the session is told of its mailbox, in room that is there, and enables further capabilities.
    /// The room is counted anew.
    pub(crate) fn note(&mut self, more: EnabledCapabilities, told: Option<KnownUpdate>)
        requires told { IfSome told (λ t. IsTellingFor t self.old.state.selected) }
        requires room { room_for_any told ≤ self.old.room }
        ensures { self.new.state ≡ specs.with_enabled more (session_after told self.old.state) }
    {
        self.tell(told);
        self.session.enable(more);
    }

    /// Begins an IDLE with this tag, or ends one, and notes what the session is told of its mailbox, in room that
    /// is there. The room is counted anew.
    pub(crate) fn idle(&mut self, tag: Option<Tag>, told: Option<KnownUpdate>)
        requires told { IfSome told (λ t. IsTellingFor t self.old.state.selected) }
        requires room { room_for_any told ≤ self.old.room }
        ensures { self.new.state ≡ with_idle tag (session_after told self.old.state) }
    {
        self.tell(told);
        self.session.idle = tag;
    }

    /// Notes what the session is told of its mailbox. Copies share the known list from then on.
    fn tell(&mut self, told: Option<KnownUpdate>)
        requires told { IfSome told (λ t. IsTellingFor t self.old.state.selected) }
        requires room { room_for_any told ≤ self.old.room }
        ensures state { self.new.state ≡ session_after told self.old.state }
        ensures room { self.new.room ≡ 0 }
    {
        match told {
            Some(told) => {
                self.session.tell(told);
                self.session.share();
            }
            None => {}
        }
        self.room = 0;
    }

    /// Enables further capabilities, and selects another mailbox, or none. The room is counted anew.
    pub(crate) fn select(&mut self, more: EnabledCapabilities, selection: NewSelection)
        ensures { self.new.state ≡ specs.with_selection selection (specs.with_enabled more self.old.state) }
    {
        self.room = 0;
        self.session.enable(more);
        self.session.select(selection);
    }

    /// Makes the room `more` in the known list, if a mailbox is selected.
    pub(crate) fn reserve(&mut self, more: usize) -> Result<(), AllocError>
        ensures state { self.new.state ≡ self.old.state }
        ensures ok { OnOk result (more ≤ self.new.room) }
        ensures room { self.old.room ≤ self.new.room }
    {
        if more <= self.room {
            return Ok(());
        }
        self.session.reserve(more)?;
        self.room = more;
        Ok(())
    }
}

impl TryCopy for OpenSession {
    fn try_copy(&self, alloc: Global) -> Result<OpenSession, AllocError> {
        let mut session = self.session.try_copy(alloc)?;
        session.reserve(self.room)?;
        Ok(OpenSession {
            session,
            room: self.room,
        })
    }
}
