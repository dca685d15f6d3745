//! Sessions, and what becomes of them.

ghost use Rattle.std.specs.Prelude.{◌≡◌, ◌≤◌, ◌+◌, length, Some, IfOk, OnOk, option_copied, option_map};
ghost use Rattle.imap_session.specs.State.{selection_of, state_of, with_telling, IsTellingReady};
ghost use Rattle.imap_session.specs.State.{HasRoomFor, room_in, room_of};
ghost use Rattle.imap_session.specs.State as specs;

use crate::known_list::KnownList;
use crate::known_update::KnownUpdate;
use crate::selection::NewSelection;
use imap_lex::Tag;
use imap_names::Name;
use imap_print::EnabledCapabilities;
use imap_values::TryCopy;
use std::alloc::{AllocError, Global};

/// The mailbox that a session has selected (RFC 9051, section 3.3).
pub struct Selected {
    pub name: Name,
    /// Its UIDVALIDITY when it was selected.
    pub validity: u32,
    /// It was examined: the session may not change it (RFC 9051, section 6.3.3).
    pub read_only: bool,
    pub known: KnownList,
    /// The mod-sequence up to which the session was told all, but for expunges that were held back.
    pub up_to: u64,
}

// Not derived: a derived one is proved anew in each crate that lets go of one.
impl Drop for Selected {
    fn drop(self) {
        let Selected {
            name: _,
            validity: _,
            read_only: _,
            known: _,
            up_to: _,
        } = self;
    }
}

/// An open session.
pub struct Session {
    pub selected: Option<Selected>,
    /// What the client enabled (RFC 9051, section 6.3.1).
    pub enabled: EnabledCapabilities,
    /// The tag of an IDLE that runs (RFC 2177).
    pub idle: Option<Tag>,
}

// Not derived: a derived one is proved anew in each crate that lets go of one.
impl Drop for Session {
    fn drop(self) {
        let Session {
            selected: _,
            enabled: _,
            idle: _,
        } = self;
    }
}

impl Session {
    /// A session that begins: nothing is selected, enabled or running.
    pub fn new() -> Session
        ensures { state_of result ≡ specs.new_session }
    {
        Session {
            selected: None,
            enabled: EnabledCapabilities {
                condstore: false,
                imap4rev2: false,
                qresync: false,
            },
            idle: None,
        }
    }

    /// Returns a copy that shares the texts of names. Its room may be another.
    pub fn try_copy(&self, alloc: Global) -> Result<Session, AllocError>
        ensures { IfOk result (λ copy. state_of copy ≡ state_of self.now) }
    {
        let selected = copy_selected(alloc, &self.selected)?;
        let idle = self.idle.try_copy(alloc)?;
        Ok(Session {
            selected,
            enabled: self.enabled,
            idle,
        })
    }

    /// The name of the selected mailbox.
    pub fn selected_name(&self) -> Option<&Name>
        ensures { option_copied result ≡ specs.selected_name (state_of self.now) }
    {
        match &self.selected {
            Some(selected) => Some(&selected.name),
            None => None,
        }
    }

    /// Enables further capabilities.
    pub fn enable(&mut self, more: EnabledCapabilities)
        ensures { state_of self.new ≡ specs.with_enabled more (state_of self.old) }
    {
        self.enabled = EnabledCapabilities {
            condstore: more.condstore || self.enabled.condstore,
            imap4rev2: more.imap4rev2 || self.enabled.imap4rev2,
            qresync: more.qresync || self.enabled.qresync,
        };
    }

    /// Selects another mailbox, or none.
    pub fn select(&mut self, selection: NewSelection)
        ensures { state_of self.new ≡ specs.with_selection selection (state_of self.old) }
    {
        self.selected = selection.into_selected();
    }

    /// Makes room in the known list, as [`KnownUpdate::room_needed`] tells, if a mailbox is selected.
    pub fn reserve(&mut self, room: usize) -> Result<(), AllocError>
        ensures state { state_of self.new ≡ state_of self.old }
        ensures ok { OnOk result (HasRoomFor room (room_of self.new) (state_of self.new).selected) }
        ensures room { room_of self.old ≤ room_of self.new }
    {
        reserve(&mut self.selected, room)
    }

    /// Lets copies share the known list until it changes, and gives up its room.
    pub fn share(&mut self)
        ensures { state_of self.new ≡ state_of self.old }
    {
        share(&mut self.selected);
    }

    /// Notes what the session is told of its mailbox, in room that is there.
    pub fn tell(&mut self, told: KnownUpdate)
        requires { IsTellingReady told (room_of self.old) (state_of self.old).selected }
        ensures state { state_of self.new ≡ specs.with_told told (state_of self.old) }
        ensures room { room_of self.old ≤ room_of self.new + length told.added }
    {
        tell(&mut self.selected, told);
    }
}

fn copy_selected(alloc: Global, selected: &Option<Selected>) -> Result<Option<Selected>, AllocError>
    ensures { IfOk result (λ copy. option_map selection_of copy ≡ option_map selection_of selected.now) }
{
    match selected {
        Some(selected) => Ok(Some(copy_one(alloc, selected)?)),
        None => Ok(None),
    }
}

fn copy_one(alloc: Global, selected: &Selected) -> Result<Selected, AllocError>
    ensures { IfOk result (λ copy. selection_of copy ≡ selection_of selected.now) }
{
    let name = selected.name.try_copy()?;
    let known = selected.known.try_copy(alloc)?;
    Ok(Selected {
        name,
        validity: selected.validity,
        read_only: selected.read_only,
        known,
        up_to: selected.up_to,
    })
}

fn reserve(selected: &mut Option<Selected>, room: usize) -> Result<(), AllocError>
    ensures state { option_map selection_of selected.new ≡ option_map selection_of selected.old }
    ensures ok { let selection = option_map selection_of selected.new in
        OnOk result (HasRoomFor room (room_in selected.new) selection) }
    ensures room { room_in selected.old ≤ room_in selected.new }
{
    match selected {
        Some(selected) => reserve_in(selected, room),
        None => Ok(()),
    }
}

fn reserve_in(selected: &mut Selected, room: usize) -> Result<(), AllocError>
    ensures state { selection_of selected.new ≡ selection_of selected.old }
    ensures ok { OnOk result (room ≤ selected.new.known.room) }
    ensures room { selected.old.known.room ≤ selected.new.known.room }
{
    selected.known.reserve(room)
}

fn share(selected: &mut Option<Selected>)
    ensures { option_map selection_of selected.new ≡ option_map selection_of selected.old }
{
    match selected {
        Some(selected) => share_known(selected),
        None => {}
    }
}

fn share_known(selected: &mut Selected)
    ensures { selection_of selected.new ≡ selection_of selected.old }
{
    selected.known.share();
}

fn tell(selected: &mut Option<Selected>, told: KnownUpdate)
    requires { IsTellingReady told (room_in selected.old) (option_map selection_of selected.old) }
    ensures state { option_map selection_of selected.new
        ≡ option_map (with_telling told) (option_map selection_of selected.old) }
    ensures room { room_in selected.old ≤ room_in selected.new + length told.added }
{
    match selected {
        Some(selected) => tell_selected(selected, told),
        None => {}
    }
}

fn tell_selected(selected: &mut Selected, told: KnownUpdate)
    requires { IsTellingReady told selected.old.known.room (Some (selection_of selected.old)) }
    ensures state { selection_of selected.new ≡ with_telling told (selection_of selected.old) }
    ensures room { selected.old.known.room ≤ selected.new.known.room + length told.added }
{
    let up_to = told.apply(&mut selected.known);
    selected.up_to = up_to;
}
