//! The sessions of all users, and what a step makes of them.

ghost use Rattle.std.specs.Prelude.{◌≡◌, IfOk, OnOk, option_copied, option_map};
ghost use Rattle.std.specs.FinMap as map;
ghost use Rattle.imap_sessions.specs.Accounts.{accounts_after, accounts_of};
ghost use Rattle.imap_sessions.specs.Accounts.{accounts_with, held_in, session_at};
ghost use Rattle.imap_sessions.specs.Held.{HasKnownRoom};
ghost use Rattle.imap_sessions.specs.Planned.{MayOpen, MayTell, room_needed};
ghost use Rattle.imap_sessions.specs.Sessions.{own_of};
ghost use Rattle.imap_session.specs.State.{state_of};

use crate::session_id::SessionId;
use crate::sessions::{OwnSessions, SessionEffect};
use imap_names::UserName;
use imap_session::Session;
use imap_user_map::UserMap;
use std::alloc::{AllocError, Global};

/// Nobody is known.
pub fn no_accounts(alloc: Global) -> UserMap<OwnSessions>
    ensures { accounts_of result.map ≡ map.empty }
{
    UserMap::new(alloc)
}

/// Makes a user known, without sessions.
#[tactic(auto, using(crate::proofs::Roomless::user_added))]
pub fn add_account(
    alloc: Global,
    accounts: &mut UserMap<OwnSessions>,
    user: &UserName,
) -> Result<(), AllocError>
    ensures { let old = accounts_of accounts.old.map in
        OnOk result (accounts_of accounts.new.map ≡ map.insert old user.now map.empty) }
{
    let key = String::from_str(alloc, user.as_str())?;
    let own = OwnSessions::new(alloc)?;
    accounts.reserve(1)?;
    accounts.insert_reserved(key, own);
    Ok(())
}

/// Whether a user is known.
pub fn is_known(accounts: &UserMap<OwnSessions>, user: &UserName) -> bool
    ensures { result ≡ map.contains_key (accounts_of accounts.now.map) user.now }
{
    own_sessions(accounts, user).is_some()
}

/// The sessions of a user, if the user is known.
pub fn own_sessions<'a>(
    accounts: &'a UserMap<OwnSessions>,
    user: &UserName,
) -> Option<&'a OwnSessions>
    ensures { option_map own_of (option_copied result) ≡ map.get (accounts_of accounts.now.map) user.now }
{
    accounts.get(user.as_str())
}

/// A session, if it is open.
pub fn open_session<'a>(accounts: &'a UserMap<OwnSessions>, who: &SessionId) -> Option<&'a Session>
    ensures { let accounts = accounts_of accounts.now.map in
        option_map state_of (option_copied result) ≡ session_at accounts who.now.user who.now.number }
{
    own_sessions(accounts, &who.user)?.get(who.number)
}

/// Makes the room `more` in the known list of a session, if it is open.
pub fn reserve_known(
    accounts: &mut UserMap<OwnSessions>,
    who: &SessionId,
    more: usize,
) -> Result<(), AllocError>
    ensures unchanged { accounts_of accounts.new.map ≡ accounts_of accounts.old.map }
    ensures ok { OnOk result (HasKnownRoom more (held_in accounts.new.map who.now)) }
{
    match accounts.get_mut(who.user.as_str()) {
        Some(own) => own.reserve(who.number, more),
        None => Ok(()),
    }
}

/// Makes what a step asks of its session. Nothing happens if nobody knows the user.
pub fn change_session(accounts: &mut UserMap<OwnSessions>, who: &SessionId, effect: SessionEffect)
    requires open { MayOpen (map.get (accounts_of accounts.old.map) who.now.user) who.now.number effect }
    requires told { let accounts = accounts_of accounts.old.map in
        MayTell (session_at accounts who.now.user who.now.number) effect }
    requires room { HasKnownRoom (room_needed effect) (held_in accounts.old.map who.now) }
    ensures { accounts_of accounts.new.map ≡ accounts_after (accounts_of accounts.old.map) who.now effect }
{
    match effect {
        SessionEffect::Keep => {}
        SessionEffect::Open => change_own(accounts, who, SessionEffect::Open),
        SessionEffect::Note(more, told) => {
            change_own(accounts, who, SessionEffect::Note(more, told));
        }
        SessionEffect::Select(more, selection) => {
            change_own(accounts, who, SessionEffect::Select(more, selection));
        }
        SessionEffect::Idle(tag, told) => {
            change_own(accounts, who, SessionEffect::Idle(tag, told));
        }
        SessionEffect::End => change_own(accounts, who, SessionEffect::End),
    }
}

fn change_own(accounts: &mut UserMap<OwnSessions>, who: &SessionId, effect: SessionEffect)
    requires open { MayOpen (map.get (accounts_of accounts.old.map) who.now.user) who.now.number effect }
    requires told { let accounts = accounts_of accounts.old.map in
        MayTell (session_at accounts who.now.user who.now.number) effect }
    requires room { HasKnownRoom (room_needed effect) (held_in accounts.old.map who.now) }
    ensures { accounts_of accounts.new.map ≡ accounts_with (accounts_of accounts.old.map) who.now effect }
{
    match accounts.get_mut(who.user.as_str()) {
        Some(own) => own.change(who.number, effect),
        None => drop(effect),
    }
}
