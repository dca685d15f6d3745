//! The own changes of all users.

ghost use Rattle.std.specs.Prelude.{◌≡◌, ◌+◌, ◌<◌, ◌≤◌, true, false, is_some, length, OnOk};
ghost use Rattle.std.specs.Prelude.{List};
ghost use Rattle.std.specs.FinMap as map;
ghost use Rattle.imap_modseq.specs.Merge.{AreInOrder};
ghost use Rattle.imap_modseq.specs.Numbers.{max_events};
ghost use Rattle.imap_mailbox.specs.declared.message.Message.{Message};
ghost use Rattle.imap_mailbox.specs.Counted.{StayCounted};
ghost use Rattle.imap_mailbox.specs.Held.{lists, list_at, own_room};
ghost use Rattle.imap_mailbox.specs.Own.{with_change};
ghost use Rattle.imap_mailbox.specs.Rows.{is_among};
ghost use Rattle.imap_mailbox.specs.Summary.{AreRising, uids_in};

use crate::own::{OwnSeen, SeenChange};
use imap_user_map::UserMap;
use std::alloc::{AllocError, Global};

/// Appends a change to a user's own ones, in room that is there.
pub(crate) fn mark_own(own: &mut UserMap<OwnSeen>, user: &str, change: SeenChange)
    requires room { 0 < own_room own.old user.now }
    requires before { change.before ≤ max_events }
    requires few { length (list_at own.old user.now).befores < max_events }
    requires order { AreInOrder 0 change.before (list_at own.old user.now).befores }
    ensures lists { lists own.new
        ≡ map.insert (lists own.old) user.now (with_change change (list_at own.old user.now)) }
    ensures room { own_room own.old user.now ≤ own_room own.new user.now + 1 }
    ensures counted { (messages : List Message) → AreRising (uids_in messages)
        → is_among change.uid (uids_in messages) ≡ true → StayCounted messages own.old own.new }
{
    match own.get_mut(user) {
        Some(list) => list.push_next(change),
        None => {}
    }
}

/// Makes room for `more` changes of a user.
pub(crate) fn reserve_own(
    own: &mut UserMap<OwnSeen>,
    alloc: Global,
    user: &str,
    more: usize,
) -> Result<(), AllocError>
    ensures lists { lists own.new ≡ lists own.old }
    ensures counted { (messages : List Message) → StayCounted messages own.old own.new }
    ensures ok { OnOk result (more ≤ own_room own.new user.now) }
{
    if own.contains(user) {
        return reserve_list(own, user, more);
    }
    add_list(own, alloc, user)?;
    reserve_list(own, user, more)
}

/// Makes room for `more` changes of a user who has a list.
fn reserve_list(own: &mut UserMap<OwnSeen>, user: &str, more: usize) -> Result<(), AllocError>
    requires { is_some (map.get own.old.map user.now) ≡ true }
    ensures lists { lists own.new ≡ lists own.old }
    ensures counted { (messages : List Message) → StayCounted messages own.old own.new }
    ensures ok { OnOk result (more ≤ own_room own.new user.now) }
{
    match own.get_mut(user) {
        Some(list) => list.reserve(more),
        None => Ok(()),
    }
}

/// Gives a user without a list an empty one.
fn add_list(own: &mut UserMap<OwnSeen>, alloc: Global, user: &str) -> Result<(), AllocError>
    requires { is_some (map.get own.old.map user.now) ≡ false }
    ensures lists { lists own.new ≡ lists own.old }
    ensures counted { (messages : List Message) → StayCounted messages own.old own.new }
    ensures ok { OnOk result (is_some (map.get own.new.map user.now) ≡ true) }
{
    let key = String::from_str(alloc, user)?;
    own.reserve(1)?;
    own.insert_reserved(key, OwnSeen::new(alloc));
    Ok(())
}
