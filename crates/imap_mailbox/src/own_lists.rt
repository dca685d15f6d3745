//! The own changes of all users, from what a store keeps of them.

ghost use Rattle.std.specs.Prelude.{◌≡◌, ◌↔◌, ◌<◌, ◌≤◌, length, IsPermutation, IsTrue};
ghost use Rattle.std.specs.FinMap as map;
ghost use Rattle.std.specs.List.Sorted.{IsNonDecreasingBy};
ghost use Rattle.imap_modseq.specs.Merge.{AreInOrder};
ghost use Rattle.imap_modseq.specs.Numbers.{max_events};
ghost use Rattle.imap_mailbox.specs.Held.{lists, list_at, own_room};
ghost use Rattle.imap_mailbox.specs.Own.{with_kept};
ghost use Rattle.imap_mailbox.specs.Restored.{Appends, AppendsAll, FitAll, MayFollow, RestoresOwn};
ghost use Rattle.imap_mailbox.specs.Rows.{WasGiven};

use crate::kept_change::KeptChange;
use crate::marks::reserve_own;
use crate::own::OwnSeen;
use crate::parts::{PartsError, UserChange};
use imap_modseq::MAX_EVENTS;
use imap_user_map::UserMap;
use std::alloc::Global;

/// Each user's own changes, of which `changes` are kept. Fails with `Bad` if they are not those of a mailbox with this
/// UIDNEXT and this number of shared events. Whether messages are there isn't looked at: the numbers of seen
/// ones are to be counted once they are known.
pub(crate) fn own_lists(
    alloc: Global,
    mut changes: Vec<UserChange>,
    next: u32,
    shared: u64,
) -> Result<UserMap<OwnSeen>, PartsError>
    requires { shared ≤ max_events }
    ensures { RestoresOwn next shared changes.items result }
{
    sort_by_place(&mut changes);
    let mut own = UserMap::new(alloc);
    match add_changes(&mut own, alloc, &changes, next, shared) {
        Ok(()) => Ok(own),
        Err(error) => Err(error),
    }
}

/// Puts changes in the order of their places. Those of one user are then in the order in which they were
/// made.
fn sort_by_place(changes: &mut Vec<UserChange>)
    ensures same { IsPermutation changes.old.items changes.new.items }
    ensures sorted { IsNonDecreasingBy (λ c. c.place) changes.new.items }
{
    changes.sort_unstable_by_key(|change| change.place);
}

/// Appends each change to those of its user, of which there are none yet.
fn add_changes(
    own: &mut UserMap<OwnSeen>,
    alloc: Global,
    changes: &[UserChange],
    next: u32,
    shared: u64,
) -> Result<(), PartsError>
    requires few { shared ≤ max_events }
    requires none { own.old.map ≡ map.empty }
    ensures { AppendsAll next shared changes.now own.new result }
{
    for change in changes {
        if let Err(error) = add_change(own, alloc, change, next, shared) {
            return Err(error);
        }
    }
    Ok(())
}

/// Appends a change to those of its user. Fails with `Bad` if it may not follow them.
fn add_change(
    own: &mut UserMap<OwnSeen>,
    alloc: Global,
    change: &UserChange,
    next: u32,
    shared: u64,
) -> Result<(), PartsError>
    requires { shared ≤ max_events }
    ensures { Appends next shared change.now own.old own.new result }
{
    if !may_follow(own, change, next, shared) {
        return Err(PartsError::Bad);
    }
    let user = change.user.as_str();
    reserve_own(own, alloc, user, 1)?;
    put_row(own, user, change.row());
    Ok(())
}

/// Puts a change at a place after all others of the user, in room that is there.
fn put_row(own: &mut UserMap<OwnSeen>, user: &str, row: KeptChange)
    requires room { 0 < own_room own.old user.now }
    requires place { length (list_at own.old user.now).befores ≤ row.place }
    requires few { row.place < max_events }
    requires before { row.before ≤ max_events }
    requires order { AreInOrder 0 row.before (list_at own.old user.now).befores }
    ensures { lists own.new ≡ map.insert (lists own.old) user.now (with_kept row (list_at own.old user.now)) }
{
    match own.get_mut(user) {
        Some(list) => list.push_reserved(row),
        None => {}
    }
}

/// Whether the change may be the next that is kept of its user.
fn may_follow(own: &UserMap<OwnSeen>, change: &UserChange, next: u32, shared: u64) -> bool
    ensures { IsTrue result ↔ MayFollow next shared (list_at own.now change.now.user) change.now }
{
    match own.get(change.user.as_str()) {
        Some(list) => {
            list.may_follow(change.change.before) && is_next(change, list.len(), next, shared)
        }
        None => is_next(change, 0, next, shared),
    }
}

/// Whether the change may be the next after `len` others, whatever is before them.
fn is_next(change: &UserChange, len: u64, next: u32, shared: u64) -> bool
    ensures { IsTrue result ↔ ((len ≤ change.now.place) × (change.now.place < max_events)
        × (change.now.change.before ≤ shared) × WasGiven next change.now.change.uid) }
{
    len <= change.place
        && change.place < MAX_EVENTS
        && change.change.before <= shared
        && was_given(change.change.uid, next)
}

/// Whether a message got the UID.
fn was_given(uid: u32, next: u32) -> bool
    ensures { IsTrue result ↔ WasGiven next uid }
{
    1 <= uid && uid < next
}
