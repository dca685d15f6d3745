//! The names that users subscribed to.

ghost use Rattle.std.specs.Prelude.{◌≡◌, false, is_some, true, OnOk};
ghost use Rattle.std.specs.FinMap as map;
ghost use Rattle.std.specs.List.{AllByRecursion};
ghost use Rattle.imap_world.specs.Effects.{with_option, if_filled};
ghost use Rattle.imap_world.specs.Ready.{HasNameRoom, HasRoom, KeepsRoom, LeavesRoom};
ghost use Rattle.imap_world.specs.Stored.{filled_sets};
ghost use Rattle.imap_world.specs.World.{set_of};

use crate::change::Write;
use imap_name_map::NameMap;
use imap_names::{Name, NameRef};
use imap_user_map::UserMap;
use std::alloc::{AllocError, Global};

/// Makes room for `more` names in the set of each user who subscribes to one.
pub(crate) fn make_room_for(
    subscriptions: &mut UserMap<NameMap<()>>,
    alloc: Global,
    writes: &[Write],
    more: usize,
) -> Result<(), AllocError>
    ensures sets { filled_sets subscriptions.new ≡ filled_sets subscriptions.old }
    ensures ok { OnOk result (AllByRecursion (HasNameRoom subscriptions.new more) writes.now) }
{
    for write in writes {
        if let Err(error) = make_room_for_one(subscriptions, alloc, write, more) {
            return Err(error);
        }
    }
    Ok(())
}

/// Makes room for `more` names in the set of the user who subscribes to one, if the write is that.
fn make_room_for_one(
    subscriptions: &mut UserMap<NameMap<()>>,
    alloc: Global,
    write: &Write,
    more: usize,
) -> Result<(), AllocError>
    ensures sets { filled_sets subscriptions.new ≡ filled_sets subscriptions.old }
    ensures ok { OnOk result (HasNameRoom subscriptions.new more write.now) }
    ensures room { KeepsRoom subscriptions.old subscriptions.new }
{
    match write {
        Write::Subscribe(user, _) => make_room(subscriptions, alloc, user.as_str(), more),
        Write::Put(_)
        | Write::SetAcl(_, _)
        | Write::Remove(_)
        | Write::Move(_, _, _)
        | Write::Messages(_, _)
        | Write::Unsubscribe(_, _) => Ok(()),
    }
}

/// Makes room for `more` names that the user subscribes to.
fn make_room(
    subscriptions: &mut UserMap<NameMap<()>>,
    alloc: Global,
    user: &str,
    more: usize,
) -> Result<(), AllocError>
    ensures sets { filled_sets subscriptions.new ≡ filled_sets subscriptions.old }
    ensures ok { OnOk result (HasRoom more (map.get subscriptions.new.map user.now)) }
    ensures room { KeepsRoom subscriptions.old subscriptions.new }
{
    if subscriptions.contains(user) {
        return reserve_names(subscriptions, user, more);
    }
    add_user(subscriptions, alloc, user)?;
    reserve_names(subscriptions, user, more)
}

/// Makes room for `more` names in the set of a user who has one.
fn reserve_names(
    subscriptions: &mut UserMap<NameMap<()>>,
    user: &str,
    more: usize,
) -> Result<(), AllocError>
    requires { is_some (map.get subscriptions.old.map user.now) ≡ true }
    ensures sets { filled_sets subscriptions.new ≡ filled_sets subscriptions.old }
    ensures ok { OnOk result (HasRoom more (map.get subscriptions.new.map user.now)) }
    ensures room { KeepsRoom subscriptions.old subscriptions.new }
{
    match subscriptions.get_mut(user) {
        Some(names) => names.reserve(more),
        None => Ok(()),
    }
}

/// Gives a user without a set an empty one.
fn add_user(
    subscriptions: &mut UserMap<NameMap<()>>,
    alloc: Global,
    user: &str,
) -> Result<(), AllocError>
    requires { is_some (map.get subscriptions.old.map user.now) ≡ false }
    ensures sets { filled_sets subscriptions.new ≡ filled_sets subscriptions.old }
    ensures ok { OnOk result (is_some (map.get subscriptions.new.map user.now) ≡ true) }
    ensures room { KeepsRoom subscriptions.old subscriptions.new }
{
    let key = String::from_str(alloc, user)?;
    subscriptions.reserve(1)?;
    subscriptions.insert_reserved(key, NameMap::new(alloc));
    Ok(())
}

/// Adds a name to those that the user subscribed to.
pub(crate) fn add_name(subscriptions: &mut UserMap<NameMap<()>>, user: &str, name: Name)
    requires { HasRoom 1 (map.get subscriptions.old.map user.now) }
    ensures sets { let names = set_of (map.get (filled_sets subscriptions.old) user.now) in
        filled_sets subscriptions.new
        ≡ with_option (filled_sets subscriptions.old) user.now (if_filled (map.insert names name tt)) }
    ensures room { LeavesRoom subscriptions.old subscriptions.new }
{
    match subscriptions.get_mut(user) {
        Some(names) => names.insert_reserved(name, ()),
        None => {}
    }
}

/// Takes a name out of those that the user subscribed to.
pub(crate) fn remove_name(subscriptions: &mut UserMap<NameMap<()>>, user: &str, name: &NameRef<'_>)
    ensures sets { let names = set_of (map.get (filled_sets subscriptions.old) user.now) in
        filled_sets subscriptions.new
        ≡ with_option (filled_sets subscriptions.old) user.now (if_filled (map.remove names name.now)) }
    ensures room { LeavesRoom subscriptions.old subscriptions.new }
{
    match subscriptions.get_mut(user) {
        Some(names) => names.remove(name),
        None => {}
    }
}
