//! How many entries the journal has of each session.

ghost use Rattle.std.specs.Prelude.{◌≡◌, ◌<◌, ◌^◌, true, OnOk};
ghost use Rattle.std.specs.FinMap as map;
ghost use Rattle.imap_hall.specs.Counts.{AreSameCounts, HasSession, IsCounted, count_of};

use crate::own_counts::OwnCounts;
use imap_saving::SessionId;
use imap_user_map::UserMap;
use std::alloc::{AllocError, Global};

/// Returns how many entries the session has.
pub(crate) fn count_of(counts: &UserMap<OwnCounts>, who: &SessionId) -> u64
    ensures { result ≡ count_of counts.now.map who.now.user who.now.number }
{
    match counts.get(who.user.as_str()) {
        Some(own) => own.count(who.number),
        None => 0,
    }
}

/// Takes the memory that [`raise_count`] needs for the session.
pub(crate) fn reserve_count(
    counts: &mut UserMap<OwnCounts>,
    alloc: Global,
    who: &SessionId,
) -> Result<(), AllocError>
    ensures same { AreSameCounts counts.old.map counts.new.map }
    ensures ok { OnOk result (HasSession counts.new.map who.now) }
{
    add_user(counts, alloc, who)?;
    reserve_number(counts, who)
}

/// Adds the user, who has no counts then, unless the user is there.
#[tactic(auto, using(crate::proofs::Users::same_added, crate::proofs::Users::user_added))]
fn add_user(
    counts: &mut UserMap<OwnCounts>,
    alloc: Global,
    who: &SessionId,
) -> Result<(), AllocError>
    ensures same { AreSameCounts counts.old.map counts.new.map }
    ensures ok { OnOk result (map.contains_key counts.new.map who.now.user ≡ true) }
{
    let user = who.user.as_str();
    if counts.contains(user) {
        return Ok(());
    }
    counts.reserve(1)?;
    let key = String::from_str(alloc, user)?;
    counts.insert_reserved(key, OwnCounts::new(alloc));
    Ok(())
}

/// Takes the memory for a count of the session, whose user is there.
fn reserve_number(counts: &mut UserMap<OwnCounts>, who: &SessionId) -> Result<(), AllocError>
    requires { map.contains_key counts.old.map who.now.user ≡ true }
    ensures same { AreSameCounts counts.old.map counts.new.map }
    ensures ok { OnOk result (HasSession counts.new.map who.now) }
{
    match counts.get_mut(who.user.as_str()) {
        Some(own) => own.reserve(who.number),
        None => Ok(()),
    }
}

/// Raises the count of the session by one.
pub(crate) fn raise_count(counts: &mut UserMap<OwnCounts>, who: &SessionId)
    requires there { HasSession counts.old.map who.now }
    requires bound { count_of counts.old.map who.now.user who.now.number < 2 ^ 63 }
    ensures { IsCounted who.now counts.old.map counts.new.map }
{
    match counts.get_mut(who.user.as_str()) {
        Some(own) => own.raise(who.number),
        None => {}
    }
}
