//! The numbers of seats.

ghost use Rattle.std.specs.Prelude.{◌≡◌, ◌+◌, ◌<◌, ◌≤◌, ◌^◌, IfOk, OnErr};
ghost use Rattle.std.specs.FinMap as map;
ghost use Rattle.imap_host.specs.Seats.{last_of};

use crate::seat::SeatError;
use imap_names::UserName;
use imap_receipts::PARTS;
use imap_serve::{SessionId, SessionNumber};
use imap_user_map::UserMap;
use std::alloc::Global;

/// Returns the next session of a user, and notes its number. Fails with `Full` if the user has as many seats as a
/// ledger has parts.
pub(crate) fn next_session(
    numbers: &mut UserMap<u64>,
    alloc: Global,
    user: UserName,
) -> Result<SessionId, SeatError>
    ensures user { IfOk result (λ who. who.user ≡ user) }
    ensures number { IfOk result (λ who. who.number ≡ last_of numbers.old.map user + 1) }
    ensures noted { IfOk result (λ who. numbers.new.map ≡ map.insert numbers.old.map user who.number) }
    ensures err { OnErr result (numbers.new.map ≡ numbers.old.map) }
{
    match next_number(numbers, alloc, &user) {
        Ok(number) => Ok(SessionId { user, number }),
        Err(error) => {
            drop(user);
            Err(error)
        }
    }
}

/// Returns the number of the next session of a user, and notes it. Fails as [`next_session`].
fn next_number(
    numbers: &mut UserMap<u64>,
    alloc: Global,
    user: &UserName,
) -> Result<SessionNumber, SeatError>
    ensures number { IfOk result (λ number. number ≡ last_of numbers.old.map user.now + 1) }
    ensures noted { IfOk result
        (λ number. numbers.new.map ≡ map.insert numbers.old.map user.now number) }
    ensures err { OnErr result (numbers.new.map ≡ numbers.old.map) }
{
    let last = last_of(numbers, user);
    if last >= PARTS {
        return Err(SeatError::Full);
    }
    let number = last + 1;
    numbers.reserve(1)?;
    let key = String::from_str(alloc, user.as_str())?;
    numbers.insert_reserved(key, number);
    Ok(session_number(number))
}

/// Returns the number of the user's last seat, 0 if the user has none.
fn last_of(numbers: &UserMap<u64>, user: &UserName) -> u64
    ensures { result ≡ last_of numbers.now.map user.now }
{
    match numbers.get(user.as_str()) {
        Some(number) => *number,
        None => 0,
    }
}

/// Returns the session number, which is from 1 to 2^32 - 1.
fn session_number(number: u64) -> SessionNumber
    requires { (1 ≤ number) × (number < 2 ^ 32) }
    ensures { result ≡ number }
{
    match SessionNumber::new(number as u32) {
        Some(number) => number,
        None => unreachable!(),
    }
}
