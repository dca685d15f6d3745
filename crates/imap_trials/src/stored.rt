//! Scripts over a database whose octets are given.

use crate::database::{Opened, TestKeeper};
use crate::file::{ENDLESS, Image};
use crate::running::{Found, run_copied};
use imap_keeper::KeepError;
use imap_script::{Scenario, ScriptError};
use imap_world::World;
use std::alloc::Global;

/// Appends the octets of the line `octets HEX`, without its first word.
pub(crate) fn push_digits(
    alloc: Global,
    octets: &mut Vec<u8>,
    digits: &str,
) -> Result<(), ScriptError> {
    match hex::decode(alloc, digits.trim_ascii_end()) {
        Ok(more) => Ok(octets.extend_from_slice(more.as_slice())?),
        Err(_) => Err(ScriptError::Io),
    }
}

/// Appends the octets of the line `zeros COUNT`, without its first word.
pub(crate) fn push_zeros(octets: &mut Vec<u8>, count: &str) -> Result<(), ScriptError> {
    let Ok(count) = count.trim_ascii_end().parse::<u64>() else {
        return Err(ScriptError::Io);
    };
    for _ in 0..count {
        octets.push(0)?;
    }
    Ok(())
}

/// Runs the script over the database that has these octets, and that keeps `world`.
pub(crate) fn run_stored<K: TestKeeper>(
    alloc: Global,
    image: &Image,
    scenario: &Scenario,
    world: &World,
) -> Result<Found, KeepError> {
    match K::open(alloc, image, ENDLESS)? {
        Opened::Keeper(keeper) => {
            let (keeper, found) = run_copied(alloc, scenario, keeper, world.try_copy(alloc))?;
            drop(keeper);
            Ok(found)
        }
        Opened::Refused(error, left) => {
            drop(left);
            Err(error)
        }
    }
}
