//! Scripts over databases.

use crate::comparing_keeper::{ComparingKeeper, Comparison};
use crate::database::{TestKeeper, new_keeper};
use crate::file::{Image, Left};
use imap_keeper::{KeepError, Keeper};
use imap_script::{Scenario, ScriptError};
use imap_world::World;
use std::alloc::{AllocError, Global};

/// The transcript of a script over a keeper, how it ended, and what the comparisons found.
#[derive(Drop)]
pub(crate) struct Found {
    pub(crate) transcript: Vec<u8>,
    pub(crate) ended: Result<(), ScriptError>,
    pub(crate) comparison: Comparison,
}

/// Runs the script over a keeper of the mailboxes at its start, which are `world`.
fn run_compared<K: Keeper>(
    alloc: Global,
    scenario: &Scenario,
    keeper: K,
    world: World,
) -> (K, Found) {
    let mut transcript = Vec::new(alloc);
    let (keeper, ended) = scenario.run(alloc, ComparingKeeper::new(keeper, world), &mut transcript);
    let (keeper, comparison) = keeper.into_parts();
    let found = Found {
        transcript,
        ended,
        comparison,
    };
    (keeper, found)
}

/// Runs the script over a new database.
pub(crate) fn run_in_database<K: TestKeeper>(
    alloc: Global,
    scenario: &Scenario,
    world: &World,
) -> Result<Found, KeepError> {
    let keeper = new_keeper::<K>(alloc, world)?;
    let (keeper, found) = run_copied(alloc, scenario, keeper, world.try_copy(alloc))?;
    drop(keeper);
    Ok(found)
}

/// Runs the script over the keeper of these mailboxes. Returns it, and what was found.
pub(crate) fn run_copied<K: Keeper + Drop>(
    alloc: Global,
    scenario: &Scenario,
    keeper: K,
    world: Result<World, AllocError>,
) -> Result<(K, Found), KeepError> {
    match world {
        Ok(world) => Ok(run_compared(alloc, scenario, keeper, world)),
        Err(_) => {
            drop(keeper);
            Err(KeepError::Memory)
        }
    }
}

/// Returns the database that the script leaves.
pub(crate) fn image_after<K: TestKeeper>(
    alloc: Global,
    scenario: &Scenario,
    world: &World,
) -> Result<Image, KeepError> {
    let keeper = new_keeper::<K>(alloc, world)?;
    let (keeper, found) = run_copied(alloc, scenario, keeper, world.try_copy(alloc))?;
    drop(found);
    image_of(keeper.close(alloc))
}

/// Returns what the files have, without a crash.
pub(crate) fn image_of(left: Result<Left, KeepError>) -> Result<Image, KeepError> {
    let Left {
        is_stopped: _,
        written,
        crashed,
    } = left?;
    drop(crashed);
    Ok(written)
}
