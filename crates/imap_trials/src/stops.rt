//! Each call of the files of a database fails in turn, and all later calls with it.

use crate::database::{Opened, TestKeeper, load, load_world, new_keeper};
use crate::file::{Calls, Image, Left};
use crate::owned::both;
use crate::running::{Found, image_after, image_of, run_copied};
use imap_keeper::KeepError;
use imap_script::Scenario;
use imap_world::World;
use std::alloc::{AllocError, Global};

/// Makes the tables of a store those of the first version, if each message has at most one keyword.
const TO_FIRST: &str = "INSERT INTO message SELECT h.mailbox, h.uid, date, octets, flags, \
     coalesce((SELECT word FROM keyword k WHERE k.mailbox = h.mailbox AND k.uid = h.uid), ''), \
     place FROM message2 h JOIN body b ON b.mailbox = h.mailbox AND b.uid = h.uid; \
     DROP TABLE keyword; DROP TABLE body; DROP TABLE message2; UPDATE meta SET value = 1";

/// The most calls of a file.
const MAX_CALLS: u64 = 100_000;

/// One of the two files of a database.
#[derive(Clone, Copy)]
enum FileKind {
    Log,
    Database,
}

impl FileKind {
    /// Has this file fail after `calls` calls, and the other never.
    fn calls(self, calls: u64) -> Calls {
        match self {
            FileKind::Log => Calls {
                log: calls,
                database: u64::MAX,
            },
            FileKind::Database => Calls {
                log: u64::MAX,
                database: calls,
            },
        }
    }
}

/// How a run ended.
#[derive(Clone, Copy, PartialEq, Eq)]
enum Outcome {
    /// No call failed.
    Whole,
    /// One did. The mailboxes are those before the change that was being saved, or those after it.
    Kept,
    /// One did, and the mailboxes are others.
    Lost,
}

/// Runs the script once for each call of each of the database's files. Returns what was left.
pub(crate) fn stop_report<K: TestKeeper>(
    alloc: Global,
    scenario: &Scenario,
    world: &World,
) -> Result<&'static str, KeepError> {
    let image = start_image::<K>(alloc, world)?;
    let report = stop_both::<K>(alloc, &image, scenario, world);
    drop(image);
    report
}

/// Does the same over the database that the script leaves, with the tables of the first version.
pub(crate) fn first_stop_report<K: TestKeeper>(
    alloc: Global,
    scenario: &Scenario,
    world: &World,
) -> Result<&'static str, KeepError> {
    let image = image_after::<K>(alloc, scenario, world)?;
    let report = stop_both_of_first::<K>(alloc, &image, scenario);
    drop(image);
    report
}

/// Does the same over the database that has these octets.
fn stop_both_of_first<K: TestKeeper>(
    alloc: Global,
    image: &Image,
    scenario: &Scenario,
) -> Result<&'static str, KeepError> {
    let (world, first) = both(
        load_world::<K>(alloc, image),
        K::execute(alloc, image, TO_FIRST),
    )?;
    let report = stop_both::<K>(alloc, &first, scenario, &world);
    drop(world);
    drop(first);
    report
}

/// Runs the script over the database that has these octets, and that keeps `world`. Has each call of each of its files
/// fail in turn.
pub(crate) fn stop_both<K: TestKeeper>(
    alloc: Global,
    image: &Image,
    scenario: &Scenario,
    world: &World,
) -> Result<&'static str, KeepError> {
    let log = stop_each::<K>(alloc, image, FileKind::Log, scenario, world)?;
    let database = stop_each::<K>(alloc, image, FileKind::Database, scenario, world)?;
    if log == Outcome::Kept && database == Outcome::Kept {
        Ok("after each stop the mailboxes are those before a change or after it\n")
    } else {
        Ok("after a stop the mailboxes are others\n")
    }
}

/// What the files have at first: nothing, if there are no mailboxes yet.
fn start_image<K: TestKeeper>(alloc: Global, world: &World) -> Result<Image, KeepError> {
    if world.mailboxes().len() == 0 {
        return Ok(Image::empty(alloc));
    }
    let keeper = new_keeper::<K>(alloc, world)?;
    image_of(keeper.close(alloc))
}

/// Has each call of a file fail in turn, until a run ends in which none does. `Whole` if none ever did.
fn stop_each<K: TestKeeper>(
    alloc: Global,
    image: &Image,
    kind: FileKind,
    scenario: &Scenario,
    world: &World,
) -> Result<Outcome, KeepError> {
    let mut worst = Outcome::Whole;
    for calls in 0..MAX_CALLS {
        match run_once::<K>(alloc, image, kind.calls(calls), scenario, world)? {
            Outcome::Whole => return Ok(worst),
            Outcome::Kept => worst = Outcome::Kept,
            Outcome::Lost => return Ok(Outcome::Lost),
        }
    }
    Ok(Outcome::Lost)
}

/// Runs the script over a database whose files fail after `calls`.
fn run_once<K: TestKeeper>(
    alloc: Global,
    image: &Image,
    calls: Calls,
    scenario: &Scenario,
    world: &World,
) -> Result<Outcome, KeepError> {
    match K::open(alloc, image, calls)? {
        Opened::Keeper(keeper) => run_stopped(alloc, scenario, keeper, world.try_copy(alloc)),
        Opened::Refused(_, left) => {
            let outcome = outcome_of_files::<K>(alloc, &left, world, None);
            drop(left);
            outcome
        }
    }
}

/// Runs the script over the keeper, and closes the database.
fn run_stopped<K: TestKeeper>(
    alloc: Global,
    scenario: &Scenario,
    keeper: K,
    world: Result<World, AllocError>,
) -> Result<Outcome, KeepError> {
    let (keeper, found) = run_copied(alloc, scenario, keeper, world)?;
    let outcome = match keeper.close(alloc) {
        Ok(left) => {
            let outcome = outcome_of_run::<K>(alloc, &left, &found);
            drop(left);
            outcome
        }
        Err(error) => Err(error),
    };
    drop(found);
    outcome
}

/// Returns how a run ended, by what was loaded while it went on and by its files.
fn outcome_of_run<K: TestKeeper>(
    alloc: Global,
    left: &Left,
    found: &Found,
) -> Result<Outcome, KeepError> {
    let comparison = &found.comparison;
    let refused = comparison.refused.as_ref();
    let outcome = outcome_of_files::<K>(alloc, left, &comparison.world, refused)?;
    if left.is_stopped && comparison.others == 0 {
        Ok(outcome)
    } else if found.ended.is_ok() && comparison.is_whole() && outcome == Outcome::Kept {
        Ok(Outcome::Whole)
    } else {
        Ok(Outcome::Lost)
    }
}

/// Returns whether the mailboxes before the change or after it are loaded, both from the files as they are and from
/// those that a crash leaves.
fn outcome_of_files<K: TestKeeper>(
    alloc: Global,
    left: &Left,
    before: &World,
    after: Option<&World>,
) -> Result<Outcome, KeepError> {
    if loads_either::<K>(alloc, &left.written, before, after)?
        && loads_either::<K>(alloc, &left.crashed, before, after)?
    {
        Ok(Outcome::Kept)
    } else {
        Ok(Outcome::Lost)
    }
}

/// Whether the mailboxes `before` or `after` are loaded from the image.
fn loads_either<K: TestKeeper>(
    alloc: Global,
    image: &Image,
    before: &World,
    after: Option<&World>,
) -> Result<bool, KeepError> {
    let (loaded, left) = load::<K>(alloc, image)?;
    drop(left);
    let is_either = match &loaded {
        Ok(world) => is_either(world, before, after),
        Err(_) => false,
    };
    drop(loaded);
    Ok(is_either)
}

fn is_either(world: &World, before: &World, after: Option<&World>) -> bool {
    if world.same(before) {
        return true;
    }
    match after {
        Some(after) => world.same(after),
        None => false,
    }
}
