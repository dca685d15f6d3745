//! A script with what else is done with it, and its report.

use crate::database::{DatabaseKeeper, TestKeeper, load_world};
use crate::faults::fault_report;
use crate::file::{Image, TestFile};
use crate::running::{Found, image_after, run_in_database};
use crate::stops::{first_stop_report, stop_both, stop_report};
use crate::stored::{push_digits, push_zeros, run_stored};
use imap_keeper::{KeepError, ListKeeper};
use imap_script::{Scenario, ScriptError};
use imap_world::World;
use sqlite_disk::{Fuse, Memory};
use std::alloc::Global;
use std::str;

/// A script, and what its lines `-- TEXT` ask for.
#[derive(Drop)]
pub(crate) struct ScriptRow {
    pub(crate) name: Vec<u8>,
    script: Vec<u8>,
    /// Whether it is run with each call of the database's files failing in turn.
    stops: bool,
    /// Whether it is also run so over the tables of the first version.
    first_stops: bool,
    /// Lines `USER in NAME`, each of which names a run with which this one is compared.
    pub(crate) comparisons: String,
    /// Lines of SQL, each of which runs by itself in a copy of the database at the end.
    faults: String,
    /// The octets of the database over which it runs. If there are none, it runs over a new one.
    stored: Vec<u8>,
}

impl ScriptRow {
    pub(crate) fn new(alloc: Global, name: Vec<u8>) -> ScriptRow {
        ScriptRow {
            name,
            script: Vec::new(alloc),
            stops: false,
            first_stops: false,
            comparisons: String::new(alloc),
            faults: String::new(alloc),
            stored: Vec::new(alloc),
        }
    }

    /// Takes a line, with the LF that ends it if there is one.
    pub(crate) fn take_line(&mut self, alloc: Global, line: &[u8]) -> Result<(), ScriptError> {
        let Some(text) = line.strip_prefix(b"-- ") else {
            self.script.extend_from_slice(line)?;
            return Ok(());
        };
        match str::from_utf8(text) {
            Ok("stop at each call\n") => self.stops = true,
            Ok("stop at each call from the first version\n") => self.first_stops = true,
            Ok(text) => self.take_text(alloc, text)?,
            Err(_) => return Err(ScriptError::Io),
        }
        Ok(())
    }

    /// Takes a line of which more than its first word tells.
    fn take_text(&mut self, alloc: Global, text: &str) -> Result<(), ScriptError> {
        if let Some(runs) = text.strip_prefix("as ") {
            self.comparisons.push_str(runs)?;
        } else if let Some(digits) = text.strip_prefix("octets ") {
            push_digits(alloc, &mut self.stored, digits)?;
        } else if let Some(count) = text.strip_prefix("zeros ") {
            push_zeros(&mut self.stored, count)?;
        } else {
            self.faults.push_str(text)?;
        }
        Ok(())
    }

    /// Returns what is written for the script.
    pub(crate) fn report(&self, alloc: Global) -> Result<Vec<u8>, ScriptError> {
        let mut report = Vec::new(alloc);
        match Scenario::read(alloc, self.script.as_slice()) {
            Ok((scenario, world)) => {
                let pushed = self.push_runs::<Fuse<Memory>>(alloc, &mut report, &scenario, &world);
                drop(scenario);
                drop(world);
                pushed?;
            }
            Err(error) => push_end(alloc, &mut report, Err(error))?,
        }
        Ok(report)
    }

    /// Appends the transcript, and the reports of all runs. The databases have files of the kind `F`: a proof over
    /// `Fuse<Memory>` itself is long.
    fn push_runs<F: TestFile>(
        &self,
        alloc: Global,
        report: &mut Vec<u8>,
        scenario: &Scenario,
        world: &World,
    ) -> Result<(), ScriptError> {
        self.push_kept_runs::<DatabaseKeeper<F>>(alloc, report, scenario, world)
    }

    /// Appends the same.
    fn push_kept_runs<K: TestKeeper>(
        &self,
        alloc: Global,
        report: &mut Vec<u8>,
        scenario: &Scenario,
        world: &World,
    ) -> Result<(), ScriptError> {
        if !self.stored.is_empty() {
            return self.push_stored::<K>(alloc, report, scenario);
        }
        let transcript = run_in_memory(alloc, scenario, world)?;
        report.extend_from_slice(transcript.as_slice())?;
        let found = run_in_database::<K>(alloc, scenario, world);
        push_difference(alloc, report, found, transcript.as_slice())?;
        self.push_reports::<K>(alloc, report, scenario, world)
    }

    /// Appends the transcript over the database whose octets are given, and the reports of all runs over it.
    fn push_stored<K: TestKeeper>(
        &self,
        alloc: Global,
        report: &mut Vec<u8>,
        scenario: &Scenario,
    ) -> Result<(), ScriptError> {
        let image = Image::of_database(alloc, self.stored.as_slice())?;
        let pushed = match load_world::<K>(alloc, &image) {
            Ok(world) => {
                let pushed = self.push_stored_runs::<K>(alloc, report, scenario, &image, &world);
                drop(world);
                pushed
            }
            Err(error) => Err(script_error(error)),
        };
        drop(image);
        pushed
    }

    /// Appends the same. The database keeps `world`.
    fn push_stored_runs<K: TestKeeper>(
        &self,
        alloc: Global,
        report: &mut Vec<u8>,
        scenario: &Scenario,
        image: &Image,
        world: &World,
    ) -> Result<(), ScriptError> {
        let transcript = run_in_memory(alloc, scenario, world)?;
        report.extend_from_slice(transcript.as_slice())?;
        let found = run_stored::<K>(alloc, image, scenario, world);
        push_difference(alloc, report, found, transcript.as_slice())?;
        push_lines(
            report,
            fault_report::<K>(alloc, image, self.faults.as_str()),
        )?;
        if self.stops {
            push_line(report, stop_both::<K>(alloc, image, scenario, world))?;
        }
        Ok(())
    }

    /// Appends the reports of changes by SQL and of calls that failed.
    fn push_reports<K: TestKeeper>(
        &self,
        alloc: Global,
        report: &mut Vec<u8>,
        scenario: &Scenario,
        world: &World,
    ) -> Result<(), ScriptError> {
        if !self.faults.is_empty() {
            let lines = fault_lines::<K>(alloc, scenario, world, self.faults.as_str());
            push_lines(report, lines)?;
        }
        if self.stops {
            push_line(report, stop_report::<K>(alloc, scenario, world))?;
        }
        if self.first_stops {
            push_line(report, first_stop_report::<K>(alloc, scenario, world))?;
        }
        Ok(())
    }
}

/// Runs the script over a keeper in memory, and returns its transcript.
fn run_in_memory(
    alloc: Global,
    scenario: &Scenario,
    world: &World,
) -> Result<Vec<u8>, ScriptError> {
    let keeper = ListKeeper::new(world.try_copy(alloc)?);
    let mut transcript = Vec::new(alloc);
    let (keeper, ended) = scenario.run(alloc, keeper, &mut transcript);
    drop(keeper);
    push_end(alloc, &mut transcript, ended)?;
    Ok(transcript)
}

/// Appends the transcript of a run over a database unless it is `wanted`, and how often the database had other
/// mailboxes than it was to keep.
fn push_difference(
    alloc: Global,
    report: &mut Vec<u8>,
    found: Result<Found, KeepError>,
    wanted: &[u8],
) -> Result<(), ScriptError> {
    match found {
        Ok(
            Found {
                transcript,
                ended,
                comparison,
            },
        ) => {
            let (others, unread) = (comparison.others, comparison.unread);
            drop(comparison);
            push_other(alloc, report, transcript, ended, wanted)?;
            push_counts(alloc, report, others, unread)
        }
        Err(error) => Err(script_error(error)),
    }
}

/// Appends the transcript unless it is `wanted`.
fn push_other(
    alloc: Global,
    report: &mut Vec<u8>,
    transcript: Vec<u8>,
    ended: Result<(), ScriptError>,
    wanted: &[u8],
) -> Result<(), ScriptError> {
    let mut transcript = transcript;
    push_end(alloc, &mut transcript, ended)?;
    if transcript.as_slice() != wanted {
        report.extend_from_slice(b"over a database:\n")?;
        report.extend_from_slice(transcript.as_slice())?;
    }
    Ok(())
}

/// Appends how often other mailboxes were loaded, and none, if it happened.
fn push_counts(
    alloc: Global,
    report: &mut Vec<u8>,
    others: u64,
    unread: u64,
) -> Result<(), ScriptError> {
    if others > 0 || unread > 0 {
        let text = format!(in alloc; "{others} times other mailboxes, {unread} times none\n")?;
        report.extend_from_slice(text.as_bytes())?;
    }
    Ok(())
}

/// Runs each line of SQL in a copy of the database that the script leaves.
fn fault_lines<K: TestKeeper>(
    alloc: Global,
    scenario: &Scenario,
    world: &World,
    lines: &str,
) -> Result<String, KeepError> {
    let image = image_after::<K>(alloc, scenario, world)?;
    let lines = fault_report::<K>(alloc, &image, lines);
    drop(image);
    lines
}

/// Appends lines that were made.
fn push_lines(report: &mut Vec<u8>, lines: Result<String, KeepError>) -> Result<(), ScriptError> {
    match lines {
        Ok(lines) => Ok(report.extend_from_slice(lines.as_bytes())?),
        Err(error) => Err(script_error(error)),
    }
}

/// Appends a line that was found.
fn push_line(
    report: &mut Vec<u8>,
    line: Result<&'static str, KeepError>,
) -> Result<(), ScriptError> {
    match line {
        Ok(line) => Ok(report.extend_from_slice(line.as_bytes())?),
        Err(error) => Err(script_error(error)),
    }
}

/// Appends why a script wasn't run to its end, if it wasn't.
fn push_end(
    alloc: Global,
    transcript: &mut Vec<u8>,
    ended: Result<(), ScriptError>,
) -> Result<(), ScriptError> {
    if let Err(error) = ended {
        let text = format!(in alloc; "imapd: {error}\n")?;
        transcript.extend_from_slice(text.as_bytes())?;
    }
    Ok(())
}

fn script_error(error: KeepError) -> ScriptError {
    match error {
        KeepError::Memory => ScriptError::Memory,
        KeepError::Refused | KeepError::Damaged => ScriptError::Io,
    }
}
