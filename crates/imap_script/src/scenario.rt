//! A whole script, read.

use crate::error::ScriptError;
use crate::head::{Head, HeadWord, Start};
use crate::line::LineError;
use crate::owned::with_made;
use crate::run::run_steps;
use crate::step::ScriptStep;
use imap_hall::Moment;
use imap_keeper::Keeper;
use imap_limits::read_number;
use imap_world::World;
use std::alloc::Global;
use std::io::Write;
use std::str;

/// A whole script but for the mailboxes at its start: users, limits, and the steps.
#[derive(Drop)]
pub struct Scenario {
    start: Start,
    steps: Vec<ScriptStep>,
}

impl Scenario {
    /// Reads a script. Returns it with the mailboxes at its start. Fails with its first bad line. A script
    /// without an administrator is bad at the line after its last.
    pub fn read(alloc: Global, text: &[u8]) -> Result<(Scenario, World), ScriptError> {
        let mut draft = Draft::new(alloc);
        let taken = draft.take_all(alloc, text);
        let (draft, line) = with_made(draft, taken)?;
        match draft.finish(alloc) {
            Ok(read) => Ok(read),
            Err(error) => Err(error.at(line)),
        }
    }

    /// Runs the script over a keeper of the mailboxes at its start, and writes its transcript to `output`.
    /// Returns the keeper. Fails with `Io` if the keeper refuses at the start. If it refuses later, the
    /// transcript says UNAVAILABLE (RFC 5530).
    pub fn run<K: Keeper, O: Write + Drop>(
        &self,
        alloc: Global,
        keeper: K,
        output: O,
    ) -> (K, Result<(), ScriptError>) {
        match self.start.open(alloc, keeper) {
            Ok(hall) => run_steps(
                alloc,
                hall,
                self.start.max_octets(),
                self.steps.as_slice(),
                output,
            ),
            Err((error, keeper)) => (keeper, Err(error)),
        }
    }
}

/// The part of a script that has been read.
#[derive(Drop)]
struct Draft {
    head: Option<Head>,
    /// The moment of the next step, after the first step line.
    clock: Option<Moment>,
    steps: Vec<ScriptStep>,
}

impl Draft {
    fn new(alloc: Global) -> Draft {
        Draft {
            head: None,
            clock: None,
            steps: Vec::new(alloc),
        }
    }

    /// Returns the whole script. Fails with `Bad` without an administrator.
    fn finish(self, alloc: Global) -> Result<(Scenario, World), LineError> {
        let Draft {
            head,
            clock: _,
            steps,
        } = self;
        let (steps, (start, world)) = with_made(steps, finish_head(alloc, head))?;
        Ok((Scenario { start, steps }, world))
    }

    /// Takes all lines. Returns the number of the line after the last.
    fn take_all(&mut self, alloc: Global, text: &[u8]) -> Result<u64, ScriptError> {
        let mut line = 1u64;
        for octets in text.split_inclusive(|octet| *octet == b'\n') {
            if let Err(error) = self.take_line(alloc, octets) {
                return Err(error.at(line));
            }
            line = line.saturating_add(1);
        }
        Ok(line)
    }

    /// Takes a line, with or without the LF that ends it.
    fn take_line(&mut self, alloc: Global, octets: &[u8]) -> Result<(), LineError> {
        let octets = octets.strip_suffix(b"\n").unwrap_or(octets);
        let line = str::from_utf8(octets).map_err(|_| LineError::Bad)?;
        if line.is_empty() || line.starts_with("#") {
            return Ok(());
        }
        let (word, rest) = line.split_once(' ').ok_or(LineError::Bad)?;
        match HeadWord::read(word) {
            Some(head_word) => self.take_head_line(alloc, head_word, rest),
            None => self.take_step_line(alloc, word, rest),
        }
    }

    fn take_head_line(
        &mut self,
        alloc: Global,
        word: HeadWord,
        rest: &str,
    ) -> Result<(), LineError> {
        if self.clock.is_some() {
            return Err(LineError::Bad);
        }
        match &mut self.head {
            Some(head) => head.take_line(alloc, word, rest),
            None if word == HeadWord::Admin => {
                self.head = Some(Head::begin(alloc, rest)?);
                Ok(())
            }
            None => Err(LineError::Bad),
        }
    }

    fn take_step_line(&mut self, alloc: Global, word: &str, rest: &str) -> Result<(), LineError> {
        if self.head.is_none() {
            return Err(LineError::Bad);
        }
        if word == "at" {
            self.clock = Some(read_moment(rest).ok_or(LineError::Bad)?);
            return Ok(());
        }
        let at = self.clock.unwrap_or(Moment::epoch());
        self.clock = Some(at);
        if let Some(step) = ScriptStep::read(alloc, at, word, rest)? {
            self.steps.push(step)?;
        }
        Ok(())
    }
}

/// What the head says. Fails with `Bad` without one.
fn finish_head(alloc: Global, head: Option<Head>) -> Result<(Start, World), LineError> {
    match head {
        Some(head) => head.finish(alloc),
        None => Err(LineError::Bad),
    }
}

/// Seconds from 1970-01-01 UTC.
fn read_moment(text: &str) -> Option<Moment> {
    Moment::from_seconds(read_number(text, 0, u64::MAX)?)
}
