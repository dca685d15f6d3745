//! Two runs, compared as one user saw them.

use imap_script::ScriptError;
use std::alloc::Global;

/// A run of a script, as it was reported.
#[derive(Drop)]
struct PastRun {
    name: Vec<u8>,
    report: Vec<u8>,
}

/// The runs so far. One is found by a walk: few are looked for.
#[derive(Drop)]
pub(crate) struct PastRuns(Vec<PastRun>);

impl PastRuns {
    pub(crate) fn new(alloc: Global) -> PastRuns {
        PastRuns(Vec::new(alloc))
    }

    pub(crate) fn push(
        &mut self,
        alloc: Global,
        name: &[u8],
        report: Vec<u8>,
    ) -> Result<(), ScriptError> {
        let name = Vec::from_slice(alloc, name)?;
        self.0.push(PastRun { name, report })?;
        Ok(())
    }

    /// Returns a line for each of the lines `USER in NAME`: whether this user's sessions were sent the same in `report`
    /// as in the run of that name.
    pub(crate) fn compare(
        &self,
        alloc: Global,
        lines: &str,
        report: &[u8],
    ) -> Result<String, ScriptError> {
        let mut found = String::new(alloc);
        for line in lines.lines() {
            let said = match line.split_once(' ') {
                Some((user, rest)) => self.compared(alloc, user, rest, report)?,
                None => "no run",
            };
            found.push_str(format!(in alloc; "as {line}: {said}\n")?.as_str())?;
        }
        Ok(found)
    }

    fn compared(
        &self,
        alloc: Global,
        user: &str,
        rest: &str,
        report: &[u8],
    ) -> Result<&'static str, ScriptError> {
        let Some(past) = self.named(rest) else {
            return Ok("no run");
        };
        let before = told_to(alloc, user, past.report.as_slice())?;
        let now = told_to(alloc, user, report)?;
        if before.as_slice() == now.as_slice() {
            Ok("equal")
        } else {
            Ok("different")
        }
    }

    /// The run of which `in NAME` has the name.
    fn named(&self, text: &str) -> Option<&PastRun> {
        let name = text.strip_prefix("in ")?;
        for past in &self.0 {
            if past.name.as_slice() == name.as_bytes() {
                return Some(past);
            }
        }
        None
    }
}

/// Returns the lines that the user's sessions were sent.
fn told_to(alloc: Global, user: &str, report: &[u8]) -> Result<Vec<u8>, ScriptError> {
    let mut told = Vec::new(alloc);
    for line in report.split_inclusive(|octet| *octet == b'\n') {
        if is_told(user, line) {
            told.extend_from_slice(line)?;
        }
    }
    Ok(told)
}

fn is_told(user: &str, line: &[u8]) -> bool {
    match line.strip_prefix(user.as_bytes()) {
        Some(rest) => rest.starts_with(b"."),
        None => false,
    }
}
