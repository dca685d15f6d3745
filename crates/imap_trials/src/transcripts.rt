//! Transcripts of many scripts.

use crate::owned::put;
use crate::past_runs::PastRuns;
use crate::script_row::ScriptRow;
use imap_script::{ScriptError, read_input};
use std::alloc::Global;
use std::io::{Read, Write};

/// The most reads of the input, of up to 4096 octets each.
const MAX_READS: u32 = 65_536;

/// Runs the scripts of `input`, each after a line `== NAME`, and writes to `output` each of these lines
/// with the report of its script. What stands before the first of them is left out.
pub fn write_transcripts<R: AllocGlobal, I: Read + Drop, O: Write + Drop>(
    rt: &R,
    input: I,
    mut output: O,
) -> Result<(), ScriptError> {
    let alloc = rt.alloc();
    let text = read_input(alloc, input, MAX_READS)?;
    let mut past = PastRuns::new(alloc);
    let mut row = None;
    let written = write_rows(alloc, text.as_slice(), &mut row, &mut past, &mut output);
    drop(row);
    drop(past);
    written
}

/// Runs the scripts of the text. The script that is being read is the one of `row`.
fn write_rows<O: Write>(
    alloc: Global,
    text: &[u8],
    row: &mut Option<ScriptRow>,
    past: &mut PastRuns,
    output: &mut O,
) -> Result<(), ScriptError> {
    for line in text.split_inclusive(|octet| *octet == b'\n') {
        take_line(alloc, line, row, past, output)?;
    }
    end_row(alloc, row, past, output)
}

/// Takes a line, which ends a script and begins another one, or is of the script that is being read if there is one.
fn take_line<O: Write>(
    alloc: Global,
    line: &[u8],
    row: &mut Option<ScriptRow>,
    past: &mut PastRuns,
    output: &mut O,
) -> Result<(), ScriptError> {
    if line.starts_with(b"== ") {
        end_row(alloc, row, past, output)?;
        write_octets(output, line)?;
        put(row, Some(ScriptRow::new(alloc, name_in(alloc, line)?)));
        Ok(())
    } else {
        match row {
            Some(begun) => begun.take_line(alloc, line),
            None => Ok(()),
        }
    }
}

/// Returns what stands after `== `.
fn name_in(alloc: Global, line: &[u8]) -> Result<Vec<u8>, ScriptError> {
    let mut name = Vec::new(alloc);
    name.extend_from_slice(line.strip_prefix(b"== ").unwrap_or(line).trim_ascii_end())?;
    Ok(name)
}

/// Runs the script that was read, if there is one, and writes its report.
fn end_row<O: Write>(
    alloc: Global,
    row: &mut Option<ScriptRow>,
    past: &mut PastRuns,
    output: &mut O,
) -> Result<(), ScriptError> {
    match row.take() {
        Some(row) => {
            let written = write_report(alloc, &row, past, output);
            drop(row);
            written
        }
        None => Ok(()),
    }
}

/// Runs the script of the row, and writes its report and how it compares with `past` runs, of which it becomes one.
fn write_report<O: Write>(
    alloc: Global,
    row: &ScriptRow,
    past: &mut PastRuns,
    output: &mut O,
) -> Result<(), ScriptError> {
    let report = row.report(alloc)?;
    write_octets(output, report.as_slice())?;
    let compared = past.compare(alloc, row.comparisons.as_str(), report.as_slice())?;
    write_octets(output, compared.as_bytes())?;
    past.push(alloc, row.name.as_slice(), report)
}

fn write_octets<O: Write>(output: &mut O, octets: &[u8]) -> Result<(), ScriptError> {
    match output.write_all(octets) {
        Ok(()) => Ok(()),
        Err(_) => Err(ScriptError::Io),
    }
}
