//! Databases that were changed by other means.

use crate::database::{TestKeeper, load};
use crate::file::Image;
use imap_keeper::KeepError;
use std::alloc::{AllocError, Global};

/// Runs each of these lines of SQL by itself in a copy of the database. Returns each with what is loaded
/// then.
pub(crate) fn fault_report<K: TestKeeper>(
    alloc: Global,
    image: &Image,
    lines: &str,
) -> Result<String, KeepError> {
    let mut report = String::new(alloc);
    for line in lines.lines() {
        let found = found_after::<K>(alloc, image, line)?;
        push_line(alloc, &mut report, line, found)?;
    }
    Ok(report)
}

fn push_line(
    alloc: Global,
    report: &mut String,
    line: &str,
    found: &str,
) -> Result<(), AllocError> {
    let text = format!(in alloc; "-- {line}: {found}\n")?;
    report.push_str(text.as_str())
}

/// Returns what is loaded after a line of SQL.
fn found_after<K: TestKeeper>(
    alloc: Global,
    image: &Image,
    line: &str,
) -> Result<&'static str, KeepError> {
    match K::execute(alloc, image, line) {
        Ok(image) => {
            let found = found::<K>(alloc, &image);
            drop(image);
            found
        }
        Err(KeepError::Memory) => Err(KeepError::Memory),
        Err(KeepError::Refused | KeepError::Damaged) => Ok("refused"),
    }
}

/// Returns what is loaded of the database.
fn found<K: TestKeeper>(alloc: Global, image: &Image) -> Result<&'static str, KeepError> {
    let (loaded, left) = load::<K>(alloc, image)?;
    let is_same = left.written.has_same_database(image);
    drop(left);
    match loaded.err() {
        None => Ok("loaded"),
        Some(KeepError::Damaged) if is_same => Ok("damaged"),
        Some(KeepError::Damaged) => Ok("damaged, and changed"),
        Some(error) => Err(error),
    }
}
