//! Ranges of UIDs in the lines of a dump.

use std::alloc::{AllocError, Global};

/// The UIDs from the first to the last.
#[derive(Clone, Copy)]
pub struct UidRange {
    pub first: u32,
    pub last: u32,
}

/// Appends rising UIDs as ranges, `1:3,5`.
pub(crate) fn push_uids(out: &mut Vec<u8>, alloc: Global, uids: &[u32]) -> Result<(), AllocError> {
    for (place, range) in ranges_of(alloc, uids)?.as_slice().iter().enumerate() {
        if place != 0 {
            out.push(b',')?;
        }
        push_range(out, alloc, *range)?;
    }
    Ok(())
}

fn push_range(out: &mut Vec<u8>, alloc: Global, range: UidRange) -> Result<(), AllocError> {
    let UidRange { first, last } = range;
    let text = if first == last {
        format!(in alloc; "{first}")?
    } else {
        format!(in alloc; "{first}:{last}")?
    };
    out.extend_from_slice(text.as_bytes())
}

/// The ranges of rising UIDs: each as long as it can be.
fn ranges_of(alloc: Global, uids: &[u32]) -> Result<Vec<UidRange>, AllocError> {
    let mut ranges: Vec<UidRange> = Vec::new(alloc);
    for &uid in uids {
        match ranges.as_mut_slice().last_mut() {
            Some(range) if range.last.saturating_add(1) == uid => range.last = uid,
            _ => ranges.push(UidRange {
                first: uid,
                last: uid,
            })?,
        }
    }
    Ok(ranges)
}

/// Reads ranges that rise, as they are written. Returns `None` if the text has another form.
pub(crate) fn read_uids(alloc: Global, text: &str) -> Result<Option<Vec<UidRange>>, AllocError> {
    let mut ranges = Vec::new(alloc);
    let mut before = 0;
    for part in text.split(',') {
        match read_range(part) {
            Some(range) if before < range.first => {
                before = range.last;
                ranges.push(range)?;
            }
            _ => return Ok(None),
        }
    }
    Ok(Some(ranges))
}

fn read_range(text: &str) -> Option<UidRange> {
    let (first, last) = text.split_once(':').unwrap_or((text, text));
    let range = UidRange {
        first: first.parse().ok()?,
        last: last.parse().ok()?,
    };
    if range.first <= range.last {
        Some(range)
    } else {
        None
    }
}

/// Whether the UID is in one of the rising ranges.
pub(crate) fn has_uid(ranges: &[UidRange], uid: u32) -> bool {
    let place = ranges.partition_point(|range| range.last < uid);
    match ranges.get(place) {
        Some(range) => range.first <= uid,
        None => false,
    }
}
