//! What of a database's log isn't read when the database is opened.
//!
//! SQLite reads a log up to the first frame whose salt or checksum is wrong, and says nothing of the rest: that may be
//! the torn end that a crash left, or mail that was lost by a changed bit.

use crate::report::Report;
use crate::service_error::ServiceError;
use imap_options::LogLevel;
use std::alloc::Global;
use std::fs;
use std::io::{self, BufReader, Read};
use std::rt::Files;

/// The octets of a log's header, and of that of each frame (SQLite's file format, section 4.1).
const HEADER: usize = 32;

const FRAME_HEADER: usize = 24;

/// Up to this length a file is no log: a log that was put back into its database is cut to it.
const EMPTY: u64 = 41;

/// How a log begins whose checksums read words of four octets from the least octet, and from the greatest.
const MAGIC: (u32, u32) = (0x377f_0682, 0x377f_0683);

/// The smallest and the largest page.
const PAGES: (u32, u32) = (512, 65_536);

/// The running checksum of a log.
#[derive(Clone, Copy, PartialEq, Eq)]
struct Sum {
    first: u32,
    second: u32,
}

/// What the header of a log says.
#[derive(Clone, Copy)]
struct Log {
    is_big_endian: bool,
    page: u32,
    salt: (u32, u32),
    sum: Sum,
}

/// How far a log was looked at, in octets.
#[derive(Clone, Copy)]
struct Walk {
    /// All before this.
    at: u64,
    /// The end of the last commit that is read.
    read: u64,
    /// The end of the last frame that was written after this header.
    written: u64,
    /// Whether each frame so far is read.
    is_whole: bool,
    sum: Sum,
}

/// Reports how many octets of a log aren't read when its database is opened, if any aren't.
pub fn report_unread<R: Eprint>(rt: &R, level: LogLevel, look: LogLook) {
    if look.unread > 0 {
        Report::new(rt, level).unread_log(look.unread);
    }
}

/// Looks at the log of the database at `path`. Returns `None` if it has none. A log that can't be read is for the
/// database to refuse: it counts as one without an end.
pub fn look_at_log<R: Files + AllocGlobal>(
    rt: &R,
    path: &str,
) -> Result<Option<LogLook>, ServiceError> {
    let name = format!(in rt.alloc(); "{path}-wal")?;
    let Ok(file) = fs::open(rt, name.as_str()) else {
        return Ok(None);
    };
    let Ok(mut input) = BufReader::new(rt.alloc(), file) else {
        return Err(ServiceError::Memory);
    };
    match look_at(rt.alloc(), &mut input) {
        Ok(look) => Ok(Some(look)),
        Err(_) => Ok(Some(LogLook {
            length: u64::MAX,
            unread: 0,
            salts: None,
            is_written: true,
        })),
    }
}

/// What a log holds, in octets.
#[derive(Clone, Copy, PartialEq, Eq)]
pub struct LogLook {
    pub length: u64,
    /// The octets of frames that aren't read when the database is opened.
    pub unread: u64,
    /// The salts of its header, if it has one.
    pub salts: Option<(u32, u32)>,
    /// Whether frames were written after this header.
    pub is_written: bool,
}

impl LogLook {
    /// Whether the file holds more than a log that was put back into its database.
    pub fn has_frames(&self) -> bool {
        self.length > EMPTY
    }
}

/// Looks at a database's log.
pub fn look_at<I: Read>(alloc: Global, input: &mut I) -> io::Result<LogLook> {
    let mut header = [0u8; HEADER];
    let count = fill(input, &mut header)?;
    match Log::of_header(&header) {
        Some(log) if count == HEADER => look_at_frames(alloc, input, &log),
        _ => {
            let rest = skip(input)?;
            let length = rest.saturating_add(count as u64);
            let unread = if length > EMPTY { length } else { 0 };
            Ok(LogLook {
                length,
                unread,
                salts: None,
                is_written: false,
            })
        }
    }
}

impl Log {
    /// Reads a header. Returns `None` if it is none, or its checksum is wrong.
    fn of_header(header: &[u8]) -> Option<Log> {
        let magic = word(header, 0, true);
        let page = word(header, 8, true);
        let is_big_endian = magic == MAGIC.1;
        let start = Sum {
            first: 0,
            second: 0,
        };
        let sum = start.after(header.get(..24).unwrap_or(&[]), is_big_endian);
        let is_log = (is_big_endian || magic == MAGIC.0)
            && page >= PAGES.0
            && page <= PAGES.1
            && page.is_power_of_two()
            && sum == stored_sum(header, 24);
        if !is_log {
            return None;
        }
        let salt = (word(header, 16, true), word(header, 20, true));
        Some(Log {
            is_big_endian,
            page,
            salt,
            sum,
        })
    }
}

/// Looks at all frames of a log.
fn look_at_frames<I: Read>(alloc: Global, input: &mut I, log: &Log) -> io::Result<LogLook> {
    let size = FRAME_HEADER.saturating_add(log.page as usize);
    let mut frame = Vec::new(alloc);
    frame.resize(size, 0u8)?;
    let mut walk = Walk {
        at: HEADER as u64,
        read: HEADER as u64,
        written: HEADER as u64,
        is_whole: true,
        sum: log.sum,
    };
    for _ in 0..u64::MAX {
        let count = fill(input, &mut frame)?;
        walk = walk.after(log, frame.get(..count).unwrap_or(&[]), count == size);
        if count < size {
            break;
        }
    }
    Ok(LogLook {
        length: walk.at,
        unread: walk.written.saturating_sub(walk.read),
        salts: Some(log.salt),
        is_written: walk.written > HEADER as u64,
    })
}

impl Walk {
    /// Goes on by one more frame, or what there is of it.
    fn after(self, log: &Log, frame: &[u8], is_full: bool) -> Walk {
        let mut walk = self;
        walk.at = walk.at.saturating_add(frame.len() as u64);
        if frame.len() < FRAME_HEADER {
            return walk;
        }
        let salt = (word(frame, 8, true), word(frame, 12, true));
        if salt.0 == log.salt.0 || salt.1 == log.salt.1 {
            walk.written = walk.at;
        }
        let front = frame.get(..8).unwrap_or(&[]);
        let page = frame.get(FRAME_HEADER..).unwrap_or(&[]);
        let sum = walk
            .sum
            .after(front, log.is_big_endian)
            .after(page, log.is_big_endian);
        walk.is_whole = walk.is_whole
            && is_full
            && salt == log.salt
            && sum == stored_sum(frame, 16);
        walk.sum = sum;
        if walk.is_whole && word(frame, 4, true) != 0 {
            walk.read = walk.at;
        }
        walk
    }
}

impl Sum {
    /// The checksum with further octets, of which eight are taken at a time.
    fn after(self, octets: &[u8], is_big_endian: bool) -> Sum {
        let mut sum = self;
        for pair in octets.chunks_exact(8) {
            let (first, second) = (word(pair, 0, is_big_endian), word(pair, 4, is_big_endian));
            sum.first = sum.first.wrapping_add(first).wrapping_add(sum.second);
            sum.second = sum.second.wrapping_add(second).wrapping_add(sum.first);
        }
        sum
    }
}

/// The checksum that stands at `at`.
fn stored_sum(octets: &[u8], at: usize) -> Sum {
    Sum {
        first: word(octets, at, true),
        second: word(octets, at.saturating_add(4), true),
    }
}

/// The word of four octets at `at`. What isn't there counts as 0.
fn word(octets: &[u8], at: usize, is_big_endian: bool) -> u32 {
    let mut bytes = [0u8; 4];
    for (byte, octet) in bytes.iter_mut().zip(octets.iter().skip(at)) {
        *byte = *octet;
    }
    if is_big_endian {
        u32::from_be_bytes(bytes)
    } else {
        u32::from_le_bytes(bytes)
    }
}

/// Reads until `buf` is full, or the input is at its end. Returns how many octets were read.
fn fill<I: Read>(input: &mut I, buf: &mut [u8]) -> io::Result<usize> {
    let mut count: usize = 0;
    for _ in 0..u64::MAX {
        let Some(rest) = buf.get_mut(count..) else {
            break;
        };
        let more = input.read(rest)?;
        if more == 0 {
            break;
        }
        count = count.saturating_add(more);
    }
    Ok(count)
}

/// Reads to the end of the input. Returns how many octets there were.
fn skip<I: Read>(input: &mut I) -> io::Result<u64> {
    let mut buf = [0u8; 4096];
    let mut count: u64 = 0;
    for _ in 0..u64::MAX {
        let more = input.read(&mut buf)?;
        if more == 0 {
            break;
        }
        count = count.saturating_add(more as u64);
    }
    Ok(count)
}
