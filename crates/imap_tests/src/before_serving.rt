//! What the program looks at before it serves, or while it waits for clients.

ghost use Rattle.std.specs.Prelude.{◌<◌};

use imap_service::{
    AcceptFaults, FirstLine, LogLook, Opening, WrongLogins, look_at, needed, read_limit,
};
use std::alloc::{AllocError, Global};
use std::io::{self, ErrorKind};
use std::time::Duration;

/// What a line begins that has these octets, in pieces of this size.
fn opening(alloc: Global, text: &[u8], size: usize) -> Option<Opening>
    requires { 0 < size }
{
    let mut line = FirstLine::new(alloc);
    for piece in text.chunks(size) {
        line.take(piece).ok()?;
    }
    Some(line.opening())
}

#[test]
fn tells_commands_from_other_protocols(rt: HostRuntime) {
    const ROWS: &[(&[u8], Opening)] = &[
        (b"a1 NOOP\r\n", Opening::Command),
        (b"A NOOP\n", Opening::Command),
        (b"1] capability\r", Opening::Command),
        (
            b"a Login ann s3cret\r\nGET / HTTP/1.1\r\n",
            Opening::Command,
        ),
        (b"x.1 XAPPLEPUSHSERVICE aps", Opening::Command),
        (b". UNAUTHENTICATE\r\n", Opening::Command),
        (b"LIST LIST \"\" *", Opening::Command),
        (b"", Opening::Open),
        (b"a1", Opening::Open),
        (b"a1 ", Opening::Open),
        (b"a1 NOOP", Opening::Open),
        (b"GET /", Opening::Open),
        (b"GET / HTTP/1.1\r\n", Opening::Refused),
        (b"GET / HTTP/2\r\n", Opening::Refused),
        (b"POST /x?y=z HTTP/1.0\r\na CREATE x\r\n", Opening::Refused),
        (b"OPTIONS * HTTP/1.1\r\n", Opening::Refused),
        (b"get /\r\n", Opening::Refused),
        (b"PRI * HTTP/2.0\r\n", Opening::Refused),
        (b"SSH-2.0-OpenSSH_9.6\r\n", Opening::Refused),
        (b"EHLO host\r\n", Opening::Refused),
        (b"EHLO xhost\r\n", Opening::Refused),
        (b"USER ann\r\n", Opening::Refused),
        (b"PROXY TCP4 127.0.0.1", Opening::Refused),
        (b"\x16\x03\x01\x02\x00", Opening::Refused),
        (b"\r\na1 NOOP\r\n", Opening::Refused),
        (b" NOOP\r\n", Opening::Refused),
        (b"NOOP\r\n", Opening::Refused),
        (b"a1  NOOP\r\n", Opening::Refused),
        (b"a1\tNOOP\r\n", Opening::Refused),
        (b"a1 NOOPS\r\n", Opening::Refused),
        (b"a1 NOOP\t", Opening::Open),
        (b"a1 NOOP\t\r\n", Opening::Refused),
        (b"a+1 NOOP\r\n", Opening::Refused),
        (b"a1 XAPPLEPUSHSERVICES", Opening::Refused),
    ];
    for &(text, wanted) in ROWS {
        let found = (
            opening(rt.alloc(), text, 1),
            opening(rt.alloc(), text, 1000),
        );
        assert!(rt; found == (Some(wanted), Some(wanted)), "{text:?}");
    }
}

/// The answer to a wrong login waits longer from one to the next, and at once again after a right one.
#[test]
fn answers_to_wrong_logins_wait(rt: HostRuntime) {
    const MILLIS: &[u64] = &[0, 250, 500, 1000, 2000, 4000, 5000, 5000];
    let mut wrong = WrongLogins::new();
    for &millis in MILLIS {
        assert!(rt; wrong.add() == Duration::from_millis(millis));
    }
    wrong.clear();
    assert!(rt; wrong.add() == Duration::ZERO);
}

/// Limits as Linux shows them.
#[test]
fn reads_how_many_files_may_be_open(rt: HostRuntime) {
    const LIMITED: &str =
        "Limit                     Soft Limit           Hard Limit           Units     \n\
        Max processes             95571                95571                processes \n\
        Max open files            1024                 524288               files     \n";
    const UNLIMITED: &str =
        "Max open files            unlimited            unlimited            files     \n";
    assert!(rt; read_limit(LIMITED) == Some(1024));
    assert!(rt; read_limit(UNLIMITED).is_none() && read_limit("").is_none());
    assert!(rt; needed(20, 0) <= 1024 && needed(21, 0) > 1024);
    assert!(rt; needed(8, 8) <= 1024 && needed(9, 9) > 1024);
}

/// Returns after how many failing accepts a listener is given up, of 40.
fn given_up(code: i32) -> u32 {
    let mut faults = AcceptFaults::new();
    let mut count: u32 = 0;
    for _ in 0..40 {
        if !faults.may_go_on(&io::Error::from_raw_os_error(code)) {
            break;
        }
        count = count.saturating_add(1);
    }
    count
}

/// Sixteen faults (`EINVAL`) end it. Want of descriptors (`EMFILE`) and clients that gave up (`ECONNABORTED`) don't.
#[test]
fn waits_after_failing_accepts(rt: HostRuntime) {
    assert!(rt; given_up(22) == 15 && given_up(24) == 40 && given_up(103) == 40);
    const MILLIS: &[u64] = &[10, 20, 40, 80, 160, 320, 640, 1000, 1000];
    let mut faults = AcceptFaults::new();
    for &millis in MILLIS {
        let _goes_on = faults.may_go_on(&io::Error::from(ErrorKind::ConnectionAborted));
        assert!(rt; faults.pause() == Duration::from_millis(millis));
    }
}

/// A log as SQLite writes it, with pages of 512 octets: one commit of one page, and one of two.
const HEADER: &[u8] = b"\x37\x7f\x06\x82\x00\x2d\xe2\x18\x00\x00\x02\x00\x00\x00\x00\x01\
    \x01\x02\x03\x04\x0a\x0b\x0c\x0d\xd9\xce\x05\x14\x9f\xb3\xe7\xc3";

const FRAMES: &[&[u8]] = &[
    b"\x00\x00\x00\x01\x00\x00\x00\x01\x01\x02\x03\x04\x0a\x0b\x0c\x0d\x3c\x52\xb2\xfa\xbd\x23\xe6\x2c",
    b"\x00\x00\x00\x01\x00\x00\x00\x00\x01\x02\x03\x04\x0a\x0b\x0c\x0d\x6e\x71\x27\x85\xdb\xfe\x5b\x67",
    b"\x00\x00\x00\x02\x00\x00\x00\x02\x01\x02\x03\x04\x0a\x0b\x0c\x0d\x8b\x71\x48\xd5\x94\x79\x90\x6c",
];

const PAGES: &[u8] = &[1, 1, 2];

/// The log, of which the octet at `at` has one bit changed, up to `length`.
fn log(alloc: Global, length: usize, at: Option<usize>) -> Result<Vec<u8>, AllocError> {
    let mut log = Vec::new(alloc);
    log.extend_from_slice(HEADER)?;
    for (frame, page) in FRAMES.iter().zip(PAGES) {
        log.extend_from_slice(frame)?;
        log.push(*page)?;
        log.resize(log.len().saturating_add(511), 0)?;
    }
    log.truncate(length);
    if let Some(at) = at {
        if let Some(octet) = log.get_mut(at) {
            *octet ^= 1;
        }
    }
    Ok(log)
}

fn looked_at(alloc: Global, length: usize, at: Option<usize>) -> Option<LogLook> {
    let log = log(alloc, length, at).ok()?;
    look_at(alloc, &mut log.as_slice()).ok()
}

#[test]
fn looks_at_a_log(rt: HostRuntime) {
    const SALTS: Option<(u32, u32)> = Some((0x0102_0304, 0x0a0b_0c0d));
    const ROWS: &[(usize, Option<usize>, u64, Option<(u32, u32)>, bool)] = &[
        (1640, None, 0, SALTS, true),
        (568, None, 0, SALTS, true),
        (1104, None, 536, SALTS, true),
        (1300, None, 732, SALTS, true),
        (1640, Some(3), 1640, None, false),
        (1640, Some(40), 1608, SALTS, true),
        (1640, Some(600), 1072, SALTS, true),
        (1640, Some(1639), 1072, SALTS, true),
        (41, None, 0, SALTS, false),
        (41, Some(3), 0, None, false),
    ];
    for &(length, at, unread, salts, is_written) in ROWS {
        let wanted = LogLook {
            length: length as u64,
            unread,
            salts,
            is_written,
        };
        assert!(rt;
            looked_at(rt.alloc(), length, at) == Some(wanted),
            "{length} {at:?}"
        );
    }
}
