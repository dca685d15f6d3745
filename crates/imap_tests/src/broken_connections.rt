//! Streams that are cut, and readers and writers that fail.

use crate::connection::{Behaviour, OCTETS, WHOLE};
use crate::serving::{expect_after_greeting, serve_anew, shown};
use imap_serve::{End, ServeError};
use std::sync::Wait;

const SENT: &[u8] = b"a1 APPEND INBOX {16+}\r\nSubject: x\r\n\r\nhi\r\n\
a2 SELECT INBOX\r\n\
a3 FETCH 1 (RFC822.SIZE BODY[TEXT])\r\n\
a4 FETCH 1 BODY.PEEK[HEADER.FIELDS (subject)]\r\n";

const WRITTEN: &[u8] =
    b"* PREAUTH [CAPABILITY IMAP4rev2 ACL RIGHTS=texk CONDSTORE ENABLE IDLE QRESYNC] \
shared mailbox profile ready\r\n\
a1 OK [APPENDUID 1 1] done\r\n\
* FLAGS (\\Answered \\Deleted \\Draft \\Flagged \\Seen)\r\n\
* 1 EXISTS\r\n\
* LIST (\\HasNoChildren) \"/\" INBOX\r\n\
* OK [PERMANENTFLAGS (\\Answered \\Deleted \\Draft \\Flagged \\Seen \\*)] flags kept\r\n\
* OK [UIDVALIDITY 1] validity\r\n\
* OK [UIDNEXT 2] next\r\n\
* OK [HIGHESTMODSEQ 2] highest\r\n\
a2 OK [READ-WRITE] done\r\n\
* 1 FETCH (FLAGS (\\Seen) RFC822.SIZE 16 BODY[TEXT] {2}\r\nhi)\r\n\
a3 OK done\r\n\
* 1 FETCH (BODY[HEADER.FIELDS (subject)] {14}\r\nSubject: x\r\n\r\n)\r\n\
a4 OK done\r\n";

/// Whether the session over this text ends so and writes a beginning of what is to be written, the whole of it if
/// `is_whole`.
fn is_beginning<W: Wait + AllocGlobal>(
    rt: &W,
    text: &[u8],
    behaviour: Behaviour,
    end: Result<End, ServeError>,
    is_whole: bool,
) -> bool {
    match serve_anew(rt, text, behaviour) {
        Ok(served) => {
            let written = served.written.as_slice();
            WRITTEN.starts_with(written)
                && (written.len() == WRITTEN.len()) == is_whole
                && served.end == end
        }
        Err(_) => false,
    }
}

const ENDED: Result<End, ServeError> = Ok(End::InputEnded);

#[test]
fn the_cut_makes_no_difference(rt: HostRuntime) {
    for first in 1..SENT.len() {
        let behaviour = Behaviour { first, ..WHOLE };
        let is_cut = is_beginning(&rt, SENT, behaviour, ENDED, true);
        assert!(rt; is_cut, "cut after {first}");
    }
}

#[test]
fn a_beginning_is_served(rt: HostRuntime) {
    for length in 0..SENT.len() + 1 {
        let text = SENT.get(..length).unwrap_or(SENT);
        let is_served = is_beginning(&rt, text, WHOLE, ENDED, length == SENT.len());
        assert!(rt; is_served, "{length} octets");
    }
}

/// The last read finds the end.
#[test]
fn a_reader_fails(rt: HostRuntime) {
    for reads in 0..SENT.len() as u32 + 2 {
        let behaviour = Behaviour { reads, ..OCTETS };
        let reads = reads as usize;
        let end = if reads <= SENT.len() {
            Err(ServeError::Read)
        } else {
            ENDED
        };
        let is_right = is_beginning(&rt, SENT, behaviour, end, reads >= SENT.len());
        assert!(rt; is_right, "read {reads}");
    }
}

/// A write fails, or takes nothing.
#[test]
fn a_writer_fails(rt: HostRuntime) {
    const TROUBLES: &[bool] = &[false, true];
    for writes in 0..WRITTEN.len() as u32 + 1 {
        let is_whole = writes as usize >= WRITTEN.len();
        let end = if is_whole {
            ENDED
        } else {
            Err(ServeError::Write)
        };
        for &takes_nothing in TROUBLES {
            let behaviour = Behaviour {
                writes,
                takes_nothing,
                ..OCTETS
            };
            let is_right = is_beginning(&rt, SENT, behaviour, end, is_whole);
            assert!(rt; is_right, "write {writes}, {takes_nothing}");
        }
    }
}

/// A session ends after three reads that bring nothing. A read fails after these, or after two.
#[test]
fn a_session_ends_before_a_read_fails(rt: HostRuntime) {
    const ROWS: &[(u32, &[u8])] = &[(3, b"* BYE idle too long\r\nOk(Idle)"), (2, b"Err(Read)")];
    for &(reads, wanted) in ROWS {
        let behaviour = Behaviour {
            reads,
            is_silent: true,
            ..WHOLE
        };
        let served = serve_anew(&rt, b"", behaviour);
        expect_after_greeting(&rt, shown(rt.alloc(), served), wanted);
    }
}

/// A read is made again up to 1,000 times, and so is a write.
#[test]
fn reads_and_writes_are_interrupted(rt: HostRuntime) {
    const ROWS: &[(u32, u32, Result<End, ServeError>)] = &[
        (1000, 0, ENDED),
        (1001, 0, Err(ServeError::Read)),
        (0, 1000, ENDED),
        (0, 1001, Err(ServeError::Write)),
    ];
    for &(interrupted_reads, interrupted_writes, end) in ROWS {
        let behaviour = Behaviour {
            interrupted_reads,
            interrupted_writes,
            ..WHOLE
        };
        let is_right = is_beginning(&rt, SENT, behaviour, end, end.is_ok());
        assert!(rt; is_right, "{interrupted_reads} {interrupted_writes}");
    }
}
