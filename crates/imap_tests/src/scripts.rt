//! Scripts that are no text, and inputs and outputs of scripts that fail. What scripts do is shown by the crate
//! `imap_transcripts`.

use crate::connection::{Behaviour, Sink, Source, WHOLE};
use crate::wanted::expect;
use imap_script::{ScriptError, read_input, script};
use std::alloc::{AllocError, Global};
use std::io::{ErrorKind, Read};

/// What the program writes for the script, and why the script isn't run to its end if it isn't.
fn outcome<R: AllocGlobal, I: Read + Drop>(rt: &R, input: I) -> Result<Vec<u8>, AllocError> {
    let mut written = Vec::new(rt.alloc());
    let ran = script(rt, input, &mut written);
    with_error(rt.alloc(), written, ran)
}

fn with_error(
    alloc: Global,
    mut written: Vec<u8>,
    ran: Result<(), ScriptError>,
) -> Result<Vec<u8>, AllocError> {
    if let Err(error) = ran {
        let text = error.to_string(alloc)?;
        written.extend_from_slice(text.as_bytes())?;
    }
    Ok(written)
}

/// Scripts with a line that is no UTF-8.
#[test]
fn finds_the_first_bad_line(rt: HostRuntime) {
    const ROWS: &[(&[u8], &[u8])] = &[
        (b"# \xff\nadmin root\n", b"line 1: bad script"),
        (b"admin root\n#\xc3\n", b"line 2: bad script"),
    ];
    for &(text, wanted) in ROWS {
        expect(&rt, outcome(&rt, text), wanted);
    }
}

/// The script that the program `imapd` has beside `src/`.
const SCRIPT: &[u8] = b"admin root
user ann
ann.1 open
ann.1 < a1 MYRIGHTS INBOX
ann.1 < a2 LOGOUT
";

const TRANSCRIPT: &[u8] =
    b"ann.1 > * PREAUTH [CAPABILITY IMAP4rev2 ACL RIGHTS=texk CONDSTORE ENABLE IDLE QRESYNC] \
    shared mailbox profile ready
ann.1 > * MYRIGHTS INBOX lrswipkxtea
ann.1 > a1 OK done
ann.1 > * BYE logging out
ann.1 > a2 OK done
";

/// Octets come and go in pieces of at most 16.
const PIECES: Behaviour = Behaviour {
    first: 16,
    most: 16,
    ..WHOLE
};

/// The script, of which the read after the first `reads` fails with `read_error`, and all later ones too if
/// `is_lasting`.
fn stored(reads: u32, read_error: ErrorKind, is_lasting: bool) -> Source<'static> {
    Source::new(
        SCRIPT,
        Behaviour {
            reads,
            read_error,
            is_lasting,
            ..PIECES
        },
    )
}

/// The stored script has 75 octets, so that six reads come to its end. A read that is interrupted is made
/// again.
#[test]
fn a_read_fails(rt: HostRuntime) {
    const FAILED: &[u8] = b"input or output failed";
    for reads in 0..7 {
        let wanted = if reads < 6 { FAILED } else { TRANSCRIPT };
        let broken = stored(reads, ErrorKind::BrokenPipe, true);
        expect(&rt, outcome(&rt, broken), wanted);
        let interrupted = stored(reads, ErrorKind::Interrupted, false);
        expect(&rt, outcome(&rt, interrupted), TRANSCRIPT);
    }
}

/// What is read in at most `max_reads` reads, or why it isn't.
fn text_read(alloc: Global, source: Source<'_>, max_reads: u32) -> Result<Vec<u8>, AllocError> {
    match read_input(alloc, source, max_reads) {
        Ok(octets) => Ok(octets),
        Err(error) => with_error(alloc, Vec::new(alloc), Err(error)),
    }
}

#[test]
fn reads_are_counted(rt: HostRuntime) {
    const ROWS: &[(u32, bool, u32, bool)] = &[
        // No read fails.
        (u32::MAX, false, 5, false),
        (u32::MAX, false, 6, true),
        // The third is interrupted, and so are all after it in the last row.
        (2, false, 6, false),
        (2, false, 7, true),
        (2, true, 1000, false),
    ];
    for &(reads, is_lasting, max_reads, is_read) in ROWS {
        let source = stored(reads, ErrorKind::Interrupted, is_lasting);
        let wanted = if is_read {
            SCRIPT
        } else {
            b"input or output failed"
        };
        expect(&rt, text_read(rt.alloc(), source, max_reads), wanted);
    }
}

/// Whether the sink took the transcript up to its last good write, and the run ended as it is to.
fn is_written<R: AllocGlobal>(rt: &R, behaviour: Behaviour) -> bool {
    let mut output = Sink::new(rt.alloc(), behaviour);
    let ran = script(rt, SCRIPT, &mut output);
    let is_whole = output.taken.len() == TRANSCRIPT.len();
    let is_right = match ran {
        Ok(()) => is_whole && !behaviour.fails_to_flush,
        Err(ScriptError::Io) => !is_whole || behaviour.fails_to_flush,
        Err(_) => false,
    };
    is_right
        && is_whole == (behaviour.writes == 14)
        && TRANSCRIPT.starts_with(output.taken.as_slice())
}

/// The stored transcript has 217 octets, which are 14 writes. After the last good one a write fails or takes nothing,
/// or the flush fails too.
#[test]
fn a_write_fails(rt: HostRuntime) {
    const TROUBLES: &[(bool, bool)] = &[(false, false), (true, false), (false, true)];
    for writes in 0..15 {
        for &(takes_nothing, fails_to_flush) in TROUBLES {
            let behaviour = Behaviour {
                writes,
                takes_nothing,
                fails_to_flush,
                ..PIECES
            };
            assert!(rt;
                is_written(&rt, behaviour),
                "write {writes}, {takes_nothing} {fails_to_flush}"
            );
        }
    }
}
