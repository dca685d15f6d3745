//! Streams that no script has: a long literal, want of memory, and pieces after a hangup.

use crate::wanted::expect;
use imap_lex::*;
use std::alloc::{AllocError, Global};

/// Appends each command, `+` where the client is to go on, and `!` for each other frame.
fn show(frames: &[Frame], out: &mut Vec<u8>) -> Result<(), AllocError> {
    for frame in frames {
        match frame {
            Frame::Whole(octets) => out.extend_from_slice(octets.as_slice())?,
            Frame::Continue => out.extend_from_slice(b"+")?,
            _ => out.extend_from_slice(b"!")?,
        }
    }
    Ok(())
}

/// Feeds one piece, and appends the frames that end in it, an error in angle brackets.
fn feed(
    alloc: Global,
    framer: &mut Framer,
    piece: &[u8],
    out: &mut Vec<u8>,
) -> Result<(), AllocError> {
    match framer.feed(alloc, piece) {
        Ok(frames) => {
            let shown = show(&frames, out);
            drop(frames);
            shown
        }
        Err(error) => {
            let text = format!(in alloc; "<{error}>")?;
            out.extend_from_slice(text.as_bytes())
        }
    }
}

/// The frames of the stream, which is fed in pieces of `size` octets to a framer with this limit.
fn told(alloc: Global, max_octets: u64, stream: &[u8], size: usize) -> Result<Vec<u8>, AllocError> {
    let mut framer = Framer::new(alloc, max_octets);
    let mut out = Vec::new(alloc);
    for piece in stream.chunks(size.max(1)) {
        feed(alloc, &mut framer, piece, &mut out)?;
    }
    Ok(out)
}

/// A stream, the size of its pieces, and its frames. No piece after a hangup is taken, and the room of a
/// literal is reserved when it is announced.
#[test]
fn hangups_and_want_of_memory(rt: HostRuntime) {
    const CASES: &[(u64, &[u8], usize, &[u8])] = &[
        (
            8,
            b"a1 X {9+}\r\nab",
            1,
            b"!<the stream was hung up><the stream was hung up>",
        ),
        (
            u64::MAX,
            b"a1 X {18446744073709551615}\r\n",
            1000,
            b"<out of memory>",
        ),
    ];
    for &(max_octets, stream, size, wanted) in CASES {
        expect(&rt, told(rt.alloc(), max_octets, stream, size), wanted);
    }
}

/// The number of octets that show the frames of a command with a literal of a million octets.
fn told_of_long(alloc: Global, size: usize) -> Result<usize, AllocError> {
    let mut stream = Vec::from_slice(alloc, b"a {1000000}\r\n")?;
    stream.resize(1_000_013, b'x')?;
    stream.extend_from_slice(b"\r\n")?;
    let told = told(alloc, 1_000_000, &stream, size)?;
    Ok(told.len())
}

/// It takes time in proportion to its octets, wherever it is cut.
#[test]
fn a_long_literal_comes_in_pieces(rt: HostRuntime) {
    const SIZES: &[usize] = &[1, 4096, 10_000];
    for size in SIZES {
        assert!(rt; told_of_long(rt.alloc(), *size) == Ok(1_000_016), "{size}");
    }
}
