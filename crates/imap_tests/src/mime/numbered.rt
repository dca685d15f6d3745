//! Parts by their numbers (RFC 9051, section 6.4.5.1).

use crate::wanted::expect;
use imap_structure::{MAX_DEPTH, laws, message_at, part_at};
use std::alloc::{AllocError, Global};

const HEADER: &[u8] = b"Content-Type: message/rfc822\r\n\r\n";

/// A text in messages that stand in one another.
fn nested(alloc: Global, depth: u32) -> Result<Vec<u8>, AllocError> {
    let mut message = Vec::new(alloc);
    for _ in 0..depth {
        message.extend_from_slice(HEADER)?;
    }
    message.extend_from_slice(b"\r\nx")?;
    Ok(message)
}

fn ones(alloc: Global, count: u32) -> Result<Vec<u32>, AllocError> {
    let mut numbers = Vec::new(alloc);
    for _ in 0..count {
        numbers.push(1)?;
    }
    Ok(numbers)
}

fn front_or_nil(alloc: Global, found: Option<&[u8]>) -> Result<Vec<u8>, AllocError> {
    match found {
        Some(octets) => Vec::from_slice(alloc, &octets[..octets.len().min(5)]),
        None => Vec::from_slice(alloc, b"NIL"),
    }
}

/// The front of the part that these many ones name.
fn part(alloc: Global, depth: u32, count: u32) -> Result<Vec<u8>, AllocError> {
    let message = nested(alloc, depth)?;
    let numbers = ones(alloc, count)?;
    front_or_nil(
        alloc,
        part_at(alloc, message.as_slice(), numbers.as_slice())?,
    )
}

/// The front of the message that this part is.
fn inner(alloc: Global, depth: u32, count: u32) -> Result<Vec<u8>, AllocError> {
    let message = nested(alloc, depth)?;
    let numbers = ones(alloc, count)?;
    front_or_nil(
        alloc,
        message_at(alloc, message.as_slice(), numbers.as_slice())?,
    )
}

#[test]
fn parts_stand_in_one_another_to_a_depth(rt: HostRuntime) {
    expect(&rt, part(rt.alloc(), 0, 0), b"NIL");
    expect(&rt, part(rt.alloc(), 0, 1), b"\r\nx");
    expect(&rt, part(rt.alloc(), 0, 2), b"NIL");
    expect(&rt, part(rt.alloc(), 2, 3), b"\r\nx");
    expect(&rt, inner(rt.alloc(), 2, 2), b"\r\nx");
    expect(&rt, inner(rt.alloc(), 2, 3), b"NIL");
    expect(&rt, part(rt.alloc(), 99, MAX_DEPTH + 1), b"Conte");
    expect(&rt, part(rt.alloc(), 99, MAX_DEPTH + 2), b"NIL");
    expect(&rt, inner(rt.alloc(), 99, MAX_DEPTH), b"Conte");
    expect(&rt, inner(rt.alloc(), 99, MAX_DEPTH + 1), b"NIL");
    laws::parts_are_numbered();
}
