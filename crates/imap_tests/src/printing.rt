//! Responses in pieces (RFC 9051, section 7).

use crate::wanted::expect;
use imap_lex::Octets;
use imap_print::{FetchedItems, FetchedSection, LiteralParts, Response, print_pieces};
use imap_query::Section;
use imap_syntax::Items;
use std::alloc::{AllocError, Global};

/// A FETCH of a whole message of these octets.
fn fetch_of(alloc: Global, octets: &[u8]) -> Result<Response, AllocError> {
    let octets = LiteralParts::of_octets(alloc, Octets::from_slice(alloc, octets)?)?;
    let section = FetchedSection {
        section: Section::Whole,
        origin: None,
        octets,
    };
    let items = FetchedItems {
        uid: None,
        flags: None,
        internal_date: None,
        size: None,
        mod_seq: None,
        sections: Items::from_vec(vec![in alloc; section]?),
    };
    Ok(Response::Fetch { number: 1, items })
}

/// Returns what stands before and after the second of three pieces, if that has `len` octets.
fn around(alloc: Global, pieces: &[Octets], len: usize) -> Result<Vec<u8>, AllocError> {
    match pieces {
        [front, long, back] if long.as_slice().len() == len => {
            let mut text = Vec::from_slice(alloc, front.as_slice())?;
            text.extend_from_slice(back.as_slice())?;
            Ok(text)
        }
        _ => Vec::from_slice(alloc, b"other pieces"),
    }
}

/// Prints the response that was made in pieces, of which the second has `len` octets.
fn in_pieces(
    alloc: Global,
    made: Result<Response, AllocError>,
    len: usize,
) -> Result<Vec<u8>, AllocError> {
    let response = [made?];
    let pieces = print_pieces(alloc, &response);
    drop(response);
    around(alloc, pieces?.as_slice(), len)
}

/// A part of 16 KiB isn't copied.
#[test]
fn a_long_section_is_a_piece(rt: HostRuntime) {
    let made = fetch_of(rt.alloc(), &[b'x'; 16_384]);
    let line = b"* 1 FETCH (BODY[] {16384}\r\n)\r\n";
    expect(&rt, in_pieces(rt.alloc(), made, 16_384), line);
}
