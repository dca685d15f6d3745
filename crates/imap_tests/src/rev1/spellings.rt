//! Texts, and how they are spelt in modified UTF-7.

use crate::wanted::expect;
use imap_utf7::{decode, encode};
use std::alloc::{AllocError, Global};

/// Texts and their spellings: the examples of RFC 3501, section 5.1.3, and of RFC 2152, and others that
/// Python's `base64` and `utf-16-be` spell.
const SPELLINGS: &[(&str, &[u8])] = &[
    (
        "~peter/mail/\u{53f0}\u{5317}/\u{65e5}\u{672c}\u{8a9e}",
        b"~peter/mail/&U,BTFw-/&ZeVnLIqe-",
    ),
    (
        "\u{53f0}\u{5317}\u{65e5}\u{672c}\u{8a9e}",
        b"&U,BTF2XlZyyKng-",
    ),
    ("\u{263a}!", b"&Jjo-!"),
    ("A\u{2262}\u{391}.", b"A&ImIDkQ-."),
    ("Hi Mom -\u{263a}-!", b"Hi Mom -&Jjo--!"),
    ("\u{65e5}\u{672c}\u{8a9e}", b"&ZeVnLIqe-"),
    ("\u{65e5}", b"&ZeU-"),
    ("\u{65e5}\u{672c}", b"&ZeVnLA-"),
    ("Item 3 is \u{a3}1.", b"Item 3 is &AKM-1."),
    ("Entw\u{fc}rfe", b"Entw&APw-rfe"),
    ("Gesendete Objekte", b"Gesendete Objekte"),
    (
        "\u{41e}\u{442}\u{43f}\u{440}\u{430}\u{432}\u{43b}\u{435}\u{43d}\u{43d}\u{44b}\u{435}",
        b"&BB4EQgQ,BEAEMAQyBDsENQQ9BD0ESwQ1-",
    ),
    ("&", b"&-"),
    ("R&D", b"R&-D"),
    ("a&-b", b"a&--b"),
    ("&&\u{263a}&", b"&-&-&Jjo-&-"),
    ("-\u{263a}-", b"-&Jjo--"),
    ("\u{1f600}", b"&2D3eAA-"),
    ("a\u{1f600}\u{e9}", b"a&2D3eAADp-"),
    ("\u{1f1e9}\u{1f1ea}", b"&2Dzd6dg83eo-"),
    ("\u{ff}\u{10ffff}", b"&AP,b,9,,-"),
    ("\u{7f}\u{0}", b"&AH8AAA-"),
    ("", b""),
];

/// Octets that spell no text.
const OTHERS: &[&[u8]] = &[
    b"&U,BTFw-&ZeVnLIqe-",
    b"&",
    b"a&b",
    b"&Jjo",
    b"&Jjo!",
    b"&AGE-",
    b"&ACY-",
    b"&Jjp-",
    b"&ZeVnLB-",
    b"&Jjo=-",
    b"&AP//-",
    b"&J-",
    b"&JjoA-",
    b"&Jj-",
    b"&2D0-",
    b"&3gA-",
    b"&3gDYPQ-",
    b"&2D0AYQ-",
    b"\xc3\xa9",
    b"\x01",
    b"&AOk-\xc3\xa9",
];

fn spelt(alloc: Global, text: &str) -> Result<Vec<u8>, AllocError> {
    Ok(encode(alloc, text)?.into_bytes())
}

/// The text that octets spell, or `none`.
fn read(alloc: Global, octets: &[u8]) -> Result<Vec<u8>, AllocError> {
    match decode(alloc, octets)? {
        Some(text) => Ok(text.into_bytes()),
        None => Vec::from_slice(alloc, b"none"),
    }
}

#[test]
fn texts_are_spelt_and_read(rt: HostRuntime) {
    for &(text, spelling) in SPELLINGS {
        expect(&rt, spelt(rt.alloc(), text), spelling);
        expect(&rt, read(rt.alloc(), spelling), text.as_bytes());
    }
    for &octets in OTHERS {
        expect(&rt, read(rt.alloc(), octets), b"none");
    }
}
