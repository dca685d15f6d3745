//! Messages that are told as they were asked for (RFC 3501, sections 6.4.5 and 7.4.2).

use crate::owned::{both, push};
use crate::rev1::rows::{expect_told, session};
use imap_lex::Octets;
use imap_print::{FetchedItems, FetchedSection, LiteralParts, Response};
use imap_query::Section;
use imap_syntax::Items;
use std::alloc::{AllocError, Global};

/// A section, its origin and its octets.
#[derive(Clone, Copy)]
pub(crate) enum Body {
    Whole(Option<u64>, &'static [u8]),
    Header(Option<u64>, &'static [u8]),
    Text(Option<u64>, &'static [u8]),
}

fn section(body: Body) -> Section {
    match body {
        Body::Whole(..) => Section::Whole,
        Body::Header(..) => Section::Header,
        Body::Text(..) => Section::Text,
    }
}

fn contents(body: Body) -> (Option<u64>, &'static [u8]) {
    match body {
        Body::Whole(origin, octets) | Body::Header(origin, octets) | Body::Text(origin, octets) => {
            (origin, octets)
        }
    }
}

fn fetched(alloc: Global, body: Body) -> Result<FetchedSection, AllocError> {
    let (origin, octets) = contents(body);
    let octets = LiteralParts::of_octets(alloc, Octets::from_slice(alloc, octets)?)?;
    Ok(FetchedSection {
        section: section(body),
        origin,
        octets,
    })
}

fn sections(alloc: Global, bodies: &[Body]) -> Result<Items<FetchedSection>, AllocError> {
    let mut sections = Vec::new(alloc);
    let pushed = push_sections(alloc, &mut sections, bodies);
    let (_, sections) = both(pushed, Ok(sections))?;
    Ok(Items::from_vec(sections))
}

fn push_sections(
    alloc: Global,
    sections: &mut Vec<FetchedSection>,
    bodies: &[Body],
) -> Result<(), AllocError> {
    for body in bodies {
        push(sections, fetched(alloc, *body))?;
    }
    Ok(())
}

/// Message 12 with its UID, its size and these sections.
pub(crate) fn message(alloc: Global, bodies: &[Body]) -> Result<Response, AllocError> {
    let sections = sections(alloc, bodies)?;
    let items = FetchedItems {
        uid: Some(7),
        flags: None,
        internal_date: None,
        size: Some(9),
        mod_seq: None,
        sections,
    };
    Ok(Response::Fetch { number: 12, items })
}

const ROWS: &[(&[u8], &[Body], &[u8])] = &[
    (
        b"T FETCH 12 (UID RFC822)\r\n",
        &[Body::Whole(None, b"a: b\r\n\r\nc")],
        b"* 12 FETCH (UID 7 RFC822.SIZE 9 RFC822 {9}\r\na: b\r\n\r\nc)\r\n",
    ),
    (
        b"T FETCH 12 rfc822.header\r\n",
        &[Body::Header(None, b"a: b\r\n\r\n")],
        b"* 12 FETCH (UID 7 RFC822.SIZE 9 RFC822.HEADER {8}\r\na: b\r\n\r\n)\r\n",
    ),
    (
        b"T UID FETCH 7 (RFC822.TEXT)\r\n",
        &[Body::Text(None, b"c")],
        b"* 12 FETCH (UID 7 RFC822.SIZE 9 RFC822.TEXT {1}\r\nc)\r\n",
    ),
    (
        b"T FETCH 12 (RFC822.TEXT BODY[HEADER] RFC822)\r\n",
        &[
            Body::Text(None, b"c"),
            Body::Header(None, b""),
            Body::Whole(None, b"c"),
        ],
        b"* 12 FETCH (UID 7 RFC822.SIZE 9 RFC822.TEXT {1}\r\nc BODY[HEADER] {0}\r\n RFC822 {1}\r\nc)\r\n",
    ),
    (
        b"T FETCH 12 (BODY[] RFC822 BODY.PEEK[])\r\n",
        &[Body::Whole(None, b"c")],
        b"* 12 FETCH (UID 7 RFC822.SIZE 9 BODY[] {1}\r\nc RFC822 {1}\r\nc)\r\n",
    ),
    (
        b"T FETCH 12 (BODY[]<0.1> RFC822 BODY[HEADER]<4.9> RFC822 BODY[TEXT]<2.3>)\r\n",
        &[
            Body::Whole(Some(0), b"a"),
            Body::Whole(None, b"ab"),
            Body::Header(Some(4), b""),
            Body::Text(Some(2), b"d"),
        ],
        b"* 12 FETCH (UID 7 RFC822.SIZE 9 BODY[]<0> {1}\r\na RFC822 {2}\r\nab BODY[HEADER]<4> {0}\r\n BODY[TEXT]<2> {1}\r\nd)\r\n",
    ),
    (
        b"T FETCH 12 RFC822\r\n",
        &[],
        b"* 12 FETCH (UID 7 RFC822.SIZE 9)\r\n",
    ),
    (
        b"T FETCH 12 (BODY[] BODY[TEXT])\r\n",
        &[Body::Whole(None, b"c"), Body::Text(None, b"c")],
        b"* 12 FETCH (UID 7 RFC822.SIZE 9 BODY[] {1}\r\nc BODY[TEXT] {1}\r\nc)\r\n",
    ),
    (b"T NOOP\r\n", &[], b"* 12 FETCH (UID 7 RFC822.SIZE 9)\r\n"),
    (
        b"T FETCH 12 ALL\r\n",
        &[Body::Header(None, b"From: a <b@c>\r\nSubject: d\r\n\r\n")],
        b"* 12 FETCH (UID 7 RFC822.SIZE 9 ENVELOPE (NIL \"d\" ((\"a\" NIL \"b\" \"c\")) ((\"a\" NIL \"b\" \"c\")) ((\"a\" NIL \"b\" \"c\")) NIL NIL NIL NIL NIL))\r\n",
    ),
    (
        b"T FETCH 12 (RFC822.HEADER envelope BODY[HEADER] ENVELOPE)\r\n",
        &[Body::Header(None, b"Date: e\r\n")],
        b"* 12 FETCH (UID 7 RFC822.SIZE 9 RFC822.HEADER {9}\r\nDate: e\r\n ENVELOPE (\"e\" NIL NIL NIL NIL NIL NIL NIL NIL NIL) BODY[HEADER] {9}\r\nDate: e\r\n)\r\n",
    ),
    (
        b"T FETCH 12 FULL\r\n",
        &[Body::Whole(None, b"Subject: d\r\n\r\ne\r\n")],
        b"* 12 FETCH (UID 7 RFC822.SIZE 9 ENVELOPE (NIL \"d\" NIL NIL NIL NIL NIL NIL NIL NIL) BODY (\"text\" \"plain\" (\"charset\" \"us-ascii\") NIL NIL \"7BIT\" 3 1))\r\n",
    ),
    (
        b"T FETCH 12 (BODYSTRUCTURE RFC822 BODY)\r\n",
        &[Body::Whole(None, b"Content-Type: a/b\r\n\r\n")],
        b"* 12 FETCH (UID 7 RFC822.SIZE 9 BODYSTRUCTURE (\"a\" \"b\" NIL NIL NIL \"7BIT\" 0 NIL NIL NIL NIL) RFC822 {21}\r\nContent-Type: a/b\r\n\r\n BODY (\"a\" \"b\" NIL NIL NIL \"7BIT\" 0))\r\n",
    ),
    (
        b"T FETCH 12 (ENVELOPE)\r\n",
        &[Body::Header(Some(0), b"Date: e\r\n")],
        b"* 12 FETCH (UID 7 RFC822.SIZE 9)\r\n",
    ),
];

#[test]
fn sections_are_told_as_they_were_asked_for(rt: HostRuntime) {
    for &(command, bodies, wanted) in ROWS {
        expect_told(
            &rt,
            &session(false),
            command,
            message(rt.alloc(), bodies),
            wanted,
        );
        expect_told(
            &rt,
            &session(true),
            command,
            message(rt.alloc(), bodies),
            wanted,
        );
    }
}
