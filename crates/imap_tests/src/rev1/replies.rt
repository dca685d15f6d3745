//! Replies that are told in another way (RFC 3501, sections 6.1.1, 7.2.3 to 7.2.5, 7.3.1 and 7.3.2).

use crate::rev1::rows::{expect_told, session};
use imap_lex::{Octets, Tag};
use imap_print::{Children, ListAttributes, NumberSet, Response, SearchResults, StatusValue};
use imap_query::StatusItem;
use imap_syntax::Items;
use std::alloc::{AllocError, Global};

fn status(alloc: Global, values: &[StatusValue]) -> Result<Response, AllocError> {
    Ok(Response::Status {
        mailbox: Octets::from_slice(alloc, b"x")?,
        items: Items::from_vec(Vec::from_slice(alloc, values)?),
    })
}

fn search(alloc: Global, numbers: &[u32], mod_seq: Option<u64>) -> Result<Response, AllocError> {
    Ok(Response::Search {
        tag: Tag::read(alloc, b"T")?.ok_or(AllocError)?,
        uid: false,
        results: SearchResults {
            min: None,
            max: None,
            all: NumberSet::from_rising(Vec::from_slice(alloc, numbers)?),
            count: None,
            mod_seq,
        },
    })
}

fn list(alloc: Global, name: &[u8]) -> Result<Response, AllocError> {
    Ok(Response::List {
        attributes: ListAttributes {
            non_existent: false,
            children: Children::HasNo,
            subscribed: true,
        },
        mailbox: Octets::from_slice(alloc, name)?,
    })
}

/// A search: its command, whether IMAP4rev2 was enabled, what it finds, and what is told.
type Found = (
    &'static [u8],
    bool,
    &'static [u32],
    Option<u64>,
    &'static [u8],
);

const SEARCHES: &[Found] = &[
    (
        b"T SEARCH ALL\r\n",
        false,
        &[2, 84, 882],
        None,
        b"* SEARCH 2 84 882\r\n",
    ),
    (b"T SEARCH ALL\r\n", false, &[], None, b"* SEARCH\r\n"),
    (
        b"T SEARCH MODSEQ 1\r\n",
        false,
        &[2, 5],
        Some(917162500),
        b"* SEARCH 2 5 (MODSEQ 917162500)\r\n",
    ),
    (
        b"T UID SEARCH ALL\r\n",
        false,
        &[3, 4, 5],
        None,
        b"* SEARCH 3 4 5\r\n",
    ),
    (
        b"T SEARCH RETURN (ALL) ALL\r\n",
        false,
        &[1, 2, 3],
        None,
        b"* ESEARCH (TAG \"T\") ALL 1:3\r\n",
    ),
    (
        b"T SEARCH ALL\r\n",
        true,
        &[1],
        None,
        b"* ESEARCH (TAG \"T\") ALL 1\r\n",
    ),
];

/// A command, whether IMAP4rev2 was enabled, how many messages there are, and what is told. None is recent.
const COUNTS: &[(&[u8], bool, u32, &[u8])] = &[
    (
        b"T SELECT x\r\n",
        false,
        172,
        b"* 172 EXISTS\r\n* 0 RECENT\r\n",
    ),
    (
        b"T EXAMINE x\r\n",
        false,
        17,
        b"* 17 EXISTS\r\n* 0 RECENT\r\n",
    ),
    (b"T NOOP\r\n", false, 23, b"* 23 EXISTS\r\n"),
    (b"T SELECT x\r\n", true, 23, b"* 23 EXISTS\r\n"),
];

/// A command, whether IMAP4rev2 was enabled, a name that is subscribed, and what is told.
const NAMES: &[(&[u8], bool, &[u8], &[u8])] = &[
    (b"T LSUB \"\" *\r\n", false, b"x", b"* LSUB () \"/\" x\r\n"),
    (
        b"T LSUB \"\" *\r\n",
        false,
        b"a b",
        b"* LSUB () \"/\" \"a b\"\r\n",
    ),
    (
        b"T LSUB \"\" *\r\n",
        true,
        b"NIL",
        b"* LSUB () \"/\" \"NIL\"\r\n",
    ),
    (
        b"T LIST \"\" *\r\n",
        false,
        b"x",
        b"* LIST (\\HasNoChildren \\Subscribed) \"/\" x\r\n",
    ),
];

const MESSAGES: StatusValue = StatusValue {
    item: StatusItem::Messages,
    value: 231,
};

const UNSEEN: StatusValue = StatusValue {
    item: StatusItem::Unseen,
    value: 4,
};

/// A command, values of a mailbox, and what is told.
const STATUSES: &[(&[u8], &[StatusValue], &[u8])] = &[
    (
        b"T STATUS x (MESSAGES RECENT UNSEEN)\r\n",
        &[MESSAGES, MESSAGES, UNSEEN],
        b"* STATUS x (MESSAGES 231 RECENT 0 UNSEEN 4)\r\n",
    ),
    (
        b"T STATUS x (RECENT)\r\n",
        &[MESSAGES],
        b"* STATUS x (RECENT 0)\r\n",
    ),
    (
        b"T STATUS x (MESSAGES)\r\n",
        &[MESSAGES],
        b"* STATUS x (MESSAGES 231)\r\n",
    ),
    (
        b"T LIST \"\" * RETURN (STATUS (RECENT MESSAGES))\r\n",
        &[MESSAGES, MESSAGES],
        b"* STATUS x (RECENT 0 MESSAGES 231)\r\n",
    ),
];

#[test]
fn replies_are_told(rt: HostRuntime) {
    for &(command, rev2, numbers, mod_seq, wanted) in SEARCHES {
        expect_told(
            &rt,
            &session(rev2),
            command,
            search(rt.alloc(), numbers, mod_seq),
            wanted,
        );
    }
    for &(command, rev2, count, wanted) in COUNTS {
        expect_told(
            &rt,
            &session(rev2),
            command,
            Ok(Response::Exists(count)),
            wanted,
        );
    }
    for &(command, rev2, name, wanted) in NAMES {
        expect_told(&rt, &session(rev2), command, list(rt.alloc(), name), wanted);
    }
    for &(command, values, wanted) in STATUSES {
        expect_told(
            &rt,
            &session(false),
            command,
            status(rt.alloc(), values),
            wanted,
        );
    }
}
