//! Commands, and what the server sees in their place (RFC 3501, sections 6.3.9, 6.3.10, 6.4.1, 6.4.4 and 6.4.5).

use crate::rev1::rows::{seen, session};
use crate::wanted::expect;

/// Frames and what they become in IMAP4rev1.
const BEFORE: &[(&[u8], &[u8])] = &[
    (b"T CHECK\r\n", b"T NOOP\r\n"),
    (b"T check\r\n", b"T NOOP\r\n"),
    (b"T CHECK x\r\n", b"T CHECK x\r\n"),
    (b"T CHECK \r\n", b"T CHECK \r\n"),
    (b"T NOOP\r\n", b"T NOOP\r\n"),
    (
        b"T LSUB \"\" \"*\"\r\n",
        b"T LIST (SUBSCRIBED) \"\" \"*\"\r\n",
    ),
    (
        b"T lsub \"\" LSUB\r\n",
        b"T LIST (SUBSCRIBED) \"\" LSUB\r\n",
    ),
    (
        b"T LSUB {0}\r\n {1+}\r\n*\r\n",
        b"T LIST (SUBSCRIBED) {0}\r\n {1+}\r\n*\r\n",
    ),
    (
        b"LSUB LSUB \"\" *\r\n",
        b"LSUB LIST (SUBSCRIBED) \"\" *\r\n",
    ),
    (b"T LSUB\r\n", b"T LSUB\r\n"),
    (b"T SEARCH NEW\r\n", b"T SEARCH NOT ALL\r\n"),
    (b"T UID SEARCH OLD\r\n", b"T UID SEARCH ALL\r\n"),
    (
        b"T SEARCH OR recent (OLD NOT New)\r\n",
        b"T SEARCH OR NOT ALL (ALL NOT NOT ALL)\r\n",
    ),
    (b"NEW SEARCH NEW\r\n", b"NEW SEARCH NOT ALL\r\n"),
    (
        b"T SEARCH SUBJECT \"NEW\" SUBJECT new NEW\r\n",
        b"T SEARCH SUBJECT \"NEW\" SUBJECT new NOT ALL\r\n",
    ),
    (
        b"T SEARCH SUBJECT \"a\\\" NEW\" OLD\r\n",
        b"T SEARCH SUBJECT \"a\\\" NEW\" ALL\r\n",
    ),
    (
        b"T SEARCH HEADER old NEW RECENT\r\n",
        b"T SEARCH HEADER old NEW NOT ALL\r\n",
    ),
    (
        b"T SEARCH HEADER \"OLD\" NEW OLD\r\n",
        b"T SEARCH HEADER \"OLD\" NEW ALL\r\n",
    ),
    (
        b"T SEARCH KEYWORD RECENT UNKEYWORD OLD RECENT\r\n",
        b"T SEARCH KEYWORD RECENT UNKEYWORD OLD NOT ALL\r\n",
    ),
    (
        b"T SEARCH TEXT {5}\r\n NEW  OLD\r\n",
        b"T SEARCH TEXT {5}\r\n NEW  ALL\r\n",
    ),
    (b"T SEARCH RENEW NEWER\r\n", b"T SEARCH RENEW NEWER\r\n"),
    (
        b"T SEARCH RETURN (ALL) NEW\r\n",
        b"T SEARCH RETURN (ALL) NEW\r\n",
    ),
    (
        b"T SEARCH return (COUNT) NEW\r\n",
        b"T SEARCH return (COUNT) NEW\r\n",
    ),
    (
        b"T STATUS x (MESSAGES RECENT UNSEEN)\r\n",
        b"T STATUS x (MESSAGES MESSAGES UNSEEN)\r\n",
    ),
    (
        b"T STATUS RECENT (recent)\r\n",
        b"T STATUS RECENT (MESSAGES)\r\n",
    ),
    (
        b"T STATUS \"(RECENT)\" (RECENT)\r\n",
        b"T STATUS \"(RECENT)\" (MESSAGES)\r\n",
    ),
    (
        b"T STATUS {8}\r\n(RECENT) (RECENT)\r\n",
        b"T STATUS {8}\r\n(RECENT) (MESSAGES)\r\n",
    ),
    (
        b"T LIST \"\" * RETURN (SUBSCRIBED STATUS (RECENT UNSEEN))\r\n",
        b"T LIST \"\" * RETURN (SUBSCRIBED STATUS (MESSAGES UNSEEN))\r\n",
    ),
    (
        b"T LIST \"\" (RECENT x) RETURN (STATUS (RECENT))\r\n",
        b"T LIST \"\" (RECENT x) RETURN (STATUS (MESSAGES))\r\n",
    ),
    (
        b"T LIST (SUBSCRIBED) STATUS (RECENT)\r\n",
        b"T LIST (SUBSCRIBED) STATUS (RECENT)\r\n",
    ),
    (b"T SELECT x\r\n", b"T SELECT x\r\n"),
];

/// Items of FETCH.
const FETCHES: &[(&[u8], &[u8])] = &[
    (
        b"T FETCH 1 ENVELOPE\r\n",
        b"T FETCH 1 BODY.PEEK[HEADER]\r\n",
    ),
    (
        b"T FETCH 1 all\r\n",
        b"T FETCH 1 (FLAGS INTERNALDATE RFC822.SIZE BODY.PEEK[HEADER])\r\n",
    ),
    (
        b"T UID FETCH 1:* (UID envelope RFC822.TEXT)\r\n",
        b"T UID FETCH 1:* (UID BODY.PEEK[HEADER] BODY[TEXT])\r\n",
    ),
    (b"T FETCH 1 FAST\r\n", b"T FETCH 1 FAST\r\n"),
    (
        b"T FETCH 1 FULL\r\n",
        b"T FETCH 1 (FLAGS INTERNALDATE RFC822.SIZE BODY.PEEK[])\r\n",
    ),
    (
        b"T FETCH 1 (body BodyStructure BODY[TEXT])\r\n",
        b"T FETCH 1 (BODY.PEEK[] BODY.PEEK[] BODY[TEXT])\r\n",
    ),
    (b"T FETCH 1 RFC822\r\n", b"T FETCH 1 BODY[]\r\n"),
    (
        b"T fetch 1 rfc822.header\r\n",
        b"T fetch 1 BODY.PEEK[HEADER]\r\n",
    ),
    (
        b"T UID FETCH 1:* RFC822.TEXT\r\n",
        b"T UID FETCH 1:* BODY[TEXT]\r\n",
    ),
    (
        b"T FETCH 1:* (FLAGS RFC822.SIZE RFC822 RFC822.HEADER RFC822.TEXT)\r\n",
        b"T FETCH 1:* (FLAGS RFC822.SIZE BODY[] BODY.PEEK[HEADER] BODY[TEXT])\r\n",
    ),
    (
        b"T FETCH 1 (Rfc822) (CHANGEDSINCE 5)\r\n",
        b"T FETCH 1 (BODY[]) (CHANGEDSINCE 5)\r\n",
    ),
    (
        b"T FETCH 1 RFC822 (CHANGEDSINCE 5)\r\n",
        b"T FETCH 1 BODY[] (CHANGEDSINCE 5)\r\n",
    ),
    (
        b"T FETCH 1 BODY[HEADER.FIELDS (RFC822)]\r\n",
        b"T FETCH 1 BODY[HEADER.FIELDS (RFC822)]\r\n",
    ),
    (
        b"T FETCH 1 (BODY.PEEK[HEADER.FIELDS (RFC822 SUBJECT)] RFC822)\r\n",
        b"T FETCH 1 (BODY.PEEK[HEADER.FIELDS (RFC822 SUBJECT)] BODY[])\r\n",
    ),
    (
        b"T FETCH 1 (BODY[HEADER.FIELDS (\"RFC822\" {6}\r\nRFC822)] RFC822)\r\n",
        b"T FETCH 1 (BODY[HEADER.FIELDS (\"RFC822\" {6}\r\nRFC822)] BODY[])\r\n",
    ),
    (b"T FETCH 1 BODY[1]\r\n", b"T FETCH 1 BODY[]\r\n"),
    (
        b"T UID FETCH 1:* (UID body.peek[1.2.mime]<0.100> BODY[4294967295.TEXT] ENVELOPE)\r\n",
        b"T UID FETCH 1:* (UID BODY.PEEK[] BODY[] BODY.PEEK[HEADER])\r\n",
    ),
    (
        b"T FETCH 1 BODY[2.HEADER]<5.9223372036854775807> (CHANGEDSINCE 5)\r\n",
        b"T FETCH 1 BODY[] (CHANGEDSINCE 5)\r\n",
    ),
    (
        b"T FETCH 1 (BODY[0] BODY[01] BODY[1.] BODY[1..2] BODY[.1] BODY[1MIME] BODY[1.FOO] BODY[MIME])\r\n",
        b"T FETCH 1 (BODY[0] BODY[01] BODY[1.] BODY[1..2] BODY[.1] BODY[1MIME] BODY[1.FOO] BODY[MIME])\r\n",
    ),
    (
        b"T FETCH 1 (BODY[1]<> BODY[1]<1> BODY[1]<1.0> BODY[1]<1.01> BODY[1]<.1> BODY[1]<1.2.3> BODY[1]<1.2)\r\n",
        b"T FETCH 1 (BODY[1]<> BODY[1]<1> BODY[1]<1.0> BODY[1]<1.01> BODY[1]<.1> BODY[1]<1.2.3> BODY[1]<1.2)\r\n",
    ),
    (
        b"T FETCH 1 (BODY[1]<0.9223372036854775808> BODY[4294967296] BODY[1]] BODY[1]<0.1>> BODY[1]{1}\r\nx)\r\n",
        b"T FETCH 1 (BODY[1]<0.9223372036854775808> BODY[4294967296] BODY[1]] BODY[1]<0.1>> BODY[1]{1}\r\nx)\r\n",
    ),
    (
        b"T FETCH 1 BODY[2.HEADER.FIELDS (FROM)]\r\n",
        b"T FETCH 1 BODY[]\r\n",
    ),
    (
        b"T FETCH 1 (body.peek[1.2.Header.Fields.Not (\"a)\\\" (RFC822\" To)]<0.5> RFC822) (CHANGEDSINCE 5)\r\n",
        b"T FETCH 1 (BODY.PEEK[] BODY[]) (CHANGEDSINCE 5)\r\n",
    ),
    // A name that is a literal stays, and so does the item.
    (
        b"T FETCH 1 (BODY[2.HEADER.FIELDS (RFC822 {4}\r\nFROM)] RFC822)\r\n",
        b"T FETCH 1 (BODY[2.HEADER.FIELDS (RFC822 {4}\r\nFROM)] BODY[])\r\n",
    ),
    (
        b"T FETCH 1 (UID RFC822.SIZE)\r\n",
        b"T FETCH 1 (UID RFC822.SIZE)\r\n",
    ),
    (b"RFC822 FETCH 1 RFC822\r\n", b"RFC822 FETCH 1 BODY[]\r\n"),
    (
        b"T FETCH 1 ALL\r\n",
        b"T FETCH 1 (FLAGS INTERNALDATE RFC822.SIZE BODY.PEEK[HEADER])\r\n",
    ),
    (
        b"T STORE 1 FLAGS (RFC822)\r\n",
        b"T STORE 1 FLAGS (RFC822)\r\n",
    ),
];

/// Items that are no header fields of a part, and stay.
const NO_FIELDS: &[&[u8]] = &[
    b"T FETCH 1 BODY[2.HEADER.FIELDS ()]\r\n",
    b"T FETCH 1 BODY[2.HEADER.FIELDS (A  B)]\r\n",
    b"T FETCH 1 BODY[2.HEADER.FIELDS  (A)]\r\n",
    b"T FETCH 1 BODY[2.HEADER.FIELDS(A)]\r\n",
    b"T FETCH 1 BODY[2.HEADER.FIELDS (A]\r\n",
    b"T FETCH 1 BODY[2.HEADER.FIELDS (A)\r\n",
    b"T FETCH 1 BODY[2.HEADER.FIELDS (A)]]\r\n",
    b"T FETCH 1 BODY[2.HEADER.FIELDS (A)]x\r\n",
    b"T FETCH 1 BODY[2.HEADER.FIELDS (A)]<0.0>\r\n",
    b"T FETCH 1 BODY[2.HEADER.FIELDS (\"A)]\r\n",
    b"T FETCH 1 BODY[2.HEADER.FIELDS A]\r\n",
    b"T FETCH 1 BODY[2.HEADER (A)]\r\n",
    b"T FETCH 1 BODY[2.MIME.FIELDS (A)]\r\n",
    b"T FETCH 1 BODY[2HEADER.FIELDS (A)]\r\n",
    b"T FETCH 1 BODY[0.HEADER.FIELDS (A)]\r\n",
    b"T FETCH 1 BODY[2..HEADER.FIELDS (A)]\r\n",
    b"T FETCH 1 BINARY[2.HEADER.FIELDS (A)]\r\n",
    b"T SEARCH BODY[2.HEADER.FIELDS (A)]\r\n",
    b"T STORE 1 BODY[2.HEADER.FIELDS (A)]\r\n",
];

/// Frames and what they become after IMAP4rev2 was enabled.
const AFTER: &[(&[u8], &[u8])] = &[
    (b"T CHECK\r\n", b"T NOOP\r\n"),
    (b"T LSUB \"\" %\r\n", b"T LIST (SUBSCRIBED) \"\" %\r\n"),
    (b"T SEARCH NEW\r\n", b"T SEARCH NEW\r\n"),
    (b"T STATUS x (RECENT)\r\n", b"T STATUS x (RECENT)\r\n"),
];

#[test]
fn commands_are_rewritten(rt: HostRuntime) {
    for &(command, wanted) in BEFORE {
        expect(&rt, seen(rt.alloc(), &session(false), command), wanted);
    }
    for &(command, wanted) in AFTER {
        expect(&rt, seen(rt.alloc(), &session(true), command), wanted);
    }
    for &(command, wanted) in FETCHES {
        expect(&rt, seen(rt.alloc(), &session(false), command), wanted);
        expect(&rt, seen(rt.alloc(), &session(true), command), wanted);
    }
    for &command in NO_FIELDS {
        expect(&rt, seen(rt.alloc(), &session(false), command), command);
    }
}
