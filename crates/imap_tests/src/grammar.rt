//! Frames that no framer gives, and requests that are written.
//!
//! A request that goes out of scope at the end of a function makes the function's proof long. One that is
//! handed to `drop` doesn't, since `drop` is generic.

use crate::wanted::expect;
use imap_grammar::*;
use imap_lex::{Octets, Tag};
use imap_values::TryCopy;
use std::alloc::{AllocError, Global};

/// Reads the frame. The tests need no clause of `parse`, and have none by this.
fn read(alloc: Global, frame: &[u8]) -> Result<Request, AllocError> {
    let octets = Octets::from_slice(alloc, frame)?;
    parse(alloc, &octets)
}

/// Writes a copy of the request, or nothing if no frame spells it.
fn copied(alloc: Global, request: &Request) -> Result<Vec<u8>, AllocError> {
    let copy = request.try_copy(alloc)?;
    let text = write_command(alloc, &copy);
    drop(copy);
    Ok(text?.unwrap_or(Vec::new(alloc)))
}

/// What is written of a copy of the request that was made.
fn written_of(alloc: Global, made: Result<Request, AllocError>) -> Result<Vec<u8>, AllocError> {
    let request = made?;
    let text = copied(alloc, &request);
    drop(request);
    text
}

// What a framer gives is a whole command. These are none. Of a request that is malformed its tag is written.
const NO_COMMANDS: &[(&[u8], &[u8])] = &[
    (b"", b"\r\n"),
    (b"a1", b"\r\n"),
    (b"a1\n", b"\r\n"),
    (b"a1\r", b"\r\n"),
    (b"a1 NOOP\n", b"a1\r\n"),
    (b"a1 NOOP\r", b"a1\r\n"),
    (b"a1 NOOP", b"a1\r\n"),
    (b"a1 NOOP\r\n\r\n", b"a1\r\n"),
    (b"a1 NOOP\r\na2 NOOP\r\n", b"a1\r\n"),
    (b"a1 MYRIGHTS {3}\r\n", b"a1\r\n"),
    (b"a DELETE {3}\r\nfo\r\n", b"a\r\n"),
    (b"a DELETE {3+\r\nfoo\r\n", b"a\r\n"),
    (b"a DELETE {}\r\nfoo\r\n", b"a\r\n"),
    (b"a APPEND x {6}\r\nhello\r\n", b"a\r\n"),
];

/// Frames and what is written of their requests, for the RFCs' examples, in the one spelling that is written: words in
/// capitals, strings bare where they can be and else in quotes.
const WRITTEN: &[(&[u8], &[u8])] = &[
    (b"abcd CAPABILITY\r\n", b"abcd CAPABILITY\r\n"),
    (b"a002 noop\r\n", b"a002 NOOP\r\n"),
    (b"A023 LOGOUT\r\n", b"A023 LOGOUT\r\n"),
    (b"A001 NAMESPACE\r\n", b"A001 NAMESPACE\r\n"),
    (b"A002 IDLE\r\n", b"A002 IDLE\r\n"),
    (b"A341 CLOSE\r\n", b"A341 CLOSE\r\n"),
    (b"A342 UNSELECT\r\n", b"A342 UNSELECT\r\n"),
    (b"A202 EXPUNGE\r\n", b"A202 EXPUNGE\r\n"),
    (b"a001 LOGIN SMITH SESAME\r\n", b"a001 LOGIN\r\n"),
    (b"a002 STARTTLS\r\n", b"a002 LOGIN\r\n"),
    (b"tag\r\n", b"tag\r\n"),
    (b"\r\n", b"\r\n"),
    (
        b"A003 CREATE owatagusiam/\r\n",
        b"A003 CREATE owatagusiam/\r\n",
    ),
    (
        b"A683 DELETE blurdybloop\r\n",
        b"A683 DELETE blurdybloop\r\n",
    ),
    (
        b"A683 RENAME blurdybloop sarasoop\r\n",
        b"A683 RENAME blurdybloop sarasoop\r\n",
    ),
    (
        b"A002 SUBSCRIBE #news.comp.mail.mime\r\n",
        b"A002 SUBSCRIBE #news.comp.mail.mime\r\n",
    ),
    (
        b"A002 UNSUBSCRIBE {3}\r\na\r\n\r\n",
        b"A002 UNSUBSCRIBE {3}\r\na\r\n\r\n",
    ),
    (
        b"A002 SETACL INBOX/Drafts Byron lrswikda\r\n",
        b"A002 SETACL INBOX/Drafts Byron lrswikda\r\n",
    ),
    (
        b"B001 DELETEACL INBOX Fred\r\n",
        b"B001 DELETEACL INBOX Fred\r\n",
    ),
    (b"A002 GETACL INBOX\r\n", b"A002 GETACL INBOX\r\n"),
    (
        b"a001 LISTRIGHTS ~/Mail/saved smith\r\n",
        b"a001 LISTRIGHTS ~/Mail/saved smith\r\n",
    ),
    (b"A003 MYRIGHTS \"\"\r\n", b"A003 MYRIGHTS \"\"\r\n"),
    (
        b"a MYRIGHTS {8}\r\n\"a\\{3}\xc3\xa9\r\n",
        b"a MYRIGHTS \"\\\"a\\\\{3}\xc3\xa9\"\r\n",
    ),
    (
        b"A042 STATUS blurdybloop (UIDNEXT messages)\r\n",
        b"A042 STATUS blurdybloop (UIDNEXT MESSAGES)\r\n",
    ),
    (
        b"t2 ENABLE CONDSTORE X-GOOD-IDEA\r\n",
        b"t2 ENABLE CONDSTORE X-GOOD-IDEA\r\n",
    ),
    (b"A142 SELECT INBOX\r\n", b"A142 SELECT INBOX\r\n"),
    (
        b"A932 EXAMINE blurdybloop\r\n",
        b"A932 EXAMINE blurdybloop\r\n",
    ),
    (
        b"A142 SELECT INBOX (CONDSTORE)\r\n",
        b"A142 SELECT INBOX (CONDSTORE)\r\n",
    ),
    (
        b"A02 SELECT INBOX (QRESYNC (67890007 20050715194045000 41,43:211,214:541))\r\n",
        b"A02 SELECT INBOX (QRESYNC (67890007 20050715194045000 41,43:211,214:541))\r\n",
    ),
    (
        b"A03 EXAMINE x (QRESYNC (67890007 90060115194045000) CONDSTORE)\r\n",
        b"A03 EXAMINE x (CONDSTORE QRESYNC (67890007 90060115194045000))\r\n",
    ),
    (
        b"A04 SELECT x (QRESYNC (1 2 3:4 (1,2 3,4)))\r\n",
        b"A04 SELECT x (QRESYNC (1 2 3:4))\r\n",
    ),
    (b"A101 LIST \"\" \"\"\r\n", b"A101 LIST \"\" \"\"\r\n"),
    (b"A202 LIST ~/Mail/ %\r\n", b"A202 LIST ~/Mail/ %\r\n"),
    (
        b"A02 LIST (SUBSCRIBED) \"\" \"*\"\r\n",
        b"A02 LIST (SUBSCRIBED) \"\" *\r\n",
    ),
    (
        b"A04 LIST () \"\" % RETURN (CHILDREN)\r\n",
        b"A04 LIST () \"\" % RETURN (CHILDREN)\r\n",
    ),
    (
        b"BBB LIST \"\" (\"INBOX\" \"Drafts\" Sent/%)\r\n",
        b"BBB LIST \"\" (INBOX Drafts Sent/%)\r\n",
    ),
    (
        b"A1 LIST (SUBSCRIBED RECURSIVEMATCH REMOTE) \"\" % \
            RETURN (SUBSCRIBED STATUS (MESSAGES UNSEEN))\r\n",
        b"A1 LIST (SUBSCRIBED RECURSIVEMATCH REMOTE) \"\" % \
            RETURN (SUBSCRIBED STATUS (MESSAGES UNSEEN))\r\n",
    ),
    (
        b"A003 APPEND saved-messages (\\Seen) {5+}\r\nhello\r\n",
        b"A003 APPEND saved-messages (\\SEEN) {5}\r\nhello\r\n",
    ),
    (b"A003 APPEND x {0}\r\n\r\n", b"A003 APPEND x {0}\r\n\r\n"),
    (
        b"A003 APPEND x \"17-Jul-1996 02:44:25 -0700\" {2}\r\na\0\r\n",
        b"A003 APPEND x \"17-Jul-1996 02:44:25 -0700\" ~{2}\r\na\0\r\n",
    ),
    (
        b"A003 APPEND x (\\Draft \\x y) \" 7-Feb-0994 21:52:25 +0000\" {2}\r\n\r\n\r\n",
        b"A003 APPEND x (\\DRAFT \\x y) \" 7-Feb-0994 21:52:25 +0000\" {2}\r\n\r\n\r\n",
    ),
    (
        b"A282 SEARCH RETURN (MIN COUNT) FLAGGED SINCE 1-Feb-1994 NOT FROM \"Smith\"\r\n",
        b"A282 SEARCH RETURN (MIN COUNT) FLAGGED SINCE 1-Feb-1994 NOT FROM Smith\r\n",
    ),
    (
        b"A284 SEARCH TEXT \"string not in mailbox\"\r\n",
        b"A284 SEARCH TEXT \"string not in mailbox\"\r\n",
    ),
    (
        b"A285 UID SEARCH RETURN () CHARSET UTF-8 1:50\r\n",
        b"A285 UID SEARCH CHARSET UTF-8 1:50\r\n",
    ),
    (b"a OR 1\r\n", b"a\r\n"),
    (
        b"a SEARCH or (1 uid *) not deleted\r\n",
        b"a SEARCH OR (1 UID *) NOT DELETED\r\n",
    ),
    (
        b"a SEARCH KEYWORD $Junk UNKEYWORD x UNSEEN\r\n",
        b"a SEARCH KEYWORD $Junk UNKEYWORD x UNSEEN\r\n",
    ),
    (
        b"a SEARCH HEADER Subject {1}\r\n\n LARGER 07 SMALLER 8\r\n",
        b"a SEARCH HEADER Subject {1}\r\n\n LARGER 7 SMALLER 8\r\n",
    ),
    (
        b"a SEARCH MODSEQ \"/flags/\\\\draft\" all 620162338\r\n",
        b"a SEARCH MODSEQ 620162338\r\n",
    ),
    (
        b"a SEARCH SENTBEFORE 3-Mar-1999 $ BEFORE \"31-dec-9999\"\r\n",
        b"a SEARCH SENTON 1-Jan-2000 $ BEFORE 31-Dec-9999\r\n",
    ),
    (
        b"A654 FETCH 2:4 (FLAGS BODY[HEADER.FIELDS (DATE FROM)])\r\n",
        b"A654 FETCH 2:4 (FLAGS BODY[HEADER.FIELDS (DATE FROM)])\r\n",
    ),
    (b"a FETCH * FAST\r\n", b"a FETCH * FAST\r\n"),
    (
        b"s100 UID FETCH 1:* (FLAGS) (CHANGEDSINCE 12345 VANISHED)\r\n",
        b"s100 UID FETCH 1:* FLAGS (CHANGEDSINCE 12345 VANISHED)\r\n",
    ),
    (
        b"a UID FETCH $ (UID MODSEQ) (CHANGEDSINCE 1)\r\n",
        b"a UID FETCH $ (UID MODSEQ) (CHANGEDSINCE 1)\r\n",
    ),
    (
        b"a UID FETCH 1 FLAGS (VANISHED)\r\n",
        b"a UID FETCH 1 FLAGS (VANISHED)\r\n",
    ),
    (
        b"a FETCH 1 body.peek[text]<00.9223372036854775807>\r\n",
        b"a FETCH 1 BODY.PEEK[TEXT]<0.9223372036854775807>\r\n",
    ),
    (
        b"a FETCH 1 (BODY[HEADER] BODY[] BODY.PEEK[HEADER.FIELDS.NOT (a)])\r\n",
        b"a FETCH 1 (BODY[HEADER] BODY[] BODY.PEEK[HEADER.FIELDS.NOT (a)])\r\n",
    ),
    (b"a FETCH 1 BODYSTRUCTURE\r\n", b"a FETCH 1 ALL\r\n"),
    (
        b"a FETCH $ (RFC822.SIZE INTERNALDATE)\r\n",
        b"a FETCH $ (RFC822.SIZE INTERNALDATE)\r\n",
    ),
    (
        b"A003 STORE 2:4 +FLAGS (\\Deleted)\r\n",
        b"A003 STORE 2:4 +FLAGS \\DELETED\r\n",
    ),
    (
        b"d105 STORE 7,5,9 (UNCHANGEDSINCE 320162338) +FLAGS.SILENT (\\Deleted)\r\n",
        b"d105 STORE 7,5,9 (UNCHANGEDSINCE 320162338) +FLAGS.SILENT \\DELETED\r\n",
    ),
    (
        b"a uid store 1 flags.silent $MDNSent \\Answered\r\n",
        b"a UID STORE 1 FLAGS.SILENT $MDNSent \\ANSWERED\r\n",
    ),
    (b"a STORE 1 -FLAGS ()\r\n", b"a STORE 1 -FLAGS ()\r\n"),
    (b"A003 COPY 2:4 MEETING\r\n", b"A003 COPY 2:4 MEETING\r\n"),
    (b"a UID COPY * x\r\n", b"a UID COPY * x\r\n"),
    (b"a UID MOVE 42:69 foo\r\n", b"a UID MOVE 42:69 foo\r\n"),
    (
        b"A003 UID EXPUNGE 3000:3002\r\n",
        b"A003 UID EXPUNGE 3000:3002\r\n",
    ),
];

#[test]
fn requests_are_written(rt: HostRuntime) {
    for (frame, wanted) in NO_COMMANDS {
        expect(&rt, written_of(rt.alloc(), read(rt.alloc(), frame)), wanted);
    }
    for (frame, wanted) in WRITTEN {
        expect(&rt, written_of(rt.alloc(), read(rt.alloc(), frame)), wanted);
    }
}

fn too_big(alloc: Global) -> Result<Request, AllocError> {
    let tag = Tag::read(alloc, b"a")?.ok_or(AllocError)?;
    Ok(Request::TooBig { tag })
}

#[test]
fn no_frame_spells_a_literal_that_is_too_big(rt: HostRuntime) {
    expect(&rt, written_of(rt.alloc(), too_big(rt.alloc())), b"");
}

/// A front, a middle, how often the middle comes, and a back.
type Repeated = (&'static [u8], &'static [u8], usize, &'static [u8]);

fn repeated(alloc: Global, parts: &Repeated) -> Result<Vec<u8>, AllocError> {
    let (front, middle, count, back) = *parts;
    let mut text = Vec::from_slice(alloc, front)?;
    for _ in 0..count {
        text.extend_from_slice(middle)?;
    }
    text.extend_from_slice(back)?;
    Ok(text)
}

fn is_written_as(alloc: Global, frame: &Repeated, wanted: &Repeated) -> Result<bool, AllocError> {
    let frame = repeated(alloc, frame)?;
    let wanted = repeated(alloc, wanted)?;
    let written = written_of(alloc, read(alloc, &frame))?;
    Ok(written.as_slice() == wanted.as_slice())
}

#[test]
fn long_frames(rt: HostRuntime) {
    const ROWS: &[(Repeated, Repeated)] = &[
        // The longest command that a framer takes.
        (
            (b"a1 MYRIGHTS ", b"x", 8178, b"\r\n"),
            (b"a1 MYRIGHTS ", b"x", 8178, b"\r\n"),
        ),
        // 255 octets with the space at the end, and 256.
        (
            (b"a1 MYRIGHTS \"", b"x", 254, b" \"\r\n"),
            (b"a1 MYRIGHTS \"", b"x", 254, b" \"\r\n"),
        ),
        (
            (b"a1 MYRIGHTS \"", b"x", 255, b" \"\r\n"),
            (b"a1 MYRIGHTS {256}\r\n", b"x", 255, b" \r\n"),
        ),
        (
            (b"a1 MYRIGHTS \"", b"\\\"", 500_000, b"\"\r\n"),
            (b"a1 MYRIGHTS {500000}\r\n", b"\"", 500_000, b"\r\n"),
        ),
        (
            (b"a LOGIN ", b"{0}\r\n", 1_000_000, b"\r\n"),
            (b"a LOGIN\r\n", b"", 0, b""),
        ),
    ];
    for (frame, wanted) in ROWS {
        let found = is_written_as(rt.alloc(), frame, wanted);
        assert!(rt; found == Ok(true), "{} of {:?}", frame.2, frame.1);
    }
}
