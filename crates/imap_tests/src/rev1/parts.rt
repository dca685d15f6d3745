//! Sections of parts, told from the message (RFC 9051, sections 6.4.5.1 and 7.5.2).

use crate::rev1::fetches::{Body, message};
use crate::rev1::rows::{expect_told, session};

/// A message with the parts of the example of RFC 9051, section 6.4.5.1.
const TREE: &[u8] = b"Subject: whole\r\n\
     Content-Type: multipart/mixed; boundary=a\r\n\
     \r\n\
     preamble\r\n\
     --a\r\n\
     \r\n\
     one\r\n\
     --a\r\n\
     Content-Type: application/octet-stream\r\n\
     \r\n\
     two\r\n\
     --a\r\n\
     Content-Type: message/rfc822\r\n\
     \r\n\
     Subject: three\r\n\
     Content-Type: multipart/mixed; boundary=b\r\n\
     \r\n\
     --b\r\n\
     Content-Type: text/plain\r\n\
     \r\n\
     three one\r\n\
     --b\r\n\
     Content-Type: application/octet-stream\r\n\
     \r\n\
     three two\r\n\
     --b--\r\n\
     --a\r\n\
     Content-Type: multipart/mixed; boundary=c\r\n\
     \r\n\
     --c\r\n\
     Content-Type: image/gif\r\n\
     Content-ID: <g>\r\n\
     \r\n\
     GIF\r\n\
     --c\r\n\
     Content-Type: message/rfc822\r\n\
     \r\n\
     Subject: four two\r\n\
     Content-Type: multipart/mixed; boundary=d\r\n\
     \r\n\
     --d\r\n\
     \r\n\
     four two one\r\n\
     --d\r\n\
     Content-Type: multipart/alternative; boundary=e\r\n\
     \r\n\
     --e\r\n\
     \r\n\
     plain\r\n\
     --e\r\n\
     Content-Type: text/richtext\r\n\
     \r\n\
     rich\r\n\
     --e--\r\n\
     --d--\r\n\
     --c--\r\n\
     --a--\r\n";

/// Items, and how the message is told. The sections were cut by hand.
const ROWS: &[(&[u8], &[u8])] = &[
    (
        b"T FETCH 12 BODY[1]\r\n",
        b"* 12 FETCH (UID 7 RFC822.SIZE 9 BODY[1] {3}\r\none)\r\n",
    ),
    (
        b"T FETCH 12 BODY[2]\r\n",
        b"* 12 FETCH (UID 7 RFC822.SIZE 9 BODY[2] {3}\r\ntwo)\r\n",
    ),
    (
        b"T FETCH 12 BODY[3]\r\n",
        b"* 12 FETCH (UID 7 RFC822.SIZE 9 BODY[3] {168}\r\n\
         Subject: three\r\n\
         Content-Type: multipart/mixed; boundary=b\r\n\
         \r\n\
         --b\r\n\
         Content-Type: text/plain\r\n\
         \r\n\
         three one\r\n\
         --b\r\n\
         Content-Type: application/octet-stream\r\n\
         \r\n\
         three two\r\n\
         --b--)\r\n",
    ),
    (
        b"T FETCH 12 BODY[3.HEADER]\r\n",
        b"* 12 FETCH (UID 7 RFC822.SIZE 9 BODY[3.HEADER] {61}\r\n\
         Subject: three\r\n\
         Content-Type: multipart/mixed; boundary=b\r\n\
         \r\n\
         )\r\n",
    ),
    (
        b"T FETCH 12 BODY[3.TEXT]\r\n",
        b"* 12 FETCH (UID 7 RFC822.SIZE 9 BODY[3.TEXT] {107}\r\n\
         --b\r\n\
         Content-Type: text/plain\r\n\
         \r\n\
         three one\r\n\
         --b\r\n\
         Content-Type: application/octet-stream\r\n\
         \r\n\
         three two\r\n\
         --b--)\r\n",
    ),
    (
        b"T FETCH 12 BODY[3.MIME]\r\n",
        b"* 12 FETCH (UID 7 RFC822.SIZE 9 BODY[3.MIME] {32}\r\n\
         Content-Type: message/rfc822\r\n\
         \r\n\
         )\r\n",
    ),
    (
        b"T FETCH 12 BODY[3.1]\r\n",
        b"* 12 FETCH (UID 7 RFC822.SIZE 9 BODY[3.1] {9}\r\nthree one)\r\n",
    ),
    (
        b"T FETCH 12 BODY[3.2]\r\n",
        b"* 12 FETCH (UID 7 RFC822.SIZE 9 BODY[3.2] {9}\r\nthree two)\r\n",
    ),
    (
        b"T FETCH 12 BODY[4]\r\n",
        b"* 12 FETCH (UID 7 RFC822.SIZE 9 BODY[4] {307}\r\n\
         --c\r\n\
         Content-Type: image/gif\r\n\
         Content-ID: <g>\r\n\
         \r\n\
         GIF\r\n\
         --c\r\n\
         Content-Type: message/rfc822\r\n\
         \r\n\
         Subject: four two\r\n\
         Content-Type: multipart/mixed; boundary=d\r\n\
         \r\n\
         --d\r\n\
         \r\n\
         four two one\r\n\
         --d\r\n\
         Content-Type: multipart/alternative; boundary=e\r\n\
         \r\n\
         --e\r\n\
         \r\n\
         plain\r\n\
         --e\r\n\
         Content-Type: text/richtext\r\n\
         \r\n\
         rich\r\n\
         --e--\r\n\
         --d--\r\n\
         --c--)\r\n",
    ),
    (
        b"T FETCH 12 BODY[4.MIME]\r\n",
        b"* 12 FETCH (UID 7 RFC822.SIZE 9 BODY[4.MIME] {45}\r\n\
         Content-Type: multipart/mixed; boundary=c\r\n\
         \r\n\
         )\r\n",
    ),
    (
        b"T FETCH 12 BODY[4.1]\r\n",
        b"* 12 FETCH (UID 7 RFC822.SIZE 9 BODY[4.1] {3}\r\nGIF)\r\n",
    ),
    (
        b"T FETCH 12 BODY[4.1.MIME]\r\n",
        b"* 12 FETCH (UID 7 RFC822.SIZE 9 BODY[4.1.MIME] {44}\r\n\
         Content-Type: image/gif\r\n\
         Content-ID: <g>\r\n\
         \r\n\
         )\r\n",
    ),
    (
        b"T FETCH 12 BODY[4.2]\r\n",
        b"* 12 FETCH (UID 7 RFC822.SIZE 9 BODY[4.2] {209}\r\n\
         Subject: four two\r\n\
         Content-Type: multipart/mixed; boundary=d\r\n\
         \r\n\
         --d\r\n\
         \r\n\
         four two one\r\n\
         --d\r\n\
         Content-Type: multipart/alternative; boundary=e\r\n\
         \r\n\
         --e\r\n\
         \r\n\
         plain\r\n\
         --e\r\n\
         Content-Type: text/richtext\r\n\
         \r\n\
         rich\r\n\
         --e--\r\n\
         --d--)\r\n",
    ),
    (
        b"T FETCH 12 BODY[4.2.HEADER]\r\n",
        b"* 12 FETCH (UID 7 RFC822.SIZE 9 BODY[4.2.HEADER] {64}\r\n\
         Subject: four two\r\n\
         Content-Type: multipart/mixed; boundary=d\r\n\
         \r\n\
         )\r\n",
    ),
    (
        b"T FETCH 12 BODY[4.2.TEXT]\r\n",
        b"* 12 FETCH (UID 7 RFC822.SIZE 9 BODY[4.2.TEXT] {145}\r\n\
         --d\r\n\
         \r\n\
         four two one\r\n\
         --d\r\n\
         Content-Type: multipart/alternative; boundary=e\r\n\
         \r\n\
         --e\r\n\
         \r\n\
         plain\r\n\
         --e\r\n\
         Content-Type: text/richtext\r\n\
         \r\n\
         rich\r\n\
         --e--\r\n\
         --d--)\r\n",
    ),
    (
        b"T FETCH 12 BODY[4.2.1]\r\n",
        b"* 12 FETCH (UID 7 RFC822.SIZE 9 BODY[4.2.1] {12}\r\nfour two one)\r\n",
    ),
    (
        b"T FETCH 12 BODY[4.2.2]\r\n",
        b"* 12 FETCH (UID 7 RFC822.SIZE 9 BODY[4.2.2] {61}\r\n\
         --e\r\n\
         \r\n\
         plain\r\n\
         --e\r\n\
         Content-Type: text/richtext\r\n\
         \r\n\
         rich\r\n\
         --e--)\r\n",
    ),
    (
        b"T FETCH 12 BODY[4.2.2.MIME]\r\n",
        b"* 12 FETCH (UID 7 RFC822.SIZE 9 BODY[4.2.2.MIME] {51}\r\n\
         Content-Type: multipart/alternative; boundary=e\r\n\
         \r\n\
         )\r\n",
    ),
    (
        b"T FETCH 12 BODY[4.2.2.1]\r\n",
        b"* 12 FETCH (UID 7 RFC822.SIZE 9 BODY[4.2.2.1] {5}\r\nplain)\r\n",
    ),
    (
        b"T FETCH 12 BODY[4.2.2.2]\r\n",
        b"* 12 FETCH (UID 7 RFC822.SIZE 9 BODY[4.2.2.2] {4}\r\nrich)\r\n",
    ),
    (
        b"T FETCH 12 BODY[4.2.2.2.MIME]\r\n",
        b"* 12 FETCH (UID 7 RFC822.SIZE 9 BODY[4.2.2.2.MIME] {31}\r\n\
         Content-Type: text/richtext\r\n\
         \r\n\
         )\r\n",
    ),
    (
        b"T FETCH 12 (UID BODY.PEEK[5] BODY.PEEK[1.1] BODY.PEEK[1.HEADER] BODY.PEEK[2.TEXT] BODY.PEEK[4.HEADER] BODY.PEEK[3.3] BODY.PEEK[4.2.2.3] BODY.PEEK[4.2.2.1.1] BODY.PEEK[3.1.HEADER])\r\n",
        b"* 12 FETCH (UID 7 RFC822.SIZE 9 BODY[5] NIL BODY[1.1] NIL BODY[1.HEADER] NIL BODY[2.TEXT] NIL BODY[4.HEADER] NIL BODY[3.3] NIL BODY[4.2.2.3] NIL BODY[4.2.2.1.1] NIL BODY[3.1.HEADER] NIL)\r\n",
    ),
    (
        b"T FETCH 12 (body.peek[4.2.2.1]<1.2> BODY[1]<0.100> BODY[1]<2.1> BODY[1]<3.9> BODY[9]<5.1> BODY[1] BODY.PEEK[1] BODY[4.1.mime]<9.4>)\r\n",
        b"* 12 FETCH (UID 7 RFC822.SIZE 9 BODY[4.2.2.1]<1> {2}\r\n\
         la BODY[1]<0> {3}\r\n\
         one BODY[1]<2> {1}\r\n\
         e BODY[1]<3> {0}\r\n\
         \x20BODY[9]<5> NIL BODY[1] {3}\r\n\
         one BODY[4.1.MIME]<9> {4}\r\n\
         ype:)\r\n",
    ),
    (
        b"T FETCH 12 BODY[3.HEADER.FIELDS (Subject)]\r\n",
        b"* 12 FETCH (UID 7 RFC822.SIZE 9 BODY[3.HEADER.FIELDS (Subject)] {18}\r\n\
         Subject: three\r\n\
         \r\n\
         )\r\n",
    ),
    (
        b"T FETCH 12 (BODY.PEEK[3.header.fields.not (subject \"X Odd\")]<0.12> BODY[4.2.HEADER.FIELDS (\"CONTENT-TYPE\" Date)])\r\n",
        b"* 12 FETCH (UID 7 RFC822.SIZE 9 BODY[3.HEADER.FIELDS.NOT (subject \"X Odd\")]<0> {12}\r\n\
         Content-Type BODY[4.2.HEADER.FIELDS (CONTENT-TYPE Date)] {45}\r\n\
         Content-Type: multipart/mixed; boundary=d\r\n\
         \r\n\
         )\r\n",
    ),
    // Of a part that is no message, and of one that isn't there.
    (
        b"T FETCH 12 (BODY[1.HEADER.FIELDS (Subject)] BODY[4.HEADER.FIELDS.NOT (a b)]<3.1> BODY[9.HEADER.FIELDS (x)])\r\n",
        b"* 12 FETCH (UID 7 RFC822.SIZE 9 BODY[1.HEADER.FIELDS (Subject)] NIL BODY[4.HEADER.FIELDS.NOT (a b)]<3> NIL BODY[9.HEADER.FIELDS (x)] NIL)\r\n",
    ),
    // Names are compared without case, and told as they were asked for. The same list is told once.
    (
        b"T FETCH 12 (BODY[3.HEADER.FIELDS (\"a)\\\" b\" SUBJECT)] BODY[3.HEADER.FIELDS.NOT (x)]<16.9> BODY.PEEK[3.HEADER.FIELDS (\"a)\\\" b\" SUBJECT)] BODY[3.HEADER.FIELDS (x)])\r\n",
        b"* 12 FETCH (UID 7 RFC822.SIZE 9 BODY[3.HEADER.FIELDS (\"a)\\\" b\" SUBJECT)] {18}\r\n\
         Subject: three\r\n\
         \r\n\
         \x20BODY[3.HEADER.FIELDS.NOT (x)]<16> {9}\r\n\
         Content-T BODY[3.HEADER.FIELDS (x)] {2}\r\n\
         \r\n\
         )\r\n",
    ),
    (
        b"T UID FETCH 7 (RFC822.SIZE BODY[3.1] FLAGS BODY[])\r\n",
        b"* 12 FETCH (UID 7 RFC822.SIZE 9 BODY[3.1] {9}\r\n\
         three one BODY[] {708}\r\n\
         Subject: whole\r\n\
         Content-Type: multipart/mixed; boundary=a\r\n\
         \r\n\
         preamble\r\n\
         --a\r\n\
         \r\n\
         one\r\n\
         --a\r\n\
         Content-Type: application/octet-stream\r\n\
         \r\n\
         two\r\n\
         --a\r\n\
         Content-Type: message/rfc822\r\n\
         \r\n\
         Subject: three\r\n\
         Content-Type: multipart/mixed; boundary=b\r\n\
         \r\n\
         --b\r\n\
         Content-Type: text/plain\r\n\
         \r\n\
         three one\r\n\
         --b\r\n\
         Content-Type: application/octet-stream\r\n\
         \r\n\
         three two\r\n\
         --b--\r\n\
         --a\r\n\
         Content-Type: multipart/mixed; boundary=c\r\n\
         \r\n\
         --c\r\n\
         Content-Type: image/gif\r\n\
         Content-ID: <g>\r\n\
         \r\n\
         GIF\r\n\
         --c\r\n\
         Content-Type: message/rfc822\r\n\
         \r\n\
         Subject: four two\r\n\
         Content-Type: multipart/mixed; boundary=d\r\n\
         \r\n\
         --d\r\n\
         \r\n\
         four two one\r\n\
         --d\r\n\
         Content-Type: multipart/alternative; boundary=e\r\n\
         \r\n\
         --e\r\n\
         \r\n\
         plain\r\n\
         --e\r\n\
         Content-Type: text/richtext\r\n\
         \r\n\
         rich\r\n\
         --e--\r\n\
         --d--\r\n\
         --c--\r\n\
         --a--\r\n\
         )\r\n",
    ),
];

/// Messages, items, and how the message is told.
const OTHERS: &[(&[u8], &[u8], &[u8])] = &[
    (
        b"Subject: x\r\n\r\nbody",
        b"T FETCH 12 (BODY[1] BODY[1.MIME] BODY[1.1] BODY[2] BODY[1.TEXT])\r\n",
        b"* 12 FETCH (UID 7 RFC822.SIZE 9 BODY[1] {4}\r\n\
         body BODY[1.MIME] {14}\r\n\
         Subject: x\r\n\
         \r\n\
         \x20BODY[1.1] NIL BODY[2] NIL BODY[1.TEXT] NIL)\r\n",
    ),
    (
        b"Content-Type: message/rfc822\r\n\r\nSubject: y\r\n\r\nz",
        b"T FETCH 12 (BODY[1] BODY[1.HEADER] BODY[1.1] BODY[1.TEXT] BODY[1.1.1])\r\n",
        b"* 12 FETCH (UID 7 RFC822.SIZE 9 BODY[1] {15}\r\n\
         Subject: y\r\n\
         \r\n\
         z BODY[1.HEADER] {14}\r\n\
         Subject: y\r\n\
         \r\n\
         \x20BODY[1.1] {1}\r\n\
         z BODY[1.TEXT] {1}\r\n\
         z BODY[1.1.1] NIL)\r\n",
    ),
    (
        b"Content-Type: multipart/digest; boundary=q\r\n\
         \r\n\
         --q\r\n\
         \r\n\
         Subject: s\r\n\
         \r\n\
         t\r\n\
         --q--\r\n",
        b"T FETCH 12 (BODY[1.HEADER] BODY[1.1] BODY[1.MIME])\r\n",
        b"* 12 FETCH (UID 7 RFC822.SIZE 9 BODY[1.HEADER] {14}\r\n\
         Subject: s\r\n\
         \r\n\
         \x20BODY[1.1] {1}\r\n\
         t BODY[1.MIME] {2}\r\n\
         \r\n\
         )\r\n",
    ),
    (
        b"Content-Type: multipart/mixed\r\n\r\nx",
        b"T FETCH 12 (BODY[1] BODY[2] BODYSTRUCTURE)\r\n",
        b"* 12 FETCH (UID 7 RFC822.SIZE 9 BODY[1] {0}\r\n\
         \x20BODY[2] NIL BODYSTRUCTURE ((\"text\" \"plain\" (\"charset\" \"us-ascii\") NIL NIL \"7BIT\" 0 0 NIL NIL NIL NIL) \"mixed\" NIL NIL NIL NIL))\r\n",
    ),
];

#[test]
fn parts_are_told_from_the_message(rt: HostRuntime) {
    for &(command, wanted) in ROWS {
        let whole = &[Body::Whole(None, TREE)];
        expect_told(
            &rt,
            &session(false),
            command,
            message(rt.alloc(), whole),
            wanted,
        );
    }
    for &(octets, command, wanted) in OTHERS {
        let whole = &[Body::Whole(None, octets)];
        expect_told(
            &rt,
            &session(true),
            command,
            message(rt.alloc(), whole),
            wanted,
        );
    }
}
