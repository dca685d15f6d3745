//! Structures (RFC 9051, section 7.5.2).

use crate::wanted::expect;
use imap_structure::{laws, push_structure};
use std::alloc::{AllocError, Global};

fn structure(alloc: Global, extended: bool, message: &[u8]) -> Result<Vec<u8>, AllocError> {
    let mut out = Vec::new(alloc);
    push_structure(alloc, &mut out, extended, message)?;
    Ok(out)
}

/// Messages, and what Python makes of them: BODYSTRUCTURE, or BODY.
const MESSAGES: &[(&[u8], bool, &[u8])] = &[
    (
        b"\r\nhello\r\nyou\r\n",
        true,
        b"(\"text\" \"plain\" (\"charset\" \"us-ascii\") NIL NIL \"7BIT\" 12 2 NIL NIL NIL NIL)",
    ),
    (
        b"Content-Type: text/html; charset=\"utf-8\"; x=1\r\n\
         Content-Transfer-Encoding: 8bit\r\n\
         Content-ID: <a@b>\r\n\
         Content-Description: c\r\n\
         Content-MD5: d\r\n\
         Content-Disposition: attachment; filename=\"e f.html\"\r\n\
         Content-Language: en, de\r\n\
         Content-Location: g\r\n\
         \r\n\
         <p>\r\n",
        true,
        b"(\"text\" \"html\" (\"charset\" \"utf-8\" \"x\" \"1\") \"<a@b>\" \"c\" \"8bit\" 5 1 \"d\" \
         (\"attachment\" (\"filename\" \"e f.html\")) \"en, de\" \"g\")",
    ),
    (
        b"Content-Type: image / png (a; picture) ; name=a.png; =b; c; d=\r\n\r\n\x89PNG",
        true,
        b"(\"image\" \"png\" (\"name\" \"a.png\" \"d\" \"\") NIL NIL \"7BIT\" 4 NIL NIL NIL NIL)",
    ),
    (
        b"Content-Type: \r\n\r\n--\r\nx\r\n--\r\n",
        true,
        b"(\"text\" \"plain\" (\"charset\" \"us-ascii\") NIL NIL \"7BIT\" 11 3 NIL NIL NIL NIL)",
    ),
    (
        b"Content-Type: text\r\n\r\n--\r\nx\r\n--\r\n",
        true,
        b"(\"text\" \"plain\" (\"charset\" \"us-ascii\") NIL NIL \"7BIT\" 11 3 NIL NIL NIL NIL)",
    ),
    (
        b"Content-Type: /plain\r\n\r\n--\r\nx\r\n--\r\n",
        true,
        b"(\"text\" \"plain\" (\"charset\" \"us-ascii\") NIL NIL \"7BIT\" 11 3 NIL NIL NIL NIL)",
    ),
    (
        b"Content-Type: text/\r\n\r\n--\r\nx\r\n--\r\n",
        true,
        b"(\"text\" \"plain\" (\"charset\" \"us-ascii\") NIL NIL \"7BIT\" 11 3 NIL NIL NIL NIL)",
    ),
    (
        b"Content-Type: ;charset=x\r\n\r\n--\r\nx\r\n--\r\n",
        true,
        b"(\"text\" \"plain\" (\"charset\" \"us-ascii\") NIL NIL \"7BIT\" 11 3 NIL NIL NIL NIL)",
    ),
    (
        b"Content-Type: TEXT/plain;CHARSET=x;charset=y\r\n\r\n--\r\nx\r\n--\r\n",
        true,
        b"(\"TEXT\" \"plain\" (\"CHARSET\" \"x\" \"charset\" \"y\") NIL NIL \"7BIT\" 11 3 NIL NIL NIL \
         NIL)",
    ),
    (
        b"Content-Type: a/b/c\r\n\r\n--\r\nx\r\n--\r\n",
        true,
        b"(\"a\" \"b/c\" NIL NIL NIL \"7BIT\" 11 NIL NIL NIL NIL)",
    ),
    (
        b"Content-Type: \"a/b\"; c=\"d;e=\\\"f\"\r\n\r\n--\r\nx\r\n--\r\n",
        true,
        b"(\"a\" \"b\" (\"c\" \"d;e=\\\"f\") NIL NIL \"7BIT\" 11 NIL NIL NIL NIL)",
    ),
    (
        b"Content-Type: text/plain; name=caf\xc3\xa9\r\n\r\n--\r\nx\r\n--\r\n",
        true,
        b"(\"text\" \"plain\" (\"name\" {5}\r\ncaf\xc3\xa9 \"charset\" \"us-ascii\") NIL NIL \"7BIT\" 11 \
         3 NIL NIL NIL NIL)",
    ),
    (
        b"Content-Type: text/plain; a=b=c;; d = e\r\n\r\n--\r\nx\r\n--\r\n",
        true,
        b"(\"text\" \"plain\" (\"a\" \"b=c\" \"d\" \"e\" \"charset\" \"us-ascii\") NIL NIL \"7BIT\" 11 3 \
         NIL NIL NIL NIL)",
    ),
    (
        b"Content-Type: message/partial\r\n\r\n--\r\nx\r\n--\r\n",
        true,
        b"(\"message\" \"partial\" NIL NIL NIL \"7BIT\" 11 NIL NIL NIL NIL)",
    ),
    (
        b"Content-Type: multipart/mixed\r\n\r\n--\r\nx\r\n--\r\n",
        true,
        b"((\"text\" \"plain\" (\"charset\" \"us-ascii\") NIL NIL \"7BIT\" 0 0 NIL NIL NIL NIL) \
         \"mixed\" NIL NIL NIL NIL)",
    ),
    (
        b"Content-Type: multipart/mixed; boundary=\"\"\r\n\r\n--\r\nx\r\n--\r\n",
        true,
        b"((\"text\" \"plain\" (\"charset\" \"us-ascii\") NIL NIL \"7BIT\" 0 0 NIL NIL NIL NIL) \
         \"mixed\" (\"boundary\" \"\") NIL NIL NIL)",
    ),
    (
        b"Content-Type: multipart/alternative; boundary=b\r\n\
         \r\n\
         preamble\r\n\
         --bb\r\n\
         --b \t\r\n\
         \r\n\
         one\r\n\
         --b\r\n\
         Content-Type: text/html\r\n\
         \r\n\
         two\r\n\
         \r\n\
         --b--x\r\n\
         --b--\r\n\
         --b\r\n\
         \r\n\
         epilogue\r\n",
        true,
        b"((\"text\" \"plain\" (\"charset\" \"us-ascii\") NIL NIL \"7BIT\" 3 0 NIL NIL NIL NIL)(\"text\" \
         \"html\" (\"charset\" \"us-ascii\") NIL NIL \"7BIT\" 13 2 NIL NIL NIL NIL) \"alternative\" \
         (\"boundary\" \"b\") NIL NIL NIL)",
    ),
    (
        b"Content-Type: multipart/mixed; boundary=b\r\n\
         \r\n\
         --b\r\n\
         --b\r\n\
         Subject: x\r\n\
         --b\r\n\
         \r\n\
         --b\r\n\
         \r\n\
         \r\n\
         --b--",
        true,
        b"((\"text\" \"plain\" (\"charset\" \"us-ascii\") NIL NIL \"7BIT\" 0 0 NIL NIL NIL NIL)(\"text\" \
         \"plain\" (\"charset\" \"us-ascii\") NIL NIL \"7BIT\" 0 0 NIL NIL NIL NIL)(\"text\" \"plain\" \
         (\"charset\" \"us-ascii\") NIL NIL \"7BIT\" 0 0 NIL NIL NIL NIL)(\"text\" \"plain\" \
         (\"charset\" \"us-ascii\") NIL NIL \"7BIT\" 0 0 NIL NIL NIL NIL) \"mixed\" (\"boundary\" \
         \"b\") NIL NIL NIL)",
    ),
    (
        b"Content-Type: multipart/mixed; boundary=b\r\n\r\n--b--\r\n--b\r\n\r\nx\r\n",
        true,
        b"((\"text\" \"plain\" (\"charset\" \"us-ascii\") NIL NIL \"7BIT\" 0 0 NIL NIL NIL NIL) \
         \"mixed\" (\"boundary\" \"b\") NIL NIL NIL)",
    ),
    (
        b"Content-Type: multipart/mixed; boundary=b\r\n\r\n--b\r\n\r\nno end",
        true,
        b"((\"text\" \"plain\" (\"charset\" \"us-ascii\") NIL NIL \"7BIT\" 6 0 NIL NIL NIL NIL) \
         \"mixed\" (\"boundary\" \"b\") NIL NIL NIL)",
    ),
    (
        b"Content-Type: multipart/mixed; boundary=b\r\n\
         \r\n\
         --b\r\n\
         Content-Type: multipart/mixed; boundary=b\r\n\
         \r\n\
         --b\r\n\
         \r\n\
         x\r\n\
         --b--\r\n\
         --b--\r\n",
        true,
        b"(((\"text\" \"plain\" (\"charset\" \"us-ascii\") NIL NIL \"7BIT\" 0 0 NIL NIL NIL NIL) \
         \"mixed\" (\"boundary\" \"b\") NIL NIL NIL)(\"text\" \"plain\" (\"charset\" \"us-ascii\") NIL \
         NIL \"7BIT\" 1 0 NIL NIL NIL NIL) \"mixed\" (\"boundary\" \"b\") NIL NIL NIL)",
    ),
    (
        b"Content-Type: multipart/mixed; boundary=\"a b\"\r\n\
         \r\n\
         --a b\r\n\
         Content-Type: multipart/mixed; boundary=\"a b--\"\r\n\
         \r\n\
         --a b--\r\n\
         \r\n\
         x\r\n\
         --a b----\r\n",
        true,
        b"(((\"text\" \"plain\" (\"charset\" \"us-ascii\") NIL NIL \"7BIT\" 0 0 NIL NIL NIL NIL) \
         \"mixed\" (\"boundary\" \"a b--\") NIL NIL NIL) \"mixed\" (\"boundary\" \"a b\") NIL NIL NIL)",
    ),
    (
        b"Content-Type: multipart/digest; boundary=d\r\n\
         \r\n\
         --d\r\n\
         \r\n\
         Subject: one\r\n\
         From: a@b\r\n\
         \r\n\
         x\r\n\
         --d\r\n\
         Content-Type: text/plain\r\n\
         \r\n\
         y\r\n\
         --d--\r\n",
        true,
        b"((\"message\" \"rfc822\" NIL NIL NIL \"7BIT\" 28 (NIL \"one\" ((NIL NIL \"a\" \"b\")) ((NIL \
         NIL \"a\" \"b\")) ((NIL NIL \"a\" \"b\")) NIL NIL NIL NIL NIL) (\"text\" \"plain\" \
         (\"charset\" \"us-ascii\") NIL NIL \"7BIT\" 1 0 NIL NIL NIL NIL) 3 NIL NIL NIL NIL)(\"text\" \
         \"plain\" (\"charset\" \"us-ascii\") NIL NIL \"7BIT\" 1 0 NIL NIL NIL NIL) \"digest\" \
         (\"boundary\" \"d\") NIL NIL NIL)",
    ),
    (
        b"Content-Type: message/rfc822\r\n\
         \r\n\
         Subject: in\r\n\
         Content-Type: multipart/mixed; boundary=i\r\n\
         \r\n\
         --i\r\n\
         \r\n\
         text\r\n\
         --i\r\n\
         Content-Type: message/global\r\n\
         \r\n\
         Subject: deep\r\n\
         \r\n\
         deeper\r\n\
         --i--\r\n",
        true,
        b"(\"message\" \"rfc822\" NIL NIL NIL \"7BIT\" 140 (NIL \"in\" NIL NIL NIL NIL NIL NIL NIL NIL) \
         ((\"text\" \"plain\" (\"charset\" \"us-ascii\") NIL NIL \"7BIT\" 4 0 NIL NIL NIL NIL)\
         (\"message\" \"global\" NIL NIL NIL \"7BIT\" 23 (NIL \"deep\" NIL NIL NIL NIL NIL NIL NIL NIL) \
         (\"text\" \"plain\" (\"charset\" \"us-ascii\") NIL NIL \"7BIT\" 6 0 NIL NIL NIL NIL) 2 NIL NIL \
         NIL NIL) \"mixed\" (\"boundary\" \"i\") NIL NIL NIL) 13 NIL NIL NIL NIL)",
    ),
    (
        b"Content-Type: message/rfc822",
        true,
        b"(\"message\" \"rfc822\" NIL NIL NIL \"7BIT\" 0 (NIL NIL NIL NIL NIL NIL NIL NIL NIL NIL) \
         (\"text\" \"plain\" (\"charset\" \"us-ascii\") NIL NIL \"7BIT\" 0 0 NIL NIL NIL NIL) 0 NIL NIL \
         NIL NIL)",
    ),
    (
        b"Content-Type: text/html; charset=\"utf-8\"; x=1\r\n\
         Content-Transfer-Encoding: 8bit\r\n\
         Content-ID: <a@b>\r\n\
         Content-Description: c\r\n\
         Content-MD5: d\r\n\
         Content-Disposition: attachment; filename=\"e f.html\"\r\n\
         Content-Language: en, de\r\n\
         Content-Location: g\r\n\
         \r\n\
         <p>\r\n",
        false,
        b"(\"text\" \"html\" (\"charset\" \"utf-8\" \"x\" \"1\") \"<a@b>\" \"c\" \"8bit\" 5 1)",
    ),
    (
        b"Content-Type: message/rfc822\r\n\
         \r\n\
         Subject: in\r\n\
         Content-Type: multipart/mixed; boundary=i\r\n\
         \r\n\
         --i\r\n\
         \r\n\
         text\r\n\
         --i\r\n\
         Content-Type: message/global\r\n\
         \r\n\
         Subject: deep\r\n\
         \r\n\
         deeper\r\n\
         --i--\r\n",
        false,
        b"(\"message\" \"rfc822\" NIL NIL NIL \"7BIT\" 140 (NIL \"in\" NIL NIL NIL NIL NIL NIL NIL NIL) \
         ((\"text\" \"plain\" (\"charset\" \"us-ascii\") NIL NIL \"7BIT\" 4 0)(\"message\" \"global\" \
         NIL NIL NIL \"7BIT\" 23 (NIL \"deep\" NIL NIL NIL NIL NIL NIL NIL NIL) (\"text\" \"plain\" \
         (\"charset\" \"us-ascii\") NIL NIL \"7BIT\" 6 0) 2) \"mixed\") 13)",
    ),
    (
        b"Content-Type: multipart/alternative; boundary=b\r\n\
         \r\n\
         preamble\r\n\
         --bb\r\n\
         --b \t\r\n\
         \r\n\
         one\r\n\
         --b\r\n\
         Content-Type: text/html\r\n\
         \r\n\
         two\r\n\
         \r\n\
         --b--x\r\n\
         --b--\r\n\
         --b\r\n\
         \r\n\
         epilogue\r\n",
        false,
        b"((\"text\" \"plain\" (\"charset\" \"us-ascii\") NIL NIL \"7BIT\" 3 0)(\"text\" \"html\" \
         (\"charset\" \"us-ascii\") NIL NIL \"7BIT\" 13 2) \"alternative\")",
    ),
];

#[test]
fn structures_of_messages(rt: HostRuntime) {
    for &(message, extended, wanted) in MESSAGES {
        expect(&rt, structure(rt.alloc(), extended, message), wanted);
    }
    laws::each_is_one_line();
}
