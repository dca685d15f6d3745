//! Envelopes (RFC 9051, section 7.5.2).

use crate::wanted::expect;
use imap_mime::{laws, push_envelope};
use std::alloc::{AllocError, Global};

fn envelope(alloc: Global, header: &[u8]) -> Result<Vec<u8>, AllocError> {
    let mut out = Vec::new(alloc);
    push_envelope(alloc, &mut out, header)?;
    Ok(out)
}

/// Headers, and the envelopes that Python reads in them. The first is that of RFC 9051, section 8. The next are
/// those of RFC 5322, appendices A.1.2, A.1.3, A.5, A.6.1 and A.6.3.
const HEADERS: &[(&[u8], &[u8])] = &[
    (
        b"Date: Wed, 17 Jul 1996 02:23:25 -0700 (PDT)\r\n\
         From: Terry Gray <gray@cac.washington.edu>\r\n\
         Subject: IMAP4rev2 WG mtg summary and minutes\r\n\
         To: imap@cac.washington.edu\r\n\
         cc: minutes@CNRI.Reston.VA.US, John Klensin <KLENSIN@MIT.EDU>\r\n\
         Message-Id: <B27397-0100000@cac.washington.edu>\r\n\
         \r\n",
        b"(\"Wed, 17 Jul 1996 02:23:25 -0700 (PDT)\" \"IMAP4rev2 WG mtg summary and minutes\" ((\"Terry \
         Gray\" NIL \"gray\" \"cac.washington.edu\")) ((\"Terry Gray\" NIL \"gray\" \
         \"cac.washington.edu\")) ((\"Terry Gray\" NIL \"gray\" \"cac.washington.edu\")) ((NIL NIL \
         \"imap\" \"cac.washington.edu\")) ((NIL NIL \"minutes\" \"CNRI.Reston.VA.US\")(\"John \
         Klensin\" NIL \"KLENSIN\" \"MIT.EDU\")) NIL NIL \"<B27397-0100000@cac.washington.edu>\")",
    ),
    (
        b"From: \"Joe Q. Public\" <john.q.public@example.com>\r\n\
         To: Mary Smith <mary@x.test>, jdoe@example.org, Who? <one@y.test>\r\n\
         Cc: <boss@nil.test>, \"Giant; \\\"Big\\\" Box\" <sysservices@example.net>\r\n\
         Date: Tue, 1 Jul 2003 10:52:37 +0200\r\n\
         Message-ID: <5678.21-Nov-1997@example.com>\r\n\
         \r\n",
        b"(\"Tue, 1 Jul 2003 10:52:37 +0200\" NIL ((\"Joe Q. Public\" NIL \"john.q.public\" \
         \"example.com\")) ((\"Joe Q. Public\" NIL \"john.q.public\" \"example.com\")) ((\"Joe Q. \
         Public\" NIL \"john.q.public\" \"example.com\")) ((\"Mary Smith\" NIL \"mary\" \"x.test\")(NIL \
         NIL \"jdoe\" \"example.org\")(\"Who?\" NIL \"one\" \"y.test\")) ((NIL NIL \"boss\" \
         \"nil.test\")(\"Giant; \\\"Big\\\" Box\" NIL \"sysservices\" \"example.net\")) NIL NIL \
         \"<5678.21-Nov-1997@example.com>\")",
    ),
    (
        b"From: Pete <pete@silly.example>\r\n\
         To: A Group:Ed Jones <c@a.test>,joe@where.test,John <jdoe@one.test>;\r\n\
         Cc: Undisclosed recipients:;\r\n\
         \r\n",
        b"(NIL NIL ((\"Pete\" NIL \"pete\" \"silly.example\")) ((\"Pete\" NIL \"pete\" \
         \"silly.example\")) ((\"Pete\" NIL \"pete\" \"silly.example\")) ((NIL NIL \"A Group\" NIL)\
         (\"Ed Jones\" NIL \"c\" \"a.test\")(NIL NIL \"joe\" \"where.test\")(\"John\" NIL \"jdoe\" \
         \"one.test\")(NIL NIL NIL NIL)) ((NIL NIL \"Undisclosed recipients\" NIL)(NIL NIL NIL NIL)) \
         NIL NIL NIL)",
    ),
    (
        b"From: Pete(A nice \\) chap) <pete(his account)@silly.test(his host)>\r\n\
         To:A Group(Some people)\r\n\
         \x20    :Chris Jones <c@(Chris's host.)public.example>,\r\n\
         \x20        joe@example.org,\r\n\
         \x20 John <jdoe@one.test> (my dear friend); (the end of the group)\r\n\
         Cc:(Empty list)(start)Hidden recipients  :(nobody(that I know))  ;\r\n\
         Date: Thu,\r\n\
         \x20     13\r\n\
         \x20       Feb\r\n\
         \x20         1969\r\n\
         \x20     23:32\r\n\
         \x20              -0330 (Newfoundland Time)\r\n\
         Message-ID:              <testabcd.1234@silly.test>\r\n\
         \r\n",
        b"(\"Thu,      13        Feb          1969      23:32               -0330 (Newfoundland Time)\" \
         NIL ((\"Pete\" NIL \"pete\" \"silly.test\")) ((\"Pete\" NIL \"pete\" \"silly.test\")) \
         ((\"Pete\" NIL \"pete\" \"silly.test\")) ((NIL NIL \"A Group\" NIL)(\"Chris Jones\" NIL \"c\" \
         \"public.example\")(NIL NIL \"joe\" \"example.org\")(\"John\" NIL \"jdoe\" \"one.test\")(NIL \
         NIL NIL NIL)) ((NIL NIL \"Hidden recipients\" NIL)(NIL NIL NIL NIL)) NIL NIL \
         \"<testabcd.1234@silly.test>\")",
    ),
    (
        b"From: Joe Q. Public <john.q.public@example.com>\r\n\
         To: Mary Smith <@node.test:mary@example.net>, , jdoe@test  . example\r\n\
         Date: Tue, 1 Jul 2003 10:52:37 +0200\r\n\
         \r\n",
        b"(\"Tue, 1 Jul 2003 10:52:37 +0200\" NIL ((\"Joe Q. Public\" NIL \"john.q.public\" \
         \"example.com\")) ((\"Joe Q. Public\" NIL \"john.q.public\" \"example.com\")) ((\"Joe Q. \
         Public\" NIL \"john.q.public\" \"example.com\")) ((\"Mary Smith\" \"@node.test\" \"mary\" \
         \"example.net\")(NIL NIL \"jdoe\" \"test.example\")) NIL NIL NIL NIL)",
    ),
    (
        b"From: a@b\r\n\
         Sender: c@d\r\n\
         Reply-To: e@f, g@h\r\n\
         In-Reply-To: <1@x> <2@x>\r\n\
         Bcc: i@j\r\n\
         \r\n",
        b"(NIL NIL ((NIL NIL \"a\" \"b\")) ((NIL NIL \"c\" \"d\")) ((NIL NIL \"e\" \"f\")(NIL NIL \"g\" \
         \"h\")) NIL NIL ((NIL NIL \"i\" \"j\")) \"<1@x> <2@x>\" NIL)",
    ),
    (
        b"Sender: c@d\r\nReply-To:\r\n\r\n",
        b"(NIL NIL NIL ((NIL NIL \"c\" \"d\")) NIL NIL NIL NIL NIL NIL)",
    ),
    (
        b"From: a@b\r\n\
         From: c@d\r\n\
         Sender: ,\r\n\
         Reply-To: (no one)\r\n\
         Subject: one\r\n\
         Subject: two\r\n\
         \r\n",
        b"(NIL \"one\" ((NIL NIL \"a\" \"b\")) ((NIL NIL \"a\" \"b\")) ((NIL NIL \"a\" \"b\")) NIL NIL \
         NIL NIL NIL)",
    ),
    (
        b"To: a@b\r\nCc: x@y\r\nTo: c@d\r\nCc: z@w;\r\nTo: \"e@f\r\n\r\n",
        b"(NIL NIL NIL NIL NIL ((NIL NIL \"a\" \"b\")(NIL NIL \"c\" \"d\")(NIL NIL \"e@f\" \"\")) ((NIL \
         NIL \"x\" \"y\")(NIL NIL \"z\" \"w\")) NIL NIL NIL)",
    ),
    (
        b"Subject:  folded\r\n\
         \tand folded\r\n\
         \x20again \t\r\n\
         Date:\r\n\
         In-Reply-To: \t \r\n\
         Message-ID: a\\b\"c\r\n\
         \r\n",
        b"(\"\" \"folded\tand folded again\" NIL NIL NIL NIL NIL NIL \"\" \"a\\\\b\\\"c\")",
    ),
    (
        b"subject:nothing before it\r\nDATE : none\r\nNo field\r\nfrom:\r\n\r\n",
        b"(NIL \"nothing before it\" NIL NIL NIL NIL NIL NIL NIL NIL)",
    ),
    (
        b"Subject: caf\xc3\xa9\r\n\
         From: Caf\xc3\xa9 <caf\xc3\xa9@b>\r\n\
         To: =?utf-8?q?Caf=C3=A9?= <a@b>\r\n\
         \r\n",
        b"(NIL {5}\r\ncaf\xc3\xa9 (({5}\r\nCaf\xc3\xa9 NIL {5}\r\ncaf\xc3\xa9 \"b\")) \
         (({5}\r\nCaf\xc3\xa9 NIL {5}\r\ncaf\xc3\xa9 \"b\")) (({5}\r\nCaf\xc3\xa9 NIL \
         {5}\r\ncaf\xc3\xa9 \"b\")) ((\"=?utf-8?q?Caf=C3=A9?=\" NIL \"a\" \"b\")) NIL NIL NIL NIL)",
    ),
    (
        b"Subject: a\x00b\nc\rd\r\nTo: a\x00b@c\nd\r\n\r\n",
        b"(NIL \"abcd\" NIL NIL NIL ((NIL NIL \"ab\" \"cd\")) NIL NIL NIL NIL)",
    ),
    (
        b"Subject: xxxxxxxxxxxxxxxxxxxxxxxxxxxxxxxxxxxxxxxxxxxxxxxxxxxxxxxxxxxxxxxxxxxxxxxxxxxxxxxxxxxxxxxxxxxxxxxxxxxxxxxxxxxxxxxxxxxxxxxxxxxxxxxxxxxxxxxxxxxxxxxxxxxxxxxxxxxxxxxxxxxxxxxxxxxxxxxxxxxxxxxxxxxxxxxxxxxxxxxxxxxxxxxxxxxxxxxxxxxxxxxxxxxxxxxxxxxxxxxxxxxxxxxxxxxxxxxxxxxxxxxxxxxxxxxxxxxxxxxxxxxxxxxxxxxxxxxxxxxx\r\n\
         \r\n",
        b"(NIL \
         \"xxxxxxxxxxxxxxxxxxxxxxxxxxxxxxxxxxxxxxxxxxxxxxxxxxxxxxxxxxxxxxxxxxxxxxxxxxxxxxxxxxxxxxxxxxxxxxxxxxxxxxxxxxxxxxxxxxxxxxxxxxxxxxxxxxxxxxxxxxxxxxxxxxxxxxxxxxxxxxxxxxxxxxxxxxxxxxxxxxxxxxxxxxxxxxxxxxxxxxxxxxxxxxxxxxxxxxxxxxxxxxxxxxxxxxxxxxxxxxxxxxxxxxxxxxxxxxxxxxxxxxxxxxxxxxxxxxxxxxxxxxxxxxxxxxxxxxxxxxxx\" NIL NIL NIL NIL NIL NIL NIL NIL)",
    ),
    (
        b"Subject: x\r\n\r\nDate: text\r\n",
        b"(NIL \"x\" NIL NIL NIL NIL NIL NIL NIL NIL)",
    ),
    (b"", b"(NIL NIL NIL NIL NIL NIL NIL NIL NIL NIL)"),
    (b"\r\n", b"(NIL NIL NIL NIL NIL NIL NIL NIL NIL NIL)"),
];

#[test]
fn envelopes_of_headers(rt: HostRuntime) {
    for &(header, wanted) in HEADERS {
        expect(&rt, envelope(rt.alloc(), header), wanted);
    }
    laws::each_is_one_line();
}

fn recipients(alloc: Global, value: &[u8]) -> Result<Vec<u8>, AllocError> {
    let mut header = Vec::from_slice(alloc, b"To: ")?;
    header.extend_from_slice(value)?;
    header.extend_from_slice(b"\r\n")?;
    envelope(alloc, header.as_slice())
}

/// Values of To, and the addresses that Python reads in them.
const VALUES: &[(&[u8], &[u8])] = &[
    (
        b"a",
        b"(NIL NIL NIL NIL NIL ((NIL NIL \"a\" \"\")) NIL NIL NIL NIL)",
    ),
    (
        b"@",
        b"(NIL NIL NIL NIL NIL ((NIL NIL \"\" \"\")) NIL NIL NIL NIL)",
    ),
    (
        b"@b",
        b"(NIL NIL NIL NIL NIL ((NIL NIL \"\" \"b\")) NIL NIL NIL NIL)",
    ),
    (
        b"a@",
        b"(NIL NIL NIL NIL NIL ((NIL NIL \"a\" \"\")) NIL NIL NIL NIL)",
    ),
    (
        b"a@b@c",
        b"(NIL NIL NIL NIL NIL ((NIL NIL \"a@b\" \"c\")) NIL NIL NIL NIL)",
    ),
    (
        b"<>",
        b"(NIL NIL NIL NIL NIL ((NIL NIL \"\" \"\")) NIL NIL NIL NIL)",
    ),
    (
        b"<a@b",
        b"(NIL NIL NIL NIL NIL ((NIL NIL \"a\" \"b\")) NIL NIL NIL NIL)",
    ),
    (
        b"a b <c d@e f>",
        b"(NIL NIL NIL NIL NIL ((\"a b\" NIL \"cd\" \"ef\")) NIL NIL NIL NIL)",
    ),
    (
        b"a <b@c> d <e@f>, g@h",
        b"(NIL NIL NIL NIL NIL ((\"a\" NIL \"b\" \"c\")(NIL NIL \"g\" \"h\")) NIL NIL NIL NIL)",
    ),
    (
        b":",
        b"(NIL NIL NIL NIL NIL ((NIL NIL \"\" NIL)(NIL NIL NIL NIL)) NIL NIL NIL NIL)",
    ),
    (b";", b"(NIL NIL NIL NIL NIL NIL NIL NIL NIL NIL)"),
    (
        b"a:b:c;d;",
        b"(NIL NIL NIL NIL NIL ((NIL NIL \"a\" NIL)(NIL NIL \"b:c\" \"\")(NIL NIL NIL NIL)(NIL NIL \"d\" \"\")) NIL NIL NIL NIL)",
    ),
    (
        b"a:b",
        b"(NIL NIL NIL NIL NIL ((NIL NIL \"a\" NIL)(NIL NIL \"b\" \"\")(NIL NIL NIL NIL)) NIL NIL NIL NIL)",
    ),
    (
        b"a:b@c,<d@e",
        b"(NIL NIL NIL NIL NIL ((NIL NIL \"a\" NIL)(NIL NIL \"b\" \"c\")(NIL NIL \"d\" \"e\")(NIL NIL NIL NIL)) NIL NIL NIL NIL)",
    ),
    (
        b"\"a\\\"b\"@c",
        b"(NIL NIL NIL NIL NIL ((NIL NIL \"a\\\"b\" \"c\")) NIL NIL NIL NIL)",
    ),
    (
        b"\"\"@c",
        b"(NIL NIL NIL NIL NIL ((NIL NIL \"\" \"c\")) NIL NIL NIL NIL)",
    ),
    (
        b"\"a b\" c \"\" d <e@f>",
        b"(NIL NIL NIL NIL NIL ((\"a b c  d\" NIL \"e\" \"f\")) NIL NIL NIL NIL)",
    ),
    (
        b"a@[1:2,3@4]",
        b"(NIL NIL NIL NIL NIL ((NIL NIL \"a\" \"[1:2,3@4]\")) NIL NIL NIL NIL)",
    ),
    (
        b"a@[b",
        b"(NIL NIL NIL NIL NIL ((NIL NIL \"a\" \"[b\")) NIL NIL NIL NIL)",
    ),
    (
        b"(a(b)c)d@e(f)",
        b"(NIL NIL NIL NIL NIL ((\"a(b)c\" NIL \"d\" \"e\")) NIL NIL NIL NIL)",
    ),
    (b"(((a", b"(NIL NIL NIL NIL NIL NIL NIL NIL NIL NIL)"),
    (b"(a\\", b"(NIL NIL NIL NIL NIL NIL NIL NIL NIL NIL)"),
    (
        b"a)b@c",
        b"(NIL NIL NIL NIL NIL ((NIL NIL \"a)b\" \"c\")) NIL NIL NIL NIL)",
    ),
    (
        b">a@b",
        b"(NIL NIL NIL NIL NIL ((NIL NIL \">a\" \"b\")) NIL NIL NIL NIL)",
    ),
    (
        b"<<a@b>>",
        b"(NIL NIL NIL NIL NIL ((NIL NIL \"<a\" \"b\")) NIL NIL NIL NIL)",
    ),
    (
        b"<@a,@b:c@d:e>",
        b"(NIL NIL NIL NIL NIL ((NIL \"@a,@b\" \"c\" \"d:e\")) NIL NIL NIL NIL)",
    ),
    (
        b"a. b . c@d . e",
        b"(NIL NIL NIL NIL NIL ((NIL NIL \"a.b.c\" \"d.e\")) NIL NIL NIL NIL)",
    ),
    (
        b"=?a?b?c?= <d@e>, f (g) (h)",
        b"(NIL NIL NIL NIL NIL ((\"=?a?b?c?=\" NIL \"d\" \"e\")(\"g\" NIL \"f\" \"\")) NIL NIL NIL NIL)",
    ),
    (
        b"a,b",
        b"(NIL NIL NIL NIL NIL ((NIL NIL \"a\" \"\")(NIL NIL \"b\" \"\")) NIL NIL NIL NIL)",
    ),
    (
        b",,a@b,,",
        b"(NIL NIL NIL NIL NIL ((NIL NIL \"a\" \"b\")) NIL NIL NIL NIL)",
    ),
    (
        b"a;b@c",
        b"(NIL NIL NIL NIL NIL ((NIL NIL \"a\" \"\")(NIL NIL \"b\" \"c\")) NIL NIL NIL NIL)",
    ),
    (
        b"g:;,a@b",
        b"(NIL NIL NIL NIL NIL ((NIL NIL \"g\" NIL)(NIL NIL NIL NIL)(NIL NIL \"a\" \"b\")) NIL NIL NIL NIL)",
    ),
    (
        b"a\"b c\"d@e",
        b"(NIL NIL NIL NIL NIL ((NIL NIL \"ab cd\" \"e\")) NIL NIL NIL NIL)",
    ),
    (
        b"a (b) c (d) <e@f> (g)",
        b"(NIL NIL NIL NIL NIL ((\"a c\" NIL \"e\" \"f\")) NIL NIL NIL NIL)",
    ),
    (b"(a)", b"(NIL NIL NIL NIL NIL NIL NIL NIL NIL NIL)"),
    (
        b"x: (y);",
        b"(NIL NIL NIL NIL NIL ((NIL NIL \"x\" NIL)(NIL NIL NIL NIL)) NIL NIL NIL NIL)",
    ),
    (
        b"a@b (c",
        b"(NIL NIL NIL NIL NIL ((\"c\" NIL \"a\" \"b\")) NIL NIL NIL NIL)",
    ),
    (
        b"\\a@b",
        b"(NIL NIL NIL NIL NIL ((NIL NIL \"\\\\a\" \"b\")) NIL NIL NIL NIL)",
    ),
    (
        b"a<b@c",
        b"(NIL NIL NIL NIL NIL ((\"a\" NIL \"b\" \"c\")) NIL NIL NIL NIL)",
    ),
];

#[test]
fn addresses_of_values(rt: HostRuntime) {
    for &(value, wanted) in VALUES {
        expect(&rt, recipients(rt.alloc(), value), wanted);
    }
}
