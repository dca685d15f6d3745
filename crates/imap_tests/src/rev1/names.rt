//! Names in modified UTF-7, in commands and in replies (RFC 3501, section 5.1.3; RFC 6855, section 3).

use crate::rev1::rows::{expect_told, frame, seen};
use crate::wanted::expect;
use imap_dialect::Dialect;
use imap_lex::Octets;
use imap_print::{Children, EnabledCapabilities, ListAttributes, Response, StatusValue};
use imap_query::StatusItem;
use imap_rev1::Utf7Rev1;
use imap_rights::Rights;
use imap_syntax::Items;
use std::alloc::{AllocError, Global};
use std::process::Abort;

/// Commands, and what the server sees in their place.
const COMMANDS: &[(&[u8], &[u8])] = &[
    (b"T SELECT &AOk-\r\n", b"T SELECT \"\xc3\xa9\"\r\n"),
    (b"T EXAMINE \"&AOk-\"\r\n", b"T EXAMINE \"\xc3\xa9\"\r\n"),
    (
        b"T SELECT {5}\r\n&AOk- (CONDSTORE)\r\n",
        b"T SELECT \"\xc3\xa9\" (CONDSTORE)\r\n",
    ),
    (b"T CREATE \"x &AOk-\"\r\n", b"T CREATE \"x \xc3\xa9\"\r\n"),
    (b"T DELETE a&-b\r\n", b"T DELETE a&b\r\n"),
    (
        b"T RENAME \"&AOk-\" &U,BTFw-\r\n",
        b"T RENAME \"\xc3\xa9\" \"\xe5\x8f\xb0\xe5\x8c\x97\"\r\n",
    ),
    (b"T RENAME a &AOk-\r\n", b"T RENAME a \"\xc3\xa9\"\r\n"),
    (b"T SUBSCRIBE &AOk-\r\n", b"T SUBSCRIBE \"\xc3\xa9\"\r\n"),
    (
        b"T UNSUBSCRIBE &AOk-\r\n",
        b"T UNSUBSCRIBE \"\xc3\xa9\"\r\n",
    ),
    (
        b"T STATUS &AOk- (RECENT UNSEEN)\r\n",
        b"T STATUS \"\xc3\xa9\" (MESSAGES UNSEEN)\r\n",
    ),
    (b"T LIST \"\" &AOk-*\r\n", b"T LIST \"\" \"\xc3\xa9*\"\r\n"),
    (
        b"T LIST &AOk-/ (a \"%&AOk-\") RETURN (STATUS (RECENT))\r\n",
        b"T LIST \"\xc3\xa9/\" (a \"%\xc3\xa9\") RETURN (STATUS (MESSAGES))\r\n",
    ),
    (
        b"T LSUB \"\" &AOk-%\r\n",
        b"T LIST (SUBSCRIBED) \"\" \"\xc3\xa9%\"\r\n",
    ),
    (
        b"T APPEND &AOk- (\\Seen) {5}\r\n&AOk-\r\n",
        b"T APPEND \"\xc3\xa9\" (\\SEEN) {5}\r\n&AOk-\r\n",
    ),
    (b"T COPY 1 &AOk-\r\n", b"T COPY 1 \"\xc3\xa9\"\r\n"),
    (
        b"T UID MOVE 1:2 &AOk-\r\n",
        b"T UID MOVE 1:2 \"\xc3\xa9\"\r\n",
    ),
    (
        b"T SETACL &AOk- a&-b lr\r\n",
        b"T SETACL \"\xc3\xa9\" a&-b lr\r\n",
    ),
    (
        b"T DELETEACL &AOk- a&-b\r\n",
        b"T DELETEACL \"\xc3\xa9\" a&-b\r\n",
    ),
    (b"T GETACL &AOk-\r\n", b"T GETACL \"\xc3\xa9\"\r\n"),
    (
        b"T LISTRIGHTS &AOk- a&-b\r\n",
        b"T LISTRIGHTS \"\xc3\xa9\" a&-b\r\n",
    ),
    (b"T MYRIGHTS &AOk-\r\n", b"T MYRIGHTS \"\xc3\xa9\"\r\n"),
    (b"T SELECT &AAo-\r\n", b"T SELECT {1}\r\n\n\r\n"),
    (b"T SELECT &AAA-\r\n", b"T SELECT &AAA-\r\n"),
    (b"T SELECT &\r\n", b"T SELECT &\r\n"),
    (b"T SELECT &AGE-\r\n", b"T SELECT &AGE-\r\n"),
    (b"T SELECT \"\xc3\xa9\"\r\n", b"T SELECT \"\xc3\xa9\"\r\n"),
    (b"T RENAME & \"a\"\r\n", b"T RENAME & \"a\"\r\n"),
    (b"T SEARCH TEXT &AOk-\r\n", b"T SEARCH TEXT &AOk-\r\n"),
    (b"T GETACL &AOk- x\r\n", b"T GETACL &AOk- x\r\n"),
    (b"T CHECK\r\n", b"T NOOP\r\n"),
];

const NOTHING: EnabledCapabilities = EnabledCapabilities {
    condstore: false,
    imap4rev2: false,
    qresync: false,
};

const SOME: EnabledCapabilities = EnabledCapabilities {
    condstore: true,
    imap4rev2: false,
    qresync: true,
};

const REV2: EnabledCapabilities = EnabledCapabilities {
    condstore: false,
    imap4rev2: true,
    qresync: false,
};

/// Commands, what their reply enables, the line in which it is told, and the line in which a name is told then.
const ENABLES: &[(&[u8], EnabledCapabilities, &[u8], &[u8])] = &[
    (
        b"T ENABLE UTF8=ACCEPT\r\n",
        NOTHING,
        b"* ENABLED UTF8=ACCEPT\r\n",
        b"* MYRIGHTS \"\xc3\xa9\" lr\r\n",
    ),
    (
        b"T enable QRESYNC utf8=accept CONDSTORE\r\n",
        SOME,
        b"* ENABLED CONDSTORE QRESYNC UTF8=ACCEPT\r\n",
        b"* MYRIGHTS \"\xc3\xa9\" lr\r\n",
    ),
    (
        b"T ENABLE IMAP4rev2\r\n",
        REV2,
        b"* ENABLED IMAP4rev2\r\n",
        b"* MYRIGHTS \"\xc3\xa9\" lr\r\n",
    ),
    (
        b"T ENABLE QRESYNC\r\n",
        SOME,
        b"* ENABLED CONDSTORE QRESYNC\r\n",
        b"* MYRIGHTS &AOk- lr\r\n",
    ),
    (
        b"T ENABLE UTF8=ACCEPTS XUTF8=ACCEPT\r\n",
        NOTHING,
        b"* ENABLED\r\n",
        b"* MYRIGHTS &AOk- lr\r\n",
    ),
];

/// A session after a command and the reply to it.
fn session_after(
    alloc: Global,
    command: &[u8],
    replies: &[Response],
) -> Result<Utf7Rev1, AllocError> {
    let own = frame(alloc, command)?;
    let mut session = Utf7Rev1::new();
    session.advance(&own, replies);
    drop(own);
    Ok(session)
}

/// A reply with a name.
#[derive(Clone, Copy)]
enum Named {
    List,
    Status,
    Acl,
    MyRights,
    ListRights,
}

fn reply(alloc: Global, named: Named, name: &[u8]) -> Result<Response, AllocError> {
    let mailbox = Octets::from_slice(alloc, name)?;
    match named {
        Named::List => Ok(Response::List {
            attributes: ListAttributes {
                non_existent: false,
                children: Children::Omitted,
                subscribed: false,
            },
            mailbox,
        }),
        Named::Status => Ok(Response::Status {
            mailbox,
            items: Items::from_vec(Vec::from_slice(
                alloc,
                &[StatusValue {
                    item: StatusItem::Messages,
                    value: 1,
                }],
            )?),
        }),
        Named::Acl => Ok(Response::Acl {
            mailbox,
            entries: Items::from_vec(Vec::new(alloc)),
        }),
        Named::MyRights => Ok(Response::MyRights {
            mailbox,
            rights: Rights::LOOKUP | Rights::READ,
        }),
        Named::ListRights => Ok(Response::ListRights {
            mailbox,
            identifier: Octets::from_slice(alloc, b"\xc3\xa9")?,
            owner: false,
        }),
    }
}

/// Replies to a command, their names, and the lines in which they are told.
const REPLIES: &[(&[u8], Named, &[u8], &[u8])] = &[
    (
        b"T LIST \"\" *\r\n",
        Named::List,
        b"\xe5\x8f\xb0\xe5\x8c\x97",
        b"* LIST () \"/\" &U,BTFw-\r\n",
    ),
    (
        b"T LIST \"\" *\r\n",
        Named::List,
        b"R&D \xc3\xa9",
        b"* LIST () \"/\" \"R&-D &AOk-\"\r\n",
    ),
    (
        b"T LIST \"\" *\r\n",
        Named::List,
        b"INBOX",
        b"* LIST () \"/\" INBOX\r\n",
    ),
    (
        b"T LIST \"\" *\r\n",
        Named::List,
        b"\xff",
        b"* LIST () \"/\" \"\xff\"\r\n",
    ),
    (
        b"T LSUB \"\" *\r\n",
        Named::List,
        b"\xc3\xa9",
        b"* LSUB () \"/\" &AOk-\r\n",
    ),
    (
        b"T STATUS &AOk- (RECENT)\r\n",
        Named::Status,
        b"\xc3\xa9",
        b"* STATUS &AOk- (RECENT 0)\r\n",
    ),
    (
        b"T GETACL &AOk-\r\n",
        Named::Acl,
        b"\xc3\xa9",
        b"* ACL &AOk-\r\n",
    ),
    (
        b"T MYRIGHTS &AOk-\r\n",
        Named::MyRights,
        b"\xc3\xa9",
        b"* MYRIGHTS &AOk- lr\r\n",
    ),
    (
        b"T LISTRIGHTS &AOk- \"\xc3\xa9\"\r\n",
        Named::ListRights,
        b"\xc3\xa9",
        b"* LISTRIGHTS &AOk- \"\xc3\xa9\" \"\" l r s w i p k x t e a\r\n",
    ),
];

#[test]
fn names_are_read(rt: HostRuntime) {
    for &(command, wanted) in COMMANDS {
        expect(&rt, seen(rt.alloc(), &Utf7Rev1::new(), command), wanted);
    }
}

#[test]
fn names_are_told(rt: HostRuntime) {
    for &(command, named, name, wanted) in REPLIES {
        let reply = reply(rt.alloc(), named, name);
        expect_told(&rt, &Utf7Rev1::new(), command, reply, wanted);
    }
}

/// Asserts that a name is told in this line after a command and its reply.
fn expect_after(
    rt: &(impl Abort + AllocGlobal),
    command: &[u8],
    enabled: EnabledCapabilities,
    wanted: &[u8],
) {
    let replies = [Response::Enabled(enabled)];
    let session = session_after(rt.alloc(), command, &replies);
    drop(replies);
    match session {
        Ok(session) => {
            let reply = reply(rt.alloc(), Named::MyRights, b"\xc3\xa9");
            expect_told(rt, &session, b"T MYRIGHTS x\r\n", reply, wanted);
        }
        Err(error) => panic!(rt; "{error:?}"),
    }
}

#[test]
fn names_are_in_utf8_once_this_is_enabled(rt: HostRuntime) {
    for &(command, enabled, line, name) in ENABLES {
        let reply = Ok(Response::Enabled(enabled));
        expect_told(&rt, &Utf7Rev1::new(), command, reply, line);
        expect_after(&rt, command, enabled, name);
    }
}
