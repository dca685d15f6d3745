//! Clients that log in: what they are answered, and when they enter.

ghost use Rattle.std.specs.Prelude.{◌<◌};

use crate::wanted::expect;
use imap_login::{Capabilities, Credentials, Login, Stage};
use std::alloc::{AllocError, Global};
use std::process::Abort;

/// Returns what a client is answered, `|`, and the octets that are left once it has entered or is to leave, after a `+`
/// or `-`. The octets come in pieces of this size.
fn answered(alloc: Global, sent: &[u8], size: usize) -> Result<Vec<u8>, AllocError>
    requires { 0 < size }
{
    let credentials = Credentials::new(alloc, b"ann", b"s3cret")?;
    let mut login = Login::new(alloc, Capabilities::standard());
    let text = answered_by(alloc, &mut login, &credentials, sent, size);
    drop(login);
    drop(credentials);
    text
}

fn answered_by(
    alloc: Global,
    login: &mut Login,
    credentials: &Credentials,
    sent: &[u8],
    size: usize,
) -> Result<Vec<u8>, AllocError>
    requires { 0 < size }
{
    let mut text = Vec::new(alloc);
    let mut left = Vec::new(alloc);
    for piece in sent.chunks(size) {
        let unread = login.take(alloc, credentials, piece, &mut text)?;
        left.extend_from_slice(unread)?;
    }
    text.extend_from_slice(shown(login.stage()))?;
    text.extend_from_slice(left.as_slice())?;
    Ok(text)
}

fn shown(stage: Stage) -> &'static [u8] {
    match stage {
        Stage::Waiting => b"|",
        Stage::Entered => b"|+",
        Stage::Closed => b"|-",
    }
}

/// Asserts that what is sent is answered so: whole, and octet by octet.
fn expect_answers(rt: &(impl Abort + AllocGlobal), rows: &[(&[u8], &[u8])]) {
    for &(sent, wanted) in rows {
        expect(rt, answered(rt.alloc(), sent, 8192), wanted);
        expect(rt, answered(rt.alloc(), sent, 1), wanted);
    }
}

#[test]
fn strangers_are_answered(rt: HostRuntime) {
    const ROWS: &[(&[u8], &[u8])] = &[
        (
            b"a CAPABILITY\r\nb NOOP\r\nc LOGOUT\r\nd NOOP\r\n",
            b"* CAPABILITY IMAP4rev2 ACL RIGHTS=texk CONDSTORE ENABLE IDLE QRESYNC AUTH=PLAIN SASL-IR\r\n\
            a OK done\r\nb OK done\r\n* BYE logging out\r\nc OK done\r\n|-d NOOP\r\n",
        ),
        (
            b"a SELECT INBOX\r\nb STARTTLS\r\nc IDLE\r\nDONE\r\n d\r\ne LOGIN ann\r\nf FROB\r\n",
            b"a BAD not in this state\r\nb BAD not in this state\r\nc BAD not in this state\r\n\
            DONE BAD not in this state\r\n* BAD not in this state\r\ne BAD not in this state\r\n\
            f BAD not in this state\r\n|",
        ),
        (
            b"a APPEND INBOX {5}\r\nhello\r\n",
            b"+ ready\r\na BAD not in this state\r\n|",
        ),
        (b"a NOOP {9000}\r\n", b"* BYE limit reached\r\n|-"),
        (b"a NOOP {5000+}\r\n", b"* BYE limit reached\r\n|-"),
    ];
    expect_answers(&rt, ROWS);
}

/// LOGIN (RFC 9051, section 6.2.3).
#[test]
fn clients_log_in(rt: HostRuntime) {
    const ROWS: &[(&[u8], &[u8])] = &[
        (
            b"a1 LOGIN ann s3cret\r\na2 NOOP\r\n",
            b"a1 OK [CAPABILITY IMAP4rev2 ACL RIGHTS=texk CONDSTORE ENABLE IDLE QRESYNC] done\r\n\
            |+a2 NOOP\r\n",
        ),
        (
            b"a login \"ann\" \"s3\\cret\"\r\nb login \"ann\" \"s3cret\"\r\n",
            b"a BAD not in this state\r\n\
            b OK [CAPABILITY IMAP4rev2 ACL RIGHTS=texk CONDSTORE ENABLE IDLE QRESYNC] done\r\n|+",
        ),
        (
            b"a LOGIN {3}\r\nann {6+}\r\ns3cret\r\n",
            b"+ ready\r\na OK [CAPABILITY IMAP4rev2 ACL RIGHTS=texk CONDSTORE ENABLE IDLE QRESYNC] \
            done\r\n|+",
        ),
        (
            b"a LOGIN ann s3cre\r\nb LOGIN ann s3crets\r\nc LOGIN ann \"\"\r\nd LOGIN ann s3cret\r\n",
            b"a NO [AUTHENTICATIONFAILED] name or secret is wrong\r\n\
            b NO [AUTHENTICATIONFAILED] name or secret is wrong\r\n\
            c NO [AUTHENTICATIONFAILED] name or secret is wrong\r\n* BYE limit reached\r\n\
            |-d LOGIN ann s3cret\r\n",
        ),
        (
            b"a LOGIN Ann s3cret\r\nb LOGIN bob s3cret\r\nc NOOP\r\nd LOGIN ann s3cret\r\n",
            b"a NO [AUTHENTICATIONFAILED] name or secret is wrong\r\n\
            b NO [AUTHENTICATIONFAILED] name or secret is wrong\r\nc OK done\r\n\
            d OK [CAPABILITY IMAP4rev2 ACL RIGHTS=texk CONDSTORE ENABLE IDLE QRESYNC] done\r\n|+",
        ),
    ];
    expect_answers(&rt, ROWS);
}

/// AUTHENTICATE PLAIN (RFC 9051, section 6.2.2; RFC 4616; RFC 4959).
#[test]
fn clients_authenticate(rt: HostRuntime) {
    const ROWS: &[(&[u8], &[u8])] = &[
        (
            b"a AUTHENTICATE PLAIN AGFubgBzM2NyZXQ=\r\n",
            b"a OK [CAPABILITY IMAP4rev2 ACL RIGHTS=texk CONDSTORE ENABLE IDLE QRESYNC] done\r\n|+",
        ),
        (
            b"a authenticate plain\r\nYW5uAGFubgBzM2NyZXQ=\r\nb NOOP\r\n",
            b"+ \r\na OK [CAPABILITY IMAP4rev2 ACL RIGHTS=texk CONDSTORE ENABLE IDLE QRESYNC] done\r\n\
            |+b NOOP\r\n",
        ),
        (
            b"a AUTHENTICATE PLAIN\r\n*\r\nb AUTHENTICATE PLAIN AGFubgBzM2NyZXQ\r\n\
            c AUTHENTICATE PLAIN =\r\n",
            b"+ \r\na BAD malformed command\r\nb BAD malformed command\r\n\
            c NO [AUTHENTICATIONFAILED] name or secret is wrong\r\n|",
        ),
        (
            b"a AUTHENTICATE CRAM-MD5\r\nb AUTHENTICATE\r\nc AUTHENTICATE PLAIN\r\nb NOOP\r\nd NOOP\r\n",
            b"a NO [CANNOT] not possible\r\nb BAD not in this state\r\n+ \r\nc BAD malformed command\r\n\
            d OK done\r\n|",
        ),
        (
            b"a AUTHENTICATE PLAIN cm9vdABhbm4AczNjcmV0\r\nb AUTHENTICATE PLAIN AGFubgBzM2NyZQ==\r\n\
            c AUTHENTICATE PLAIN AGFubgBzM2NyZXQA\r\n",
            b"a NO [AUTHENTICATIONFAILED] name or secret is wrong\r\n\
            b NO [AUTHENTICATIONFAILED] name or secret is wrong\r\n\
            c NO [AUTHENTICATIONFAILED] name or secret is wrong\r\n* BYE limit reached\r\n|-",
        ),
    ];
    expect_answers(&rt, ROWS);
}

/// Returns what a line with `count` octets before its CRLF is answered.
fn long_line(alloc: Global, count: usize) -> Result<Vec<u8>, AllocError> {
    let mut line = Vec::new(alloc);
    line.extend_from_slice(b"a NOOP ")?;
    line.resize(count, b'x')?;
    line.extend_from_slice(b"\r\n")?;
    answered(alloc, line.as_slice(), 1024)
}

#[test]
fn a_line_has_a_bound(rt: HostRuntime) {
    let longest = long_line(rt.alloc(), 8190);
    expect(&rt, longest, b"a BAD not in this state\r\n|");
    expect(
        &rt,
        long_line(rt.alloc(), 8191),
        b"* BYE limit reached\r\n|-",
    );
}
