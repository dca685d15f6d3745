//! Sessions that are told in IMAP4rev1.

use crate::connection::{Behaviour, OCTETS, Sink, Source, WHOLE};
use crate::serving::{IDLE_TICKS, Standing, new_hall, session};
use crate::wanted::expect;
use imap_limits::DEFAULT_LIMITS;
use imap_rev1::Utf7Rev1;
use imap_serve::{OpenGate, Watched, serve_in};
use std::alloc::AllocError;
use std::sync::Wait;

/// What a new host tells ann's session over this text.
fn told<W: Wait + AllocGlobal>(
    rt: &W,
    text: &[u8],
    behaviour: Behaviour,
) -> Result<Vec<u8>, AllocError> {
    let alloc = rt.alloc();
    let who = session(alloc, "ann")?;
    let mut hall = new_hall(alloc)?;
    let mut input = Watched::new(Source::new(text, behaviour));
    let mut output = Watched::new(Sink::new(alloc, behaviour));
    let ended = serve_in(
        rt,
        alloc,
        &mut hall,
        &who,
        &Standing,
        &OpenGate,
        &mut Utf7Rev1::new(),
        DEFAULT_LIMITS.max_octets,
        IDLE_TICKS,
        &mut input,
        &mut output,
    );
    drop(hall);
    drop(who);
    let Sink { taken, .. } = output.into_inner();
    if ended.is_ok() {
        Ok(taken)
    } else {
        Err(AllocError)
    }
}

/// What a client sends, and all that it is told (RFC 3501, sections 6.1.1, 6.3.1, 6.3.9, 6.3.10, 6.4.1 and 6.4.4).
const SENT: &[u8] = b"a1 CAPABILITY\r\n\
a2 CHECK\r\n\
a3 APPEND INBOX (\\Seen) {1+}\r\nx\r\n\
a4 SELECT INBOX\r\n\
a5 SEARCH SEEN\r\n\
a6 uid search new\r\n\
a7 SEARCH RETURN (COUNT) ALL\r\n\
a8 LIST \"\" *\r\n\
a9 LSUB \"\" *\r\n\
b1 SUBSCRIBE INBOX\r\n\
b2 LSUB \"\" *\r\n\
b3 STATUS INBOX (MESSAGES RECENT UIDNEXT)\r\n\
b4 check x\r\n\
e1 CREATE &AOk-\r\n\
e2 STATUS &AOk- (MESSAGES)\r\n\
b5 ENABLE IMAP4rev2\r\n\
e3 LIST \"\" %\r\n\
b6 SEARCH SEEN\r\n\
b7 CHECK\r\n\
b8 SELECT INBOX\r\n\
b9 LOGOUT\r\n";

const TOLD: &[u8] =
    b"* PREAUTH [CAPABILITY IMAP4rev1 IMAP4rev2 ACL RIGHTS=texk UIDPLUS MOVE UNSELECT NAMESPACE \
ESEARCH LITERAL- CHILDREN LIST-EXTENDED LIST-STATUS CONDSTORE ENABLE IDLE QRESYNC] shared mailbox profile ready\r\n\
* CAPABILITY IMAP4rev1 IMAP4rev2 ACL RIGHTS=texk UIDPLUS MOVE UNSELECT NAMESPACE ESEARCH LITERAL- CHILDREN \
LIST-EXTENDED LIST-STATUS CONDSTORE ENABLE IDLE QRESYNC\r\n\
a1 OK done\r\n\
a2 OK done\r\n\
a3 OK [APPENDUID 1 1] done\r\n\
* FLAGS (\\Answered \\Deleted \\Draft \\Flagged \\Seen)\r\n\
* 1 EXISTS\r\n\
* 0 RECENT\r\n\
* LIST (\\HasNoChildren) \"/\" INBOX\r\n\
* OK [PERMANENTFLAGS (\\Answered \\Deleted \\Draft \\Flagged \\Seen \\*)] flags kept\r\n\
* OK [UIDVALIDITY 1] validity\r\n\
* OK [UIDNEXT 2] next\r\n\
* OK [HIGHESTMODSEQ 3] highest\r\n\
a4 OK [READ-WRITE] done\r\n\
* SEARCH 1\r\n\
a5 OK done\r\n\
* SEARCH\r\n\
a6 OK done\r\n\
* ESEARCH (TAG \"a7\") COUNT 1\r\n\
a7 OK done\r\n\
* LIST (\\HasNoChildren) \"/\" INBOX\r\n\
a8 OK done\r\n\
a9 OK done\r\n\
b1 OK done\r\n\
* LSUB () \"/\" INBOX\r\n\
b2 OK done\r\n\
* STATUS INBOX (MESSAGES 1 RECENT 0 UIDNEXT 2)\r\n\
b3 OK done\r\n\
b4 BAD malformed command\r\n\
e1 OK done\r\n\
* STATUS &AOk- (MESSAGES 0)\r\n\
e2 OK done\r\n\
* ENABLED IMAP4rev2\r\n\
b5 OK done\r\n\
* LIST (\\HasNoChildren) \"/\" INBOX\r\n\
* LIST (\\HasNoChildren) \"/\" \"\xc3\xa9\"\r\n\
e3 OK done\r\n\
* ESEARCH (TAG \"b6\") ALL 1\r\n\
b6 OK done\r\n\
b7 OK done\r\n\
* OK [CLOSED] closed\r\n\
* FLAGS (\\Answered \\Deleted \\Draft \\Flagged \\Seen)\r\n\
* 1 EXISTS\r\n\
* LIST (\\HasNoChildren) \"/\" INBOX\r\n\
* OK [PERMANENTFLAGS (\\Answered \\Deleted \\Draft \\Flagged \\Seen \\*)] flags kept\r\n\
* OK [UIDVALIDITY 1] validity\r\n\
* OK [UIDNEXT 2] next\r\n\
* OK [HIGHESTMODSEQ 3] highest\r\n\
b8 OK [READ-WRITE] done\r\n\
* BYE logging out\r\n\
b9 OK done\r\n";

/// FETCH by the labels of RFC822 (RFC 3501, sections 6.4.5 and 7.4.2).
const FETCHED: &[u8] = b"c1 APPEND INBOX {17+}\r\nSubject: a\r\n\r\nb\r\n\r\n\
c2 EXAMINE INBOX\r\n\
c3 FETCH 1 RFC822\r\n\
c4 SELECT INBOX\r\n\
c5 FETCH 1 RFC822.HEADER\r\n\
c6 FETCH 1 (FLAGS rfc822.text)\r\n\
c7 FETCH 1 (BODY[] RFC822 BODY[HEADER.FIELDS (Subject)] RFC822 UID)\r\n\
c8 ENABLE IMAP4rev2\r\n\
c9 UID FETCH 1 (RFC822.SIZE RFC822)\r\n\
d1 FETCH 1 BODY[TEXT]\r\n\
d2 FETCH 1 (BODYSTRUCTURE ENVELOPE)\r\n\
d3 LOGOUT\r\n";

const LABELLED: &[u8] =
    b"* PREAUTH [CAPABILITY IMAP4rev1 IMAP4rev2 ACL RIGHTS=texk UIDPLUS MOVE UNSELECT NAMESPACE \
ESEARCH LITERAL- CHILDREN LIST-EXTENDED LIST-STATUS CONDSTORE ENABLE IDLE QRESYNC] shared mailbox profile ready\r\n\
c1 OK [APPENDUID 1 1] done\r\n\
* FLAGS (\\Answered \\Deleted \\Draft \\Flagged \\Seen)\r\n\
* 1 EXISTS\r\n\
* 0 RECENT\r\n\
* LIST (\\HasNoChildren) \"/\" INBOX\r\n\
* OK [PERMANENTFLAGS ()] flags kept\r\n\
* OK [UIDVALIDITY 1] validity\r\n\
* OK [UIDNEXT 2] next\r\n\
* OK [HIGHESTMODSEQ 2] highest\r\n\
c2 OK [READ-ONLY] done\r\n\
* 1 FETCH (RFC822 {17}\r\nSubject: a\r\n\r\nb\r\n)\r\n\
c3 OK done\r\n\
* OK [CLOSED] closed\r\n\
* FLAGS (\\Answered \\Deleted \\Draft \\Flagged \\Seen)\r\n\
* 1 EXISTS\r\n\
* 0 RECENT\r\n\
* LIST (\\HasNoChildren) \"/\" INBOX\r\n\
* OK [PERMANENTFLAGS (\\Answered \\Deleted \\Draft \\Flagged \\Seen \\*)] flags kept\r\n\
* OK [UIDVALIDITY 1] validity\r\n\
* OK [UIDNEXT 2] next\r\n\
* OK [HIGHESTMODSEQ 2] highest\r\n\
c4 OK [READ-WRITE] done\r\n\
* 1 FETCH (RFC822.HEADER {14}\r\nSubject: a\r\n\r\n)\r\n\
c5 OK done\r\n\
* 1 FETCH (FLAGS (\\Seen) RFC822.TEXT {3}\r\nb\r\n)\r\n\
c6 OK done\r\n\
* 1 FETCH (UID 1 BODY[] {17}\r\nSubject: a\r\n\r\nb\r\n RFC822 {17}\r\nSubject: a\r\n\r\nb\r\n \
BODY[HEADER.FIELDS (Subject)] {14}\r\nSubject: a\r\n\r\n)\r\n\
c7 OK done\r\n\
* ENABLED IMAP4rev2\r\n\
c8 OK done\r\n\
* 1 FETCH (UID 1 RFC822.SIZE 17 RFC822 {17}\r\nSubject: a\r\n\r\nb\r\n)\r\n\
c9 OK done\r\n\
* 1 FETCH (BODY[TEXT] {3}\r\nb\r\n)\r\n\
d1 OK done\r\n\
* 1 FETCH (BODYSTRUCTURE (\"text\" \"plain\" (\"charset\" \"us-ascii\") NIL NIL \"7BIT\" 3 1 NIL NIL NIL NIL) \
ENVELOPE (NIL \"a\" NIL NIL NIL NIL NIL NIL NIL NIL))\r\n\
d2 OK done\r\n\
* BYE logging out\r\n\
d3 OK done\r\n";

#[test]
fn clients_of_rev1_are_told(rt: HostRuntime) {
    const ROWS: &[(&[u8], &[u8])] = &[(SENT, TOLD), (FETCHED, LABELLED)];
    for &(sent, wanted) in ROWS {
        expect(&rt, told(&rt, sent, WHOLE), wanted);
        expect(&rt, told(&rt, sent, OCTETS), wanted);
    }
}
