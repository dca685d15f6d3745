//! What rows of tests are made of. A test hands what it made to one of these functions, and has no `?`.

use crate::wanted::expect;
use imap_dialect::Dialect;
use imap_lex::{Frame, Octets};
use imap_print::{EnabledCapabilities, Pieces, Response};
use imap_rev1::Rev1;
use imap_syntax::Items;
use std::alloc::{AllocError, Global};
use std::process::Abort;

pub(crate) fn frame(alloc: Global, octets: &[u8]) -> Result<Frame, AllocError> {
    Ok(Frame::Whole(Octets::from_slice(alloc, octets)?))
}

/// A session that has enabled IMAP4rev2 or not.
pub(crate) fn session(rev2: bool) -> Rev1 {
    let mut state = Rev1::new();
    let enabled = EnabledCapabilities {
        condstore: true,
        imap4rev2: rev2,
        qresync: false,
    };
    let replies = [Response::Enabled(enabled)];
    state.advance(&Frame::Continue, &replies);
    drop(replies);
    state
}

/// What the server sees in place of a command.
pub(crate) fn seen<D: Dialect>(
    alloc: Global,
    session: &D,
    command: &[u8],
) -> Result<Vec<u8>, AllocError> {
    let own = frame(alloc, command)?;
    match session.rewrite(alloc, &own)? {
        Some(Frame::Whole(other)) => Vec::from_slice(alloc, other.as_slice()),
        Some(_) => Ok(Vec::new(alloc)),
        None => Vec::from_slice(alloc, command),
    }
}

fn joined(alloc: Global, pieces: &Items<Octets>) -> Result<Vec<u8>, AllocError> {
    let mut octets = Vec::new(alloc);
    for piece in pieces.as_slice() {
        octets.extend_from_slice(piece.as_slice())?;
    }
    Ok(octets)
}

fn told_by<D: Dialect>(
    alloc: Global,
    rule: &D::Rule,
    reply: &Response,
) -> Result<Vec<u8>, AllocError> {
    let mut out = Pieces::new(alloc);
    D::tell(rule, reply, &mut out)?;
    let pieces = out.into_pieces()?;
    joined(alloc, &pieces)
}

/// The octets in which a reply to a command is told.
fn told<D: Dialect>(
    alloc: Global,
    session: &D,
    command: &[u8],
    reply: &Response,
) -> Result<Vec<u8>, AllocError> {
    let own = frame(alloc, command)?;
    let rule = session.rule(alloc, Some(&own))?;
    let told = told_by::<D>(alloc, &rule, reply);
    drop(rule);
    told
}

/// Asserts that a reply, once it was made, is told in these octets.
pub(crate) fn expect_told<D: Dialect>(
    rt: &(impl Abort + AllocGlobal),
    session: &D,
    command: &[u8],
    reply: Result<Response, AllocError>,
    wanted: &[u8],
) {
    match reply {
        Ok(reply) => {
            let told = told(rt.alloc(), session, command, &reply);
            drop(reply);
            expect(rt, told, wanted);
        }
        Err(error) => panic!(rt; "{error:?}"),
    }
}
