//! Replies are told in a dialect and written.

ghost use Rattle.std.specs.Prelude.{◌≡◌, ◌&&◌, ◌||◌, ◌<◌, ◌≤◌, flat_map, length, take, option_copied};
ghost use Rattle.std.specs.Prelude.{IfErr, IfOk, OnErr, OnOk};
ghost use Rattle.std.specs.Io.KnownBytes.{Appends};
ghost use Rattle.std.specs.List.{concat};
ghost use Rattle.imap_print.specs.Pieces.{octets_of};
ghost use Rattle.imap_dialect.specs.Telling.{after, retold};
ghost use Rattle.imap_serve.specs.Events.{begin_idle, close, is_bye, is_idling, is_poll};
ghost use Rattle.imap_serve.specs.Reading.{AppendsPart, HasNotWritten};
ghost use Rattle.imap_serve.specs.Served.{IsCausedWriting};

use crate::error::ServeError;
use crate::watched::{Failed, Watched};
use imap_dialect::Dialect;
use imap_hall::{Act, Receipt, reply_octets};
use imap_lex::{Frame, Octets};
use imap_print::{Pieces, Response};
use imap_syntax::Items;
use std::alloc::{AllocError, Global};
use std::io::Write;

/// Replies are told and written some at a time, as many as take about this much memory together.
const OCTETS_AT_ONCE: u64 = 32_768;

/// The state of a session.
#[derive(Clone, Copy)]
pub(crate) struct Flow {
    /// Whether a BYE closed it.
    pub(crate) closed: bool,
    /// Whether it idles (RFC 2177).
    pub(crate) idles: bool,
    /// How many requests were handed to the room.
    pub(crate) calls: u64,
}

impl Flow {
    /// The state after an act, without its replies. An IDLE lasts until the next request.
    pub(crate) fn made(self, act: &Act) -> Flow
        ensures { result.idles ≡ is_poll act.now && self.idles }
    {
        Flow {
            closed: false,
            idles: matches!(act, Act::Poll) && self.idles,
            calls: self.calls,
        }
    }
}

/// Tells replies to a frame, or to nothing, and writes them.
pub(crate) fn say<D: Dialect, O: Write>(
    alloc: Global,
    dialect: &D,
    by: Option<&Frame>,
    output: &mut Watched<O>,
    replies: &[Response],
) -> Result<(), ServeError>
    ensures ok { OnOk result (Appends (O.contents output.old.inner) (O.contents output.new.inner)
        (retold D.telling dialect.now (option_copied by.entry) replies.now)) }
    ensures err { OnErr result (AppendsPart (O.contents output.old.inner) (O.contents output.new.inner)
        (retold D.telling dialect.now (option_copied by.entry) replies.now)) }
    ensures cause { IfErr result (λ e. IsCausedWriting e output.new.log) }
{
    match dialect.rule(alloc, by) {
        Ok(rule) => match say_by::<D, O>(alloc, &rule, output, replies) {
            Ok(()) => Ok(()),
            Err(error) => Err(error),
        },
        Err(_) => Err(ServeError::Memory),
    }
}

/// Tells replies by a rule and writes them, a piece after the other. After a write that failed nothing more is
/// told.
fn say_by<D: Dialect, O: Write>(
    alloc: Global,
    rule: &D::Rule,
    output: &mut Watched<O>,
    replies: &[Response],
) -> Result<(), ServeError>
    ensures ok { OnOk result (Appends (O.contents output.old.inner) (O.contents output.new.inner)
        (flat_map (D.octets rule.now) replies.now)) }
    ensures err { OnErr result (AppendsPart (O.contents output.old.inner) (O.contents output.new.inner)
        (flat_map (D.octets rule.now) replies.now)) }
    ensures cause { IfErr result (λ e. IsCausedWriting e output.new.log) }
{
    let mut done = 0;
    while done < replies.len() {
        match say_first::<D, O>(alloc, rule, output, &replies[done..]) {
            Ok(count) => done += count,
            Err(error) => return Err(error),
        }
    }
    Ok(())
}

/// Tells and writes the first of the replies, and returns how many.
fn say_first<D: Dialect, O: Write>(
    alloc: Global,
    rule: &D::Rule,
    output: &mut Watched<O>,
    replies: &[Response],
) -> Result<usize, ServeError>
    requires { 0 < length replies.now }
    ensures ok { IfOk result (λ n.
        Appends (O.contents output.old.inner) (O.contents output.new.inner)
        (flat_map (D.octets rule.now) (take n replies.now))
        × (0 < n) × (n ≤ length replies.now)) }
    ensures err { OnErr result (AppendsPart (O.contents output.old.inner) (O.contents output.new.inner)
        (flat_map (D.octets rule.now) replies.now)) }
    ensures cause { IfErr result (λ e. IsCausedWriting e output.new.log) }
{
    let count = count_at_once(replies);
    match tell_pieces::<D>(alloc, rule, &replies[..count]) {
        Ok(pieces) => match write_pieces(output, pieces.as_slice()) {
            Ok(()) => Ok(count),
            Err(_) => Err(ServeError::Write),
        },
        Err(_) => Err(ServeError::Memory),
    }
}

/// The octets of the replies by a rule, in pieces.
fn tell_pieces<D: Dialect>(
    alloc: Global,
    rule: &D::Rule,
    replies: &[Response],
) -> Result<Items<Octets>, AllocError>
    ensures { IfOk result (λ pieces. concat pieces ≡ flat_map (D.octets rule.now) replies.now) }
{
    tell_all::<D>(alloc, rule, replies)?.into_pieces()
}

fn tell_all<D: Dialect>(
    alloc: Global,
    rule: &D::Rule,
    replies: &[Response],
) -> Result<Pieces, AllocError>
    ensures { IfOk result (λ out. octets_of out ≡ flat_map (D.octets rule.now) replies.now) }
{
    let mut out = Pieces::new(alloc);
    for reply in replies {
        D::tell(rule, reply, &mut out)?;
    }
    Ok(out)
}

/// Writes the pieces one after another. After a write that failed nothing more is written.
fn write_pieces<O: Write>(output: &mut Watched<O>, pieces: &[Octets]) -> Result<(), Failed>
    ensures ok { OnOk result
        (Appends (O.contents output.old.inner) (O.contents output.new.inner) (concat pieces.now)) }
    ensures err { OnErr result
        (AppendsPart (O.contents output.old.inner) (O.contents output.new.inner) (concat pieces.now)) }
    ensures fault { OnErr result (HasNotWritten output.new.log) }
{
    for piece in pieces {
        output.write_whole(piece.as_slice())?;
    }
    Ok(())
}

/// Returns how many of the replies are told at once: as many as take [`OCTETS_AT_ONCE`] together.
fn count_at_once(replies: &[Response]) -> usize
    requires { 0 < length replies.now }
    ensures { (0 < result) × (result ≤ length replies.now) }
{
    let mut octets: u64 = 0;
    let mut count = 0;
    for reply in replies {
        octets = octets.saturating_add(reply_octets(reply));
        count += 1;
        if octets >= OCTETS_AT_ONCE {
            return count;
        }
    }
    count
}

/// Tells replies to a frame, or to nothing, and writes them. Then the dialect goes on after them.
pub(crate) fn reply<D: Dialect, O: Write>(
    alloc: Global,
    dialect: &mut D,
    by: Option<&Frame>,
    output: &mut Watched<O>,
    replies: &[Response],
) -> Result<(), ServeError>
    ensures ok { OnOk result (Appends (O.contents output.old.inner) (O.contents output.new.inner)
        (retold D.telling dialect.old (option_copied by.entry) replies.now)) }
    ensures moved { OnOk result
        (dialect.new ≡ after D.telling dialect.old (option_copied by.entry) replies.now) }
    ensures err { OnErr result (AppendsPart (O.contents output.old.inner) (O.contents output.new.inner)
        (retold D.telling dialect.old (option_copied by.entry) replies.now)) }
    ensures cause { IfErr result (λ e. IsCausedWriting e output.new.log) }
{
    match say(alloc, dialect, by, output, replies) {
        Ok(()) => {
            go_on(dialect, by, replies);
            Ok(())
        }
        Err(error) => Err(error),
    }
}

/// The dialect goes on after the replies to a frame, or to nothing.
fn go_on<D: Dialect>(dialect: &mut D, by: Option<&Frame>, replies: &[Response])
    ensures { dialect.new ≡ after D.telling dialect.old (option_copied by.entry) replies.now }
{
    match by {
        Some(frame) => dialect.advance(frame, replies),
        None => {}
    }
}

/// Tells the replies of a receipt, and the dialect goes on after them.
pub(crate) fn tell<D: Dialect, O: Write>(
    alloc: Global,
    dialect: &mut D,
    by: Option<&Frame>,
    receipt: &Receipt,
    flow: Flow,
    output: &mut Watched<O>,
) -> Result<Flow, ServeError>
    ensures ok { OnOk result (Appends (O.contents output.old.inner) (O.contents output.new.inner)
        (retold D.telling dialect.old (option_copied by.entry) receipt.now.replies)) }
    ensures closed { IfOk result (λ next. next.closed ≡ close receipt.now.replies) }
    ensures idles { IfOk result (λ next. next.idles ≡ flow.idles || begin_idle receipt.now.replies) }
    ensures moved { OnOk result
        (dialect.new ≡ after D.telling dialect.old (option_copied by.entry) receipt.now.replies) }
    ensures err { OnErr result (AppendsPart (O.contents output.old.inner) (O.contents output.new.inner)
        (retold D.telling dialect.old (option_copied by.entry) receipt.now.replies)) }
    ensures cause { IfErr result (λ e. IsCausedWriting e output.new.log) }
{
    let replies = receipt.replies.as_slice();
    let next = Flow {
        closed: close(replies),
        idles: flow.idles || begin_idle(replies),
        calls: flow.calls,
    };
    match reply(alloc, dialect, by, output, replies) {
        Ok(()) => Ok(next),
        Err(error) => Err(error),
    }
}

/// Whether the session is closed by these replies.
fn close(replies: &[Response]) -> bool
    ensures { result ≡ close replies.now }
{
    replies.iter().any(|reply| is_bye(reply))
}

/// Whether the reply is a BYE.
fn is_bye(reply: &Response) -> bool
    ensures { result ≡ is_bye reply.now }
{
    matches!(reply, Response::Bye(_))
}

/// Whether the session begins to idle by these replies.
fn begin_idle(replies: &[Response]) -> bool
    ensures { result ≡ begin_idle replies.now }
{
    replies.iter().any(|reply| is_idling(reply))
}

/// Whether the reply is the continuation request of IDLE.
fn is_idling(reply: &Response) -> bool
    ensures { result ≡ is_idling reply.now }
{
    matches!(reply, Response::Idling)
}
