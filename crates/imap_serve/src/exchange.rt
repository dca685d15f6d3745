//! Steps for the frames of a session, and their replies.

ghost use Rattle.std.specs.Prelude.{◌≡◌, [], ◌∷◌, false, map, true, IfErr, IfOk, OnErr, OnOk, option_copied};
ghost use Rattle.std.specs.Prelude.{Some};
ghost use Rattle.imap_lex.specs.Framing.{run};
ghost use Rattle.imap_lex.specs.declared.frame.Frame.TheVariants.{Whole};
ghost use Rattle.imap_hall.specs.Act.TheVariants.{Do};
ghost use Rattle.imap_hall.specs.Frames.{act_of_command, rejected};
ghost use Rattle.imap_serve.specs.Asked.{ask_of};
ghost use Rattle.imap_serve.specs.Events.{asks_of_act, is_poll};
ghost use Rattle.imap_serve.specs.Reading.{unasked};
ghost use Rattle.imap_serve.specs.Served.{IsCaused, IsRefused};
ghost use Rattle.imap_serve.specs.Told.{Breaks, GoesOrCloses, scene, site};
ghost use Rattle.imap_serve.specs.Turns.{Fits, cues_by, frame as cue};

use crate::error::ServeError;
use crate::gate::{Gate, wait_for};
use crate::moments::Moments;
use crate::session::Session;
use crate::telling::{Flow, reply, tell};
use crate::watched::Watched;
use imap_dialect::Dialect;
use imap_hall::{Act, HallError, Moment, Room, SessionId, Step};
use imap_lex::{Frame, Framer, LexError, Octets, Tag};
use imap_print::{Farewell, Response};
use imap_values::{TryCopy, beside};
use std::alloc::{AllocError, Global};
use std::io::Write;

/// Makes a step, and writes its replies. A poll asks that the session idles.
fn answer<R: Room, D: Dialect, O: Write>(
    alloc: Global,
    room: &mut R,
    dialect: &mut D,
    by: Option<&Frame>,
    step: &Step,
    flow: Flow,
    output: &mut Watched<O>,
) -> Result<Flow, ServeError>
    requires fits { Fits D.telling dialect.old (option_copied by) (asks_of_act step.now.act) }
    requires polls { is_poll step.now.act ≡ true → flow.idles ≡ true }
    ensures ok { IfOk result (λ next. GoesOrCloses next.closed (site step.now.who R.keeps_all D.telling)
        flow.idles next.idles
        (scene (R.entries room.old) (O.contents output.old.inner) dialect.old)
        (scene (R.entries room.new) (O.contents output.new.inner) dialect.new)
        (cues_by (option_copied by.entry) (asks_of_act step.now.act))) }
    ensures err { OnErr result (Breaks (site step.now.who R.keeps_all D.telling) flow.idles
        (scene (R.entries room.old) (O.contents output.old.inner) dialect.old)
        (scene (R.entries room.new) (O.contents output.new.inner) dialect.new)
        (cues_by (option_copied by.entry) (asks_of_act step.now.act))) }
    ensures cause { IfErr result (λ e. IsCaused e unasked output.new.log) }
    ensures refused { IfErr result (λ e. IsRefused R.refuses e room.new) }
{
    match room.step(alloc, step) {
        Ok(receipt) => match tell(alloc, dialect, by, &receipt, flow.made(&step.act), output) {
            Ok(flow) => Ok(flow),
            Err(error) => Err(error),
        },
        Err(HallError::Memory) => Err(ServeError::Memory),
        Err(HallError::Exhausted) => Err(ServeError::Exhausted),
    }
}

/// Makes an act of the session, and writes the replies to the frame, or to nothing. A poll asks that the session
/// idles.
pub(crate) fn make<R: Room, D: Dialect, O: Write, C: Moments, G: Gate>(
    session: &Session<'_, C, G>,
    room: &mut R,
    dialect: &mut D,
    by: Option<&Frame>,
    act: Act,
    flow: Flow,
    output: &mut Watched<O>,
) -> Result<Flow, ServeError>
    requires fits { Fits D.telling dialect.old (option_copied by) (asks_of_act act) }
    requires polls { is_poll act ≡ true → flow.idles ≡ true }
    ensures ok { IfOk result (λ next. GoesOrCloses next.closed
        (site session.now.who.now R.keeps_all D.telling) flow.idles next.idles
        (scene (R.entries room.old) (O.contents output.old.inner) dialect.old)
        (scene (R.entries room.new) (O.contents output.new.inner) dialect.new)
        (cues_by (option_copied by.entry) (asks_of_act act))) }
    ensures err { OnErr result (Breaks (site session.now.who.now R.keeps_all D.telling) flow.idles
        (scene (R.entries room.old) (O.contents output.old.inner) dialect.old)
        (scene (R.entries room.new) (O.contents output.new.inner) dialect.new)
        (cues_by (option_copied by.entry) (asks_of_act act))) }
    ensures cause { IfErr result (λ e. IsCaused e unasked output.new.log) }
    ensures refused { IfErr result (λ e. IsRefused R.refuses e room.new) }
{
    match step_of(session.who, session.clock.now(), act) {
        Ok(step) => {
            let answered = answer(session.alloc, room, dialect, by, &step, flow, output);
            drop(step);
            answered
        }
        Err(_) => Err(ServeError::Memory),
    }
}

/// A step of the session.
pub(crate) fn step_of(who: &SessionId, at: Moment, act: Act) -> Result<Step, AllocError>
    ensures who { IfOk result (λ step. step.who ≡ who.now) }
    ensures act { IfOk result (λ step. step.act ≡ act) }
{
    let (who, act) = beside(who.try_copy(), act)?;
    Ok(Step { who, at, act })
}

/// Makes a request in the room once the gate lets it through, and writes the replies to the client's frame.
fn request<R: Room, D: Dialect, O: Write, C: Moments, G: Gate>(
    session: &Session<'_, C, G>,
    room: &mut R,
    dialect: &mut D,
    by: &Frame,
    request: Act,
    flow: Flow,
    output: &mut Watched<O>,
) -> Result<Flow, ServeError>
    requires fits { Fits D.telling dialect.old (Some by.now) (asks_of_act request) }
    requires polls { is_poll request ≡ false }
    ensures ok { IfOk result (λ next. GoesOrCloses next.closed
        (site session.now.who.now R.keeps_all D.telling) flow.idles next.idles
        (scene (R.entries room.old) (O.contents output.old.inner) dialect.old)
        (scene (R.entries room.new) (O.contents output.new.inner) dialect.new) (cue by.now ∷ [])) }
    ensures err { OnErr result (Breaks (site session.now.who.now R.keeps_all D.telling) flow.idles
        (scene (R.entries room.old) (O.contents output.old.inner) dialect.old)
        (scene (R.entries room.new) (O.contents output.new.inner) dialect.new) (cue by.now ∷ [])) }
    ensures cause { IfErr result (λ e. IsCaused e unasked output.new.log) }
    ensures refused { IfErr result (λ e. IsRefused R.refuses e room.new) }
{
    let call = flow.calls.saturating_add(1);
    let _asked = wait_for(session.gate, session.who, call);
    let flow = Flow {
        closed: false,
        idles: flow.idles,
        calls: call,
    };
    match make(session, room, dialect, Some(by), request, flow, output) {
        Ok(flow) => {
            session.gate.answered(session.who, call);
            Ok(flow)
        }
        Err(error) => Err(error),
    }
}

/// Returns the act of a command that came whole.
fn act_of_command(alloc: Global, octets: &Octets) -> Result<Act, AllocError>
    ensures act { IfOk result (λ act. act ≡ act_of_command octets.now) }
    ensures asks { IfOk result (λ act. asks_of_act act ≡ ask_of (Whole octets.now) ∷ []) }
    ensures polls { IfOk result (λ act. is_poll act ≡ false) }
{
    Ok(Act::of_command(alloc, octets)?)
}

/// Returns the act of a command of which a literal was refused before it came.
fn act_of_rejected(alloc: Global, tag: &Option<Tag>) -> Result<Act, AllocError>
    ensures { IfOk result (λ act. act ≡ Do (rejected tag.now)) }
{
    Ok(Act::of_rejected(tag.try_copy(alloc)?))
}

/// Does what a frame asks for, which the dialect made of the client's, and writes the replies to the client's.
fn take_rewritten<R: Room, D: Dialect, O: Write, C: Moments, G: Gate>(
    session: &Session<'_, C, G>,
    room: &mut R,
    dialect: &mut D,
    by: &Frame,
    frame: &Frame,
    flow: Flow,
    output: &mut Watched<O>,
) -> Result<Flow, ServeError>
    requires { frame.now ≡ D.telling.rewritten dialect.old by.now }
    ensures ok { IfOk result (λ next. GoesOrCloses next.closed
        (site session.now.who.now R.keeps_all D.telling) flow.idles next.idles
        (scene (R.entries room.old) (O.contents output.old.inner) dialect.old)
        (scene (R.entries room.new) (O.contents output.new.inner) dialect.new) (cue by.now ∷ [])) }
    ensures err { OnErr result (Breaks (site session.now.who.now R.keeps_all D.telling) flow.idles
        (scene (R.entries room.old) (O.contents output.old.inner) dialect.old)
        (scene (R.entries room.new) (O.contents output.new.inner) dialect.new) (cue by.now ∷ [])) }
    ensures cause { IfErr result (λ e. IsCaused e unasked output.new.log) }
    ensures refused { IfErr result (λ e. IsRefused R.refuses e room.new) }
{
    let alloc = session.alloc;
    match frame {
        Frame::Whole(octets) => match act_of_command(alloc, octets) {
            Ok(act) => request(session, room, dialect, by, act, flow, output),
            Err(_) => Err(ServeError::Memory),
        },
        Frame::Reject(tag) => match act_of_rejected(alloc, tag) {
            Ok(act) => request(session, room, dialect, by, act, flow, output),
            Err(_) => Err(ServeError::Memory),
        },
        Frame::Continue => match reply(alloc, dialect, Some(by), output, &[Response::Ready]) {
            Ok(()) => Ok(Flow {
                closed: false,
                idles: flow.idles,
                calls: flow.calls,
            }),
            Err(error) => Err(error),
        },
        Frame::Hangup => {
            match reply(
                alloc,
                dialect,
                Some(by),
                output,
                &[Response::Bye(Farewell::LimitReached)],
            ) {
                Ok(()) => Ok(Flow {
                    closed: true,
                    idles: flow.idles,
                    calls: flow.calls,
                }),
                Err(error) => Err(error),
            }
        }
    }
}

/// Does what a frame asks for, as the dialect rewrites it.
fn take_frame<R: Room, D: Dialect, O: Write, C: Moments, G: Gate>(
    session: &Session<'_, C, G>,
    room: &mut R,
    dialect: &mut D,
    frame: &Frame,
    flow: Flow,
    output: &mut Watched<O>,
) -> Result<Flow, ServeError>
    ensures ok { IfOk result (λ next. GoesOrCloses next.closed
        (site session.now.who.now R.keeps_all D.telling) flow.idles next.idles
        (scene (R.entries room.old) (O.contents output.old.inner) dialect.old)
        (scene (R.entries room.new) (O.contents output.new.inner) dialect.new) (cue frame.now ∷ [])) }
    ensures err { OnErr result (Breaks (site session.now.who.now R.keeps_all D.telling) flow.idles
        (scene (R.entries room.old) (O.contents output.old.inner) dialect.old)
        (scene (R.entries room.new) (O.contents output.new.inner) dialect.new) (cue frame.now ∷ [])) }
    ensures cause { IfErr result (λ e. IsCaused e unasked output.new.log) }
    ensures refused { IfErr result (λ e. IsRefused R.refuses e room.new) }
{
    match dialect.rewrite(session.alloc, frame) {
        Ok(Some(other)) => {
            let taken = take_rewritten(session, room, dialect, frame, &other, flow, output);
            drop(other);
            taken
        }
        Ok(None) => take_rewritten(session, room, dialect, frame, frame, flow, output),
        Err(_) => Err(ServeError::Memory),
    }
}

/// Does what frames ask for, until one closes the session.
fn take_frames<R: Room, D: Dialect, O: Write, C: Moments, G: Gate>(
    session: &Session<'_, C, G>,
    room: &mut R,
    dialect: &mut D,
    frames: &[Frame],
    flow: Flow,
    output: &mut Watched<O>,
) -> Result<Flow, ServeError>
    ensures ok { IfOk result (λ next. GoesOrCloses next.closed
        (site session.now.who.now R.keeps_all D.telling) flow.idles next.idles
        (scene (R.entries room.old) (O.contents output.old.inner) dialect.old)
        (scene (R.entries room.new) (O.contents output.new.inner) dialect.new) (map cue frames.now)) }
    ensures err { OnErr result (Breaks (site session.now.who.now R.keeps_all D.telling) flow.idles
        (scene (R.entries room.old) (O.contents output.old.inner) dialect.old)
        (scene (R.entries room.new) (O.contents output.new.inner) dialect.new) (map cue frames.now)) }
    ensures cause { IfErr result (λ e. IsCaused e unasked output.new.log) }
    ensures refused { IfErr result (λ e. IsRefused R.refuses e room.new) }
{
    let mut idles = flow.idles;
    let mut calls = flow.calls;
    for frame in frames {
        let flow = Flow {
            closed: false,
            idles,
            calls,
        };
        match take_frame(session, room, dialect, frame, flow, output) {
            Ok(flow) => {
                if flow.closed {
                    return Ok(flow);
                }
                idles = flow.idles;
                calls = flow.calls;
            }
            Err(error) => return Err(error),
        }
    }
    Ok(Flow {
        closed: false,
        idles,
        calls,
    })
}

/// Does what `piece` asks for, which follows the octets that the framer holds.
pub(crate) fn take_piece<R: Room, D: Dialect, O: Write, C: Moments, G: Gate>(
    session: &Session<'_, C, G>,
    room: &mut R,
    dialect: &mut D,
    framer: &mut Framer,
    piece: &[u8],
    flow: Flow,
    output: &mut Watched<O>,
) -> Result<Flow, ServeError>
    ensures ok { IfOk result (λ next. GoesOrCloses next.closed
        (site session.now.who.now R.keeps_all D.telling) flow.idles next.idles
        (scene (R.entries room.old) (O.contents output.old.inner) dialect.old)
        (scene (R.entries room.new) (O.contents output.new.inner) dialect.new)
        (map cue (run framer.old piece.now).frames)) }
    ensures next { OnOk result (framer.new ≡ (run framer.old piece.now).next) }
    ensures err { OnErr result (Breaks (site session.now.who.now R.keeps_all D.telling) flow.idles
        (scene (R.entries room.old) (O.contents output.old.inner) dialect.old)
        (scene (R.entries room.new) (O.contents output.new.inner) dialect.new)
        (map cue (run framer.old piece.now).frames)) }
    ensures cause { IfErr result (λ e. IsCaused e unasked output.new.log) }
    ensures refused { IfErr result (λ e. IsRefused R.refuses e room.new) }
{
    match framer.feed(session.alloc, piece) {
        Ok(frames) => take_frames(session, room, dialect, frames.as_slice(), flow, output),
        Err(LexError::Memory) => Err(ServeError::Memory),
        // After a hangup the stream has no frames.
        Err(LexError::Closed) => Ok(Flow {
            closed: false,
            idles: flow.idles,
            calls: flow.calls,
        }),
    }
}
