//! A session from its Open to its Leave.
//!
//! The room is asked for an end after a failure too. So the memory for the step Leave is taken before anything
//! else. If the room refuses it, the next Open of the session begins it anew.

ghost use Rattle.std.specs.Prelude.{◌≡◌, ◌≤◌, false, IfErr, IfOk};
ghost use Rattle.imap_hall.specs.Act.TheVariants as specs;
ghost use Rattle.imap_serve.specs.declared.error.End.TheVariants.{Idle};
ghost use Rattle.imap_serve.specs.Served as plain;
ghost use Rattle.imap_serve.specs.Served.{IsAllRead, IsCaused, IsLastRead, IsRefused, Leaves};
ghost use Rattle.imap_serve.specs.Told.{BrokeOffAfter, EndedAfter, GivesUp, Serves};
ghost use Rattle.imap_serve.specs.Told.{scene, site, to_open};

use crate::error::{End, ServeError};
use crate::exchange::{make, step_of};
use crate::gate::Gate;
use crate::moments::Moments;
use crate::session::Session;
use crate::talking::talk;
use crate::telling::Flow;
use crate::watched::Watched;
use imap_dialect::Dialect;
use imap_hall::{Act, Room, SessionId, Step};
use std::alloc::Global;
use std::io::{Read, Write};
use std::sync::Wait;

/// Opens the session, and does what its octets ask for until it ends.
fn converse<R: Room, D: Dialect, I: Read, O: Write, C: Moments, G: Gate, W: Wait>(
    rt: &W,
    session: &Session<'_, C, G>,
    room: &mut R,
    dialect: &mut D,
    max_octets: u64,
    idle_turns: u64,
    input: &mut Watched<I>,
    output: &mut Watched<O>,
) -> Result<End, ServeError>
    ensures ended { IfOk result (λ end. EndedAfter max_octets end
        (site session.now.who.now R.keeps_all D.telling) false
        (I.remaining input.old.inner) (I.remaining input.new.inner)
        (scene (R.entries room.old) (O.contents output.old.inner) dialect.old)
        (scene (R.entries room.new) (O.contents output.new.inner) dialect.new) to_open) }
    ensures broke { IfErr result (λ e. BrokeOffAfter max_octets e
        (site session.now.who.now R.keeps_all D.telling) false
        (I.remaining input.old.inner) (I.remaining input.new.inner)
        (scene (R.entries room.old) (O.contents output.old.inner) dialect.old)
        (scene (R.entries room.new) (O.contents output.new.inner) dialect.new) to_open) }
    ensures cause { IfErr result (λ e. IsCaused e input.new.log output.new.log) }
    ensures refused { IfErr result (λ e. IsRefused R.refuses e room.new) }
    ensures read { IfOk result (λ end. IsAllRead end (I.remaining input.new.inner)) }
    ensures last { IfOk result (λ end. IsLastRead end input.new.log.last) }
    ensures idle { IfOk result (λ end. end ≡ Idle → idle_turns ≤ input.new.quiet) }
{
    let flow = Flow {
        closed: false,
        idles: false,
        calls: 0,
    };
    match make(session, room, dialect, None, Act::Open, flow, output) {
        Ok(flow) => {
            if flow.closed {
                return Ok(End::Closed);
            }
            match talk(
                rt, session, room, dialect, max_octets, idle_turns, flow.idles, input, output,
            ) {
                Ok(end) => Ok(end),
                Err(error) => Err(error),
            }
        }
        Err(error) => Err(error),
    }
}

/// Asks the room for the step Leave. If the room refuses that, the next Open begins the session anew.
fn leave<R: Room, C: Moments>(alloc: Global, room: &mut R, clock: &C, step: Step)
    requires { step.act ≡ specs.Leave }
    ensures { Leaves R.entries R.refuses (plain.site step.who R.keeps_all) room.old room.new }
{
    let mut step = step;
    step.at = clock.now();
    leave_by(alloc, room, &step);
    drop(step);
}

fn leave_by<R: Room>(alloc: Global, room: &mut R, step: &Step)
    requires { step.now.act ≡ specs.Leave }
    ensures { Leaves R.entries R.refuses (plain.site step.now.who R.keeps_all) room.old room.new }
{
    match room.step(alloc, step) {
        Ok(_) => {}
        Err(_) => {}
    }
}

/// Serves a session over a connection: opens it, writes the greeting, does what the input asks for, and leaves.
/// The frames are done as the dialect rewrites them, and the replies written as it tells them.
///
/// A read that fails with `WouldBlock` or `TimedOut` brought nothing: an idling session is then told what changed
/// (RFC 2177). After `idle_turns` of these in a row the session is closed. The literals of a command may have
/// `max_octets` octets together.
///
/// After a failure a beginning of the replies was written; all of them if the reader failed.
pub fn serve_in<R: Room, D: Dialect, I: Read, O: Write, C: Moments, G: Gate, W: Wait>(
    rt: &W,
    alloc: Global,
    room: &mut R,
    who: &SessionId,
    clock: &C,
    gate: &G,
    dialect: &mut D,
    max_octets: u64,
    idle_turns: u64,
    input: &mut Watched<I>,
    output: &mut Watched<O>,
) -> Result<End, ServeError>
    ensures ended { IfOk result (λ end. Serves R.entries R.refuses max_octets end
        (site who.now R.keeps_all D.telling)
        (I.remaining input.old.inner) (I.remaining input.new.inner) room.old room.new
        (O.contents output.old.inner) (O.contents output.new.inner) dialect.old dialect.new) }
    ensures broke { IfErr result (λ e. GivesUp R.entries R.refuses max_octets e
        (site who.now R.keeps_all D.telling)
        (I.remaining input.old.inner) (I.remaining input.new.inner) room.old room.new
        (O.contents output.old.inner) (O.contents output.new.inner) dialect.old dialect.new) }
    ensures cause { IfErr result (λ e. IsCaused e input.new.log output.new.log) }
    ensures read { IfOk result (λ end. IsAllRead end (I.remaining input.new.inner)) }
    ensures last { IfOk result (λ end. IsLastRead end input.new.log.last) }
    ensures idle { IfOk result (λ end. end ≡ Idle → idle_turns ≤ input.new.quiet) }
{
    let Ok(step) = step_of(who, clock.now(), Act::Leave) else {
        return Err(ServeError::Memory);
    };
    let session = Session {
        alloc,
        who,
        clock,
        gate,
    };
    match converse(
        rt, &session, room, dialect, max_octets, idle_turns, input, output,
    ) {
        Ok(end) => {
            leave(alloc, room, clock, step);
            Ok(end)
        }
        Err(error) => {
            leave(alloc, room, clock, step);
            Err(error)
        }
    }
}
