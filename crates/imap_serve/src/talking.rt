//! A session from its first read to its last.

ghost use Rattle.std.specs.Prelude.{◌≡◌, ◌≤◌, [], IfErr, IfOk};
ghost use Rattle.imap_serve.specs.declared.error.End.TheVariants.{Idle};
ghost use Rattle.imap_serve.specs.Served.{IsAllRead, IsCaused, IsLastRead, IsRefused};
ghost use Rattle.imap_serve.specs.Told.{BrokeOffAfter, EndedAfter, scene, site};

use crate::error::{End, ServeError};
use crate::exchange::{make, take_piece};
use crate::gate::Gate;
use crate::moments::Moments;
use crate::session::Session;
use crate::telling::{Flow, say};
use crate::watched::{Taken, Watched};
use imap_dialect::Dialect;
use imap_hall::{Act, Room};
use imap_lex::Framer;
use imap_print::{Farewell, Response};
use std::alloc::Global;
use std::io::{Read, Write};
use std::sync::Wait;

/// The most octets that one read takes.
const PIECE_OCTETS: usize = 4096;

/// Reads, and does what the octets ask for, until the input ends, the session is closed, or nothing came for too
/// long. `idles` says whether the session idles at the beginning.
pub(crate) fn talk<R: Room, D: Dialect, I: Read, O: Write, C: Moments, G: Gate, W: Wait>(
    rt: &W,
    session: &Session<'_, C, G>,
    room: &mut R,
    dialect: &mut D,
    max_octets: u64,
    idle_turns: u64,
    idles: bool,
    input: &mut Watched<I>,
    output: &mut Watched<O>,
) -> Result<End, ServeError>
    ensures ended { IfOk result (λ end. EndedAfter max_octets end
        (site session.now.who.now R.keeps_all D.telling) idles
        (I.remaining input.old.inner) (I.remaining input.new.inner)
        (scene (R.entries room.old) (O.contents output.old.inner) dialect.old)
        (scene (R.entries room.new) (O.contents output.new.inner) dialect.new) []) }
    ensures broke { IfErr result (λ e. BrokeOffAfter max_octets e
        (site session.now.who.now R.keeps_all D.telling) idles
        (I.remaining input.old.inner) (I.remaining input.new.inner)
        (scene (R.entries room.old) (O.contents output.old.inner) dialect.old)
        (scene (R.entries room.new) (O.contents output.new.inner) dialect.new) []) }
    ensures cause { IfErr result (λ e. IsCaused e input.new.log output.new.log) }
    ensures refused { IfErr result (λ e. IsRefused R.refuses e room.new) }
    ensures read { IfOk result (λ end. IsAllRead end (I.remaining input.new.inner)) }
    ensures last { IfOk result (λ end. IsLastRead end input.new.log.last) }
    ensures idle { IfOk result (λ end. end ≡ Idle → idle_turns ≤ input.new.quiet) }
{
    let mut framer = Framer::new(session.alloc, max_octets);
    let mut piece = [0u8; PIECE_OCTETS];
    let mut polled = room.change_count();
    let mut idles = idles;
    let mut calls = 0;
    for _ in rt.forever() {
        let flow = Flow {
            closed: false,
            idles,
            calls,
        };
        match input.read(&mut piece) {
            Ok(Taken::End) => return Ok(End::InputEnded),
            Ok(Taken::Octets(count)) => {
                match take_piece(
                    session,
                    room,
                    dialect,
                    &mut framer,
                    &piece[..count],
                    flow,
                    output,
                ) {
                    Ok(flow) => {
                        if flow.closed {
                            return Ok(End::Closed);
                        }
                        idles = flow.idles;
                        calls = flow.calls;
                    }
                    Err(error) => return Err(error),
                }
            }
            Ok(Taken::Occasion) => {
                if input.quiet() >= idle_turns {
                    match say(
                        session.alloc,
                        dialect,
                        None,
                        output,
                        &[Response::Bye(Farewell::IdleTooLong)],
                    ) {
                        Ok(()) => return Ok(End::Idle),
                        Err(error) => return Err(error),
                    }
                }
                // An idling session is told what changed (RFC 2177).
                if idles && room.change_count() != polled {
                    polled = room.change_count();
                    match make(session, room, dialect, None, Act::Poll, flow, output) {
                        Ok(flow) => {
                            if flow.closed {
                                return Ok(End::Closed);
                            }
                            idles = flow.idles;
                        }
                        Err(error) => return Err(error),
                    }
                }
            }
            Err(_) => return Err(ServeError::Read),
        }
    }
    unreachable!()
}
