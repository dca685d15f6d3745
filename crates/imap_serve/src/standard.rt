//! A session in the server's own dialect.

ghost use Rattle.std.specs.Prelude.{◌≡◌, ◌≤◌, IfErr, IfOk};
ghost use Rattle.imap_serve.specs.declared.error.End.TheVariants.{Idle};
ghost use Rattle.imap_serve.specs.Served.{GivesUp, IsAllRead, IsCaused, IsLastRead, Serves, site};

use crate::error::{End, ServeError};
use crate::gate::Gate;
use crate::moments::Moments;
use crate::serving::serve_in;
use crate::watched::Watched;
use imap_dialect::Standard;
use imap_hall::{Room, SessionId};
use std::alloc::Global;
use std::io::{Read, Write};
use std::sync::Wait;

/// Serves a session over a connection: opens it, writes the greeting, does what the input asks for, and leaves.
///
/// A read that fails with `WouldBlock` or `TimedOut` brought nothing: an idling session is then told what changed
/// (RFC 2177). After `idle_turns` of these in a row the session is closed. The literals of a command may have
/// `max_octets` octets together.
///
/// After a failure a beginning of the replies was written; all of them if the reader failed.
pub fn serve<R: Room, I: Read, O: Write, C: Moments, G: Gate, W: Wait>(
    rt: &W,
    alloc: Global,
    room: &mut R,
    who: &SessionId,
    clock: &C,
    gate: &G,
    max_octets: u64,
    idle_turns: u64,
    input: &mut Watched<I>,
    output: &mut Watched<O>,
) -> Result<End, ServeError>
    ensures ended { IfOk result (λ end. Serves R.entries R.refuses max_octets end (site who.now R.keeps_all)
        (I.remaining input.old.inner) (I.remaining input.new.inner) room.old room.new
        (O.contents output.old.inner) (O.contents output.new.inner)) }
    ensures broke { IfErr result (λ e. GivesUp R.entries R.refuses max_octets e (site who.now R.keeps_all)
        (I.remaining input.old.inner) (I.remaining input.new.inner) room.old room.new
        (O.contents output.old.inner) (O.contents output.new.inner)) }
    ensures cause { IfErr result (λ e. IsCaused e input.new.log output.new.log) }
    ensures read { IfOk result (λ end. IsAllRead end (I.remaining input.new.inner)) }
    ensures last { IfOk result (λ end. IsLastRead end input.new.log.last) }
    ensures idle { IfOk result (λ end. end ≡ Idle → idle_turns ≤ input.new.quiet) }
{
    let mut dialect = Standard;
    match serve_in(
        rt,
        alloc,
        room,
        who,
        clock,
        gate,
        &mut dialect,
        max_octets,
        idle_turns,
        input,
        output,
    ) {
        Ok(end) => Ok(end),
        Err(error) => Err(error),
    }
}
