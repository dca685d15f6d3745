//! Reading a piece up to the end of a command.

ghost use Rattle.std.specs.Prelude.{◌≡◌, ℕ, ◌≤◌, List, length, IfOk};
ghost use Rattle.imap_lex.specs.Framing.{awaiting, after, run};
ghost use Rattle.imap_lex.specs.Places.{begun, IsPlace};
ghost use Rattle.imap_lex.specs.Found.{IsFound, found_outcome};

use crate::frame::{End, Frame};
use crate::place::{Place, Step, Turn};
use std::alloc::AllocError;

/// How a piece goes on with a command.
#[derive(Clone, Copy)]
pub(crate) enum Found {
    /// The whole piece is of the command, which does not end with it. The number is that of the octets
    /// of the last line that have come.
    Unended(Place, usize),
    /// The command ends after this many octets of the piece.
    Ended(usize, End),
    HungUp,
}

/// Returns how `piece` goes on with the command at `place`, if `line` has come of its last line.
///
/// Appends to `frames` the frames before the end of the command.
pub(crate) fn read_on(
    frames: &mut Vec<Frame>,
    place: Place,
    line: &[u8],
    piece: &[u8],
) -> Result<Found, AllocError>
    requires stands { IsPlace place }
    ensures stands { IfOk result (IsFound (length line.now) (length piece.now)) }
    ensures outcome { IfOk result (λ found. (limit : ℕ) (octets : List ℕ) →
        after frames.old.items (run (awaiting limit (begun octets line.now place)) piece.now)
        ≡ after frames.new.items (found_outcome limit octets line.now piece.now found)) }
{
    let mut place = place;
    let mut line = line;
    let mut at = 0;
    while at < piece.len() {
        let rest = &piece[at..];
        match place.step(line, rest) {
            Step::Unended(next) => return Ok(Found::Unended(next, line.len() + rest.len())),
            Step::Turn(len, turn) => {
                at += len;
                match turn {
                    Turn::On(next) => place = next,
                    Turn::Continue(next) => {
                        frames.push(Frame::Continue)?;
                        place = next;
                    }
                    Turn::Ended(end) => return Ok(Found::Ended(at, end)),
                    Turn::Hangup => {
                        frames.push(Frame::Hangup)?;
                        return Ok(Found::HungUp);
                    }
                }
            }
        }
        line = &[];
    }
    Ok(Found::Unended(place, line.len()))
}
