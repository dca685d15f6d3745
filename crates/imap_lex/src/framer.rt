//! A stream of commands that comes in pieces.

ghost use Rattle.std.specs.Prelude.{◌≡◌, ◌≤◌, ◌↔◌, [], ◌++◌, length, IfOk, OnOk, OnErr, IsErrOf};
ghost use Rattle.imap_lex.specs.Framing.{beginning, hung_up, run};
ghost use Rattle.imap_lex.specs.Found.{last_octets};

use crate::error::LexError;
use crate::frame::Frame;
use crate::place::Place;
use crate::reading::{Found, read_on};
use std::alloc::{AllocError, Global};
use std::marker::Model;

/// Cuts a stream into commands, in whatever pieces it comes.
///
/// In contracts a framer is `awaiting` the rest of a command, of which some octets have come, or `hung_up`.
#[derive(Drop)]
pub struct Framer {
    max_octets: u64,
    held: Vec<u8>,
    /// The number of the last octets of `held` that are of a line which goes on.
    line: usize,
    place: Place,
    closed: bool,
}

impl Model for Framer {
    ghost use Rattle.std.specs.Prelude.{◌≤◌, length};
    ghost use Rattle.imap_lex.specs.Framing.{Framing};
    ghost use Rattle.imap_lex.specs.Places.{IsPlace};
    ghost use Rattle.imap_lex.specs.Found.{framing};

    ghost Value = { Framing };

    ghost view = { λ f. framing f.closed f.max_octets f.held.items f.line f.place };

    ghost invariant = { λ f. IsPlace f.place × (f.line ≤ length f.held.items) };
}

impl Framer {
    /// Returns a framer at the beginning of a stream. The literals of a command may
    /// have `max_octets` octets together.
    pub fn new(alloc: Global, max_octets: u64) -> Framer
        ensures { result ≡ beginning max_octets }
    {
        Framer {
            max_octets,
            held: Vec::new(alloc),
            line: 0,
            place: Place::start(max_octets),
            closed: false,
        }
    }

    /// Returns the frames of `piece`, the next piece of the stream. Fails with `Memory` if memory runs out,
    /// and with `Closed` after a hangup. After an error the framer is as before.
    ///
    /// The pieces of a stream together take time in proportion to its octets, wherever it is cut. When a
    /// literal is announced, room for it and for CRLF is reserved. So the octets of a literal that is at
    /// least as large as all of its command before it are moved once, and a command that ends after this
    /// literal and CRLF has no spare room.
    pub fn feed(&mut self, alloc: Global, piece: &[u8]) -> Result<Vec<Frame>, LexError>
        ensures frames { IfOk result (λ frames. frames.items ≡ (run self.old piece.now).frames) }
        ensures next { IfOk result (λ _. self.new ≡ (run self.old piece.now).next) }
        ensures closed { IsErrOf result LexError.Closed ↔ (self.old ≡ hung_up) }
        ensures err { OnErr result (self.new ≡ self.old) }
    {
        if self.closed {
            return Err(LexError::Closed);
        }
        let mut frames = Vec::new(alloc);
        let line = last_octets(&self.held, self.line);
        match read_on(&mut frames, self.place, line, piece)? {
            Found::Unended(place, line) => {
                hold(&mut self.held, piece, place)?;
                self.place = place;
                self.line = line;
                Ok(frames)
            }
            Found::Ended(len, end) => {
                let (front, behind) = piece.split_at(len);
                let (later, next) = begin(alloc, self.max_octets, behind)?;
                end.put_frame(alloc, &mut frames, &mut self.held, front, later)?;
                *self = next;
                Ok(frames)
            }
            Found::HungUp => {
                self.closed = true;
                Ok(frames)
            }
        }
    }
}

/// Appends `piece` to `held`, with room for the rest of the literal that `place` is in and for CRLF after it.
///
/// A literal that is at least as large as all before it has exactly this room. For a smaller one `held` grows
/// as any `Vec` does, since each growth moves all that is held.
fn hold(held: &mut Vec<u8>, piece: &[u8], place: Place) -> Result<(), AllocError>
    ensures ok { OnOk result (held.new.items ≡ held.old.items ++ piece.now) }
    ensures err { OnErr result (held.new.items ≡ held.old.items) }
{
    let left = place.literal_left();
    let room = left.saturating_add(piece.len()).saturating_add(2);
    if left >= held.len() {
        held.reserve_exact(room)?;
    } else {
        held.reserve(room)?;
    }
    held.extend_from_slice(piece)?;
    Ok(())
}

/// The last `count` octets.
fn last_octets(octets: &[u8], count: usize) -> &[u8]
    requires { count ≤ length octets.now }
    ensures { result.now ≡ last_octets count octets.now }
{
    &octets[octets.len() - count..]
}

/// Returns the frames of `piece`, with which a command begins, and the framer after it.
fn begin(alloc: Global, max_octets: u64, piece: &[u8]) -> Result<(Vec<Frame>, Framer), AllocError>
    ensures frames { IfOk result (λ r. r.0.items ≡ (run (beginning max_octets) piece.now).frames) }
    ensures next { IfOk result (λ r. r.1 ≡ (run (beginning max_octets) piece.now).next) }
{
    let mut frames = Vec::new(alloc);
    let mut rest = piece;
    loop {
        match read_on(&mut frames, Place::start(max_octets), &[], rest)? {
            Found::Unended(place, line) => {
                let mut held = Vec::new(alloc);
                hold(&mut held, rest, place)?;
                let framer = Framer {
                    max_octets,
                    held,
                    line,
                    place,
                    closed: false,
                };
                return Ok((frames, framer));
            }
            Found::Ended(len, end) => {
                let (command, behind) = rest.split_at(len);
                frames.push(end.frame(alloc, command)?)?;
                rest = behind;
            }
            Found::HungUp => {
                let framer = Framer {
                    closed: true,
                    ..Framer::new(alloc, max_octets)
                };
                return Ok((frames, framer));
            }
        }
    }
}
