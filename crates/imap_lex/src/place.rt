//! The place in a command up to which it has come.

ghost use Rattle.std.specs.Prelude.{◌≡◌, ℕ, ◌<◌, ◌≤◌, List, [], length, option_map, Option, Some};
ghost use Rattle.imap_lex.specs.Framing.{Part as BegunPart, awaiting, run, start, line_outcome};
ghost use Rattle.imap_lex.specs.Framing.{before_literal, part_of_size};
ghost use Rattle.imap_lex.specs.Mark.{Announced};
ghost use Rattle.imap_lex.specs.Held.{held_mark};
ghost use Rattle.imap_lex.specs.Places.{begun, begun_with, part_of, IsPlace, IsComing, IsStep, IsTurn};
ghost use Rattle.imap_lex.specs.Places.{IsWithin, turn_outcome, step_outcome};

use crate::frame::End;
use crate::line::{LineEnd, line_end};
use crate::mark::{LiteralMark, line_mark};

/// The most octets that a command may have outside its literals, line ends counted.
pub const MAX_COMMAND_OCTETS: usize = 8192;

/// The most octets of a literal for which the client doesn't wait (RFC 9051,
/// section 4.3; RFC 7888, section 4).
pub const MAX_UNASKED_OCTETS: u64 = 4096;

/// The part of a command that comes next.
#[derive(Clone, Copy)]
pub(crate) enum Part {
    Line,
    /// A literal, with the number of its octets that are still to come: at least one.
    Literal(u64),
}

impl Part {
    /// Returns the part that comes next if `left` octets of a literal are still to come.
    fn of_literal(left: u64) -> Part
        ensures coming { IsComing result }
        ensures part { part_of [] result ≡ part_of_size left }
    {
        if left > 0 {
            Part::Literal(left)
        } else {
            Part::Line
        }
    }
}

/// The place in a command up to which it has come.
#[derive(Clone, Copy)]
pub(crate) struct Place {
    part: Part,
    /// The number of octets that have come outside literals.
    outside: usize,
    /// The number of octets that the literals may still have.
    room: u64,
}

/// How a piece goes on with a command, up to the end of a line or of a literal.
#[derive(Clone, Copy)]
pub(crate) enum Step {
    /// The whole piece is of the line, which does not end with it.
    Unended(Place),
    /// The line, or the part of a literal that has come, ends after this many octets of the piece.
    Turn(usize, Turn),
}

/// How a command goes on after a line or a literal.
#[derive(Clone, Copy)]
pub(crate) enum Turn {
    On(Place),
    /// The client waits to send a literal.
    Continue(Place),
    Ended(End),
    Hangup,
}

impl Place {
    /// Returns the beginning of a command whose literals may have `max_octets` octets.
    pub(crate) fn start(max_octets: u64) -> Place
        ensures stands { IsPlace result }
        ensures begun { begun [] [] result ≡ start max_octets }
    {
        Place {
            part: Part::Line,
            outside: 0,
            room: max_octets,
        }
    }

    /// Returns the number of octets of a literal that are to come.
    pub(crate) fn literal_left(self) -> usize {
        match self.part {
            Part::Line => 0,
            Part::Literal(left) => left as usize,
        }
    }

    /// Returns how `piece` goes on with a command at this place, if `line` has come of its last line.
    pub(crate) fn step(self, line: &[u8], piece: &[u8]) -> Step
        requires stands { IsPlace self }
        requires some { 0 < length piece.now }
        ensures stands { IsStep result }
        ensures within { IsWithin (length piece.now) result }
        ensures outcome { (limit : ℕ) (octets : List ℕ) →
            run (awaiting limit (begun octets line.now self)) piece.now
            ≡ step_outcome limit octets line.now piece.now result }
    {
        match self.part {
            Part::Line => self.step_in_line(line, piece),
            Part::Literal(left) => self.step_in_literal(left, piece),
        }
    }

    fn step_in_literal(self, left: u64, piece: &[u8]) -> Step
        requires stands { IsPlace self }
        requires part { self.part ≡ Part.Literal left }
        requires some { 0 < length piece.now }
        ensures stands { IsStep result }
        ensures within { IsWithin (length piece.now) result }
        ensures outcome { (limit : ℕ) (octets so_far : List ℕ) →
            run (awaiting limit (begun octets so_far self)) piece.now
            ≡ step_outcome limit octets so_far piece.now result }
    {
        let len = left.min(piece.len() as u64);
        let next = Place {
            part: Part::of_literal(left - len),
            ..self
        };
        Step::Turn(len as usize, Turn::On(next))
    }

    fn step_in_line(self, line: &[u8], piece: &[u8]) -> Step
        requires stands { IsPlace self }
        requires part { self.part ≡ Part.Line }
        requires some { 0 < length piece.now }
        ensures stands { IsStep result }
        ensures within { IsWithin (length piece.now) result }
        ensures outcome { (limit : ℕ) (octets : List ℕ) →
            run (awaiting limit (begun octets line.now self)) piece.now
            ≡ step_outcome limit octets line.now piece.now result }
    {
        match line_end(line, MAX_COMMAND_OCTETS - self.outside, piece) {
            LineEnd::After(len) => {
                let ended = Place {
                    outside: self.outside + len,
                    ..self
                };
                Step::Turn(len, ended.after_line(line_mark(line, &piece[..len])))
            }
            LineEnd::Missing => Step::Unended(Place {
                outside: self.outside + piece.len(),
                ..self
            }),
            LineEnd::TooLong => Step::Turn(piece.len(), Turn::Hangup),
        }
    }

    /// Returns how the command goes on after a line that ends with `mark`.
    fn after_line(self, mark: Option<LiteralMark>) -> Turn
        requires { IsPlace self }
        ensures stands { IsTurn result }
        ensures outcome { (limit : ℕ) (octets : List ℕ) (part : BegunPart) (announced : Option Announced) →
            mark ≡ option_map held_mark announced →
            turn_outcome limit octets result ≡ line_outcome limit (begun_with self octets part) announced }
    {
        match mark {
            None => Turn::Ended(End::Whole),
            Some(mark) => self.after_mark(mark),
        }
    }

    fn after_mark(self, mark: LiteralMark) -> Turn
        requires { IsPlace self }
        ensures stands { IsTurn result }
        ensures outcome { (limit : ℕ) (octets : List ℕ) (part : BegunPart) (announced : Announced) →
            mark ≡ held_mark announced →
            turn_outcome limit octets result
            ≡ line_outcome limit (begun_with self octets part) (Some announced) }
    {
        if mark.waits {
            if mark.size > u128::from(self.room) {
                return Turn::Ended(End::Rejected);
            }
            Turn::Continue(self.before_literal(mark.size))
        } else {
            if mark.size > u128::from(self.room.min(MAX_UNASKED_OCTETS)) {
                return Turn::Hangup;
            }
            Turn::On(self.before_literal(mark.size))
        }
    }

    /// Returns the place before a literal of `size` octets.
    fn before_literal(self, size: u128) -> Place
        requires stands { IsPlace self }
        requires room { size ≤ self.room }
        ensures stands { IsPlace result }
        ensures begun { (octets : List ℕ) (part : BegunPart) →
            begun octets [] result ≡ before_literal (begun_with self octets part) size }
    {
        let size = size as u64;
        Place {
            part: Part::of_literal(size),
            outside: self.outside,
            room: self.room - size,
        }
    }
}
