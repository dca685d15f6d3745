//! What a session does by the frames of its client's stream.

ghost use Rattle.std.specs.Prelude.{◌≡◌, IfOk};
ghost use Rattle.imap_core.specs.declared.step.Act.TheVariants.{Do};
ghost use Rattle.imap_core.specs.Frames.{act_of_command, act_of_frame, rejected};

use crate::step::Act;
use imap_grammar::{Request, parse};
use imap_lex::{Frame, Octets, Tag};
use std::alloc::{AllocError, Global};

impl Act {
    /// Returns the act of a frame, or `None` if the machine has no part in it: the client waits for a
    /// continuation request, or the connection is to be closed.
    pub fn of_frame(alloc: Global, frame: Frame) -> Result<Option<Act>, AllocError>
        ensures { IfOk result (λ act. act ≡ act_of_frame frame) }
    {
        match frame {
            Frame::Whole(command) => Ok(Some(Act::of_command(alloc, &command)?)),
            Frame::Reject(tag) => Ok(Some(Act::of_rejected(tag))),
            Frame::Continue | Frame::Hangup => Ok(None),
        }
    }

    /// Returns the act of a command that came whole. The line DONE (RFC 2177) is an act of its own at any
    /// time.
    pub fn of_command(alloc: Global, command: &Octets) -> Result<Act, AllocError>
        ensures { IfOk result (λ act. act ≡ act_of_command command.now) }
    {
        if command.as_slice().eq_ignore_ascii_case(b"DONE\r\n") {
            return Ok(Act::Done);
        }
        Ok(Act::Do(parse(alloc, command)?))
    }

    /// Returns the act of a command of which a literal was refused before it came. `tag` is that of the
    /// command, if it began with one.
    pub fn of_rejected(tag: Option<Tag>) -> Act
        ensures { result ≡ Do (rejected tag) }
    {
        match tag {
            Some(tag) => Act::Do(Request::TooBig { tag }),
            None => Act::Do(Request::Malformed { tag: None }),
        }
    }
}
