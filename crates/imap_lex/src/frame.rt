//! The frames that a framer returns.

ghost use Rattle.std.specs.Prelude.{◌≡◌, [], ◌∷◌, ◌++◌, IfOk, OnOk, OnErr};
ghost use Rattle.imap_lex.specs.Places.{frame_of};

use crate::octets::Octets;
use crate::tag::Tag;
use std::alloc::{AllocError, Global};
use std::mem;

/// A part of the stream, or what it asks for. A framer returns them in the order of the stream.
#[derive(Drop)]
pub enum Frame {
    /// A command, with its literals and the CRLF that ends it.
    Whole(Octets),
    /// The client waits to send a literal: the server is to send a continuation request
    /// (RFC 9051, section 7).
    Continue,
    /// The client waits to send a literal that is over the limit. The command is dropped, and the next one
    /// begins after the CRLF. The value is the command's tag, if it has one.
    Reject(Option<Tag>),
    /// A command has too many octets outside its literals, or a literal for which the client doesn't wait is
    /// over the limit. Nothing after this is read, and the connection is to be closed.
    Hangup,
}

/// How a command ends.
#[derive(Clone, Copy)]
pub(crate) enum End {
    Whole,
    Rejected,
}

impl End {
    /// Returns the frame of the command `octets`.
    pub(crate) fn frame(self, alloc: Global, octets: &[u8]) -> Result<Frame, AllocError>
        ensures { IfOk result (λ frame. frame ≡ frame_of self octets.now) }
    {
        match self {
            End::Whole => Ok(Frame::Whole(Octets::from_slice(alloc, octets)?)),
            End::Rejected => Ok(Frame::Reject(Tag::of_command(alloc, octets)?)),
        }
    }

    /// Appends to `frames` the frame of the command `held` + `front`, then `later`. Takes the octets out of
    /// `held`. On an error they stay there.
    pub(crate) fn put_frame(
        self,
        alloc: Global,
        frames: &mut Vec<Frame>,
        held: &mut Vec<u8>,
        front: &[u8],
        later: Vec<Frame>,
    ) -> Result<(), AllocError>
        ensures ok { OnOk result (frames.new.items
            ≡ (frames.old.items ++ frame_of self (held.old.items ++ front.now) ∷ []) ++ later.items) }
        ensures err { OnErr result (held.new.items ≡ held.old.items) }
    {
        let mut later = later;
        frames.reserve(1 + later.len())?;
        frames.push_reserved(self.frame_of_held(alloc, held, front)?);
        // Room for these was reserved.
        frames.append(&mut later)?;
        Ok(())
    }

    /// Returns the frame of the command `held` + `front`. On an error `held` is as before.
    fn frame_of_held(
        self,
        alloc: Global,
        held: &mut Vec<u8>,
        front: &[u8],
    ) -> Result<Frame, AllocError>
        ensures ok { IfOk result (λ frame. frame ≡ frame_of self (held.old.items ++ front.now)) }
        ensures err { OnErr result (held.new.items ≡ held.old.items) }
    {
        let before = held.len();
        // No octet follows, so there is no need of spare room.
        held.reserve_exact(front.len())?;
        held.extend_from_slice(front)?;
        let frame = match self {
            End::Whole => whole_frame(alloc, held),
            End::Rejected => Tag::of_command(alloc, held).map(Frame::Reject),
        };
        if frame.is_err() {
            held.truncate(before);
        }
        frame
    }
}

/// Returns the octets of `held` as a whole command, and leaves `held` empty. On an error they stay there.
fn whole_frame(alloc: Global, held: &mut Vec<u8>) -> Result<Frame, AllocError>
    ensures ok { IfOk result (λ frame. frame ≡ Frame.Whole held.old.items) }
    ensures err { OnErr result (held.new.items ≡ held.old.items) }
{
    let octets = mem::replace(held, Vec::new(alloc));
    match Octets::try_from_vec(octets) {
        Ok(octets) => Ok(Frame::Whole(octets)),
        Err(failed) => {
            *held = failed.value;
            Err(AllocError)
        }
    }
}
