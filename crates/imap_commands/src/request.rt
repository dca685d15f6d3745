//! Requests.

ghost use Rattle.std.specs.Prelude.{◌≡◌, IfOk};

use crate::command::Command;
use imap_lex::Tag;
use imap_values::{Same, TryCopy, copy_two, same_two};
use std::alloc::{AllocError, Global};

/// The request that a frame of the stream makes.
pub enum Request {
    Command { tag: Tag, body: Command },
    /// The frame is no command. `tag` is the tag with which the frame begins, a space or CRLF after it.
    Malformed { tag: Option<Tag> },
    /// A literal of the command was over the limit. No frame spells this request, and [`parse`](crate::parse)
    /// never returns it: it stands for a command whose octets were refused before they came.
    TooBig { tag: Tag },
}

// Not derived: a derived one is proved anew in each crate that lets go of one.
impl Drop for Request {
    fn drop(self) {
        match self {
            Request::Command { tag, body } => drop((tag, body)),
            Request::Malformed { tag } => drop(tag),
            Request::TooBig { tag } => drop(tag),
        }
    }
}

impl TryCopy for Request {
    /// Returns an equal copy. It shares the octets of the tag, of strings and of messages.
    fn try_copy(&self, alloc: Global) -> Result<Request, AllocError> {
        match self {
            Request::Command { tag, body } => copy_command(tag, body, alloc),
            Request::Malformed { tag } => {
                let tag = tag.try_copy(alloc)?;
                Ok(Request::Malformed { tag })
            }
            Request::TooBig { tag } => {
                let tag = tag.try_copy(alloc)?;
                Ok(Request::TooBig { tag })
            }
        }
    }
}

fn copy_command(tag: &Tag, body: &Command, alloc: Global) -> Result<Request, AllocError>
    ensures { IfOk result (λ copy. copy ≡ Request.Command tag.now body.now) }
{
    let (tag, body) = copy_two(tag, body, alloc)?;
    Ok(Request::Command { tag, body })
}

impl Same for Request {
    fn is_same(&self, other: &Request) -> bool {
        match (self, other) {
            (
                Request::Command { tag, body },
                Request::Command {
                    tag: other,
                    body: other_body,
                },
            ) => same_two(tag, other, body, other_body),
            (Request::Malformed { tag }, Request::Malformed { tag: other }) => tag.is_same(other),
            (Request::TooBig { tag }, Request::TooBig { tag: other }) => tag.is_same(other),
            _ => false,
        }
    }
}
