//! Frames, read.

ghost use Rattle.std.specs.Prelude.{◌≡◌, Some, IfOk, OnErr, IsSome};
ghost use Rattle.imap_lex.specs.CommandTag.{tag_of};
ghost use Rattle.imap_syntax.specs.Reading.{ReadsIfMemory, Reads};
ghost use Rattle.imap_commands.specs.Reading.{ended, after_tag};
ghost use Rattle.imap_commands.specs.Spells.{Spells, SpellsNoOther, request_read};

use imap_commands::{Command, Request, Verb, read_arguments};
use imap_lex::{Octets, Tag};
use imap_syntax::{Cursor, ReadError};
use std::alloc::{AllocError, Global};

/// Reads CRLF, and returns `read`.
fn ended<T: Drop>(cursor: &mut Cursor<'_>, read: T) -> Result<T, ReadError>
    ensures { Reads (λ r. r) result cursor.new ((ended read).read cursor.old) }
{
    cursor.crlf()?;
    Ok(read)
}

/// Reads what follows the tag of a command.
fn read_after_tag(cursor: &mut Cursor<'_>, alloc: Global) -> Result<Command, ReadError>
    ensures { ReadsIfMemory (λ c. c) result cursor.new (after_tag.read cursor.old) }
{
    cursor.space()?;
    let verb = cursor.keyword::<Verb>()?;
    let command = read_arguments(cursor, alloc, verb)?;
    ended(cursor, command)
}

/// Reads the request of a frame that begins with `tag`.
#[tactic(auto, using(crate::proofs::Requests::none_read, crate::proofs::Requests::tag_within))]
fn read_tagged(alloc: Global, frame: &Octets, tag: Tag) -> Result<Request, AllocError>
    requires { tag_of frame.now ≡ Some tag }
    ensures { IfOk result (λ request. request ≡ request_read frame.now) }
{
    let mut cursor = Cursor::new(frame);
    cursor.skip(tag.as_slice().len());
    match read_after_tag(&mut cursor, alloc) {
        Ok(body) => {
            if cursor.rest().is_empty() {
                return Ok(Request::Command { tag, body });
            }
            drop(body);
            Ok(Request::Malformed { tag: Some(tag) })
        }
        Err(ReadError::Syntax) => Ok(Request::Malformed { tag: Some(tag) }),
        Err(ReadError::Memory) => Err(AllocError),
    }
}

#[tactic(auto, using(crate::proofs::Requests::untagged))]
fn read_request(alloc: Global, frame: &Octets) -> Result<Request, AllocError>
    ensures exact { IfOk result (λ request. request ≡ request_read frame.now) }
    ensures memory { OnErr result (IsSome (tag_of frame.now)) }
{
    match Tag::of_command(alloc, frame.as_slice())? {
        Some(tag) => read_tagged(alloc, frame, tag),
        None => Ok(Request::Malformed { tag: None }),
    }
}

/// Reads the request that `frame` makes. `frame` may have any octets: if they are no command, the request is
/// `Malformed`. The message of APPEND shares the octets of `frame`. A frame that begins with no tag takes no
/// memory.
pub fn parse(alloc: Global, frame: &Octets) -> Result<Request, AllocError>
    ensures spelt { IfOk result (λ request. Spells frame.now request) }
    ensures only { IfOk result (λ request. SpellsNoOther frame.now request) }
    ensures exact { IfOk result (λ request. request ≡ request_read frame.now) }
    ensures memory { OnErr result (IsSome (tag_of frame.now)) }
{
    read_request(alloc, frame)
}
