//! Frames that are rewritten, and what they ask for.

ghost use Rattle.std.specs.Prelude.{◌≡◌, IfOk, option_copied};
ghost use Rattle.imap_rev1_frames.specs.Rewritten.{asked_by, command_asked, each_once, instead_frame};
ghost use Rattle.imap_rev1_frames.specs.Rewritten.{instead_octets, rewritten_frame, rewritten_octets};

use crate::asked::{Asked, without_repeats};
use crate::named::{Named, named_in};
use crate::writing::Writing;
use imap_lex::{Frame, Octets};
use std::alloc::{AllocError, Global};

/// Returns the command that the server is to see in place of the octets, or `None` if it is the same.
fn rewritten_octets(alloc: Global, rev2: bool, octets: &[u8]) -> Result<Option<Octets>, AllocError>
    ensures { IfOk result (λ other. instead_octets other octets.now ≡ rewritten_octets rev2 octets.now) }
{
    let named = named_in(rev2, octets);
    if !named.is_rewritten() {
        return Ok(None);
    }
    let writing = Writing::of_command(alloc, named, octets)?;
    Ok(Some(Octets::from_vec(writing.into_octets())?))
}

/// Returns the frame that the server is to see in place of the client's, or `None` if it is the same. `rev2`
/// says whether the client has enabled IMAP4rev2.
pub fn rewritten_frame(
    alloc: Global,
    rev2: bool,
    frame: &Frame,
) -> Result<Option<Frame>, AllocError>
    ensures { IfOk result (λ other. instead_frame other frame.now ≡ rewritten_frame rev2 frame.now) }
{
    match frame {
        Frame::Whole(octets) => match rewritten_octets(alloc, rev2, octets.as_slice())? {
            Some(other) => Ok(Some(Frame::Whole(other))),
            None => Ok(None),
        },
        _ => Ok(None),
    }
}

/// Returns the items of a command. Those of FETCH that are asked for again are told once.
fn each_once(alloc: Global, named: Named, all: Vec<Asked>) -> Result<Vec<Asked>, AllocError>
    ensures { IfOk result (λ asked. asked.items ≡ each_once named all.items) }
{
    match named {
        Named::Fetch => without_repeats(alloc, all),
        _ => Ok(all),
    }
}

/// Returns what the items in a command ask for.
fn command_asked(alloc: Global, named: Named, octets: &[u8]) -> Result<Vec<Asked>, AllocError>
    ensures { IfOk result (λ asked. asked.items ≡ command_asked named octets.now) }
{
    if !named.has_items() {
        return Ok(Vec::new(alloc));
    }
    let writing = Writing::of_command(alloc, named, octets)?;
    each_once(alloc, named, writing.into_asked())
}

/// Returns what the items in the frame ask for, which is this command, in their order.
pub fn asked_by(alloc: Global, named: Named, by: Option<&Frame>) -> Result<Vec<Asked>, AllocError>
    ensures { IfOk result (λ asked. asked.items ≡ asked_by named (option_copied by.entry)) }
{
    match by {
        Some(Frame::Whole(octets)) => command_asked(alloc, named, octets.as_slice()),
        _ => Ok(Vec::new(alloc)),
    }
}
