//! The replies to one step.

ghost use Rattle.std.specs.Prelude.{◌≡◌, IfOk};
ghost use Rattle.imap_saving.specs.Performing.{AreReplies};
ghost use Rattle.imap_saving.specs.Refusals.{tag_in, tag_of, unavailable};

use crate::shared_replies::SharedReplies;
use imap_core::{Act, Step};
use imap_grammar::Request;
use imap_lex::Tag;
use imap_print::{Refusal, Response};
use imap_values::{TryCopy, beside, pushed};
use std::alloc::{AllocError, Global};

/// The replies to one step, for the entry of the journal and for two receipts.
#[derive(Drop)]
pub struct Replies {
    pub entry: SharedReplies,
    pub receipt: SharedReplies,
    pub second: SharedReplies,
}

impl Replies {
    /// Returns a copy of the replies, which all three share.
    pub(crate) fn copied(alloc: Global, replies: &[Response]) -> Result<Replies, AllocError>
        ensures { IfOk result (λ made. AreReplies made replies.now) }
    {
        Replies::shared(alloc, copy_replies(alloc, replies)?)
    }

    fn shared(alloc: Global, replies: Vec<Response>) -> Result<Replies, AllocError>
        ensures { IfOk result (λ made. AreReplies made replies.items) }
    {
        let entry = SharedReplies::new(alloc, replies)?;
        let (receipt, entry) = beside(entry.try_copy(), entry)?;
        let (second, (entry, receipt)) = beside(entry.try_copy(), (entry, receipt))?;
        Ok(Replies {
            entry,
            receipt,
            second,
        })
    }
}

/// Returns equal copies. They share octets.
fn copy_replies(alloc: Global, replies: &[Response]) -> Result<Vec<Response>, AllocError>
    ensures { IfOk result (λ copy. copy.items ≡ replies.now) }
{
    let mut copy = Vec::with_capacity(alloc, replies.len())?;
    for reply in replies {
        copy.push(reply.try_copy(alloc)?)?;
    }
    Ok(copy)
}

/// Returns the replies to a step whose change the store refused (RFC 5530, UNAVAILABLE).
pub(crate) fn refusal(alloc: Global, step: &Step) -> Result<Replies, AllocError>
    ensures { IfOk result (λ replies. AreReplies replies (unavailable step.now)) }
{
    Replies::shared(alloc, unavailable(alloc, step)?)
}

fn unavailable(alloc: Global, step: &Step) -> Result<Vec<Response>, AllocError>
    ensures { IfOk result (λ replies. replies.items ≡ unavailable step.now) }
{
    let reply = Response::Refused {
        tag: tag_of(alloc, &step.act)?,
        refusal: Refusal::Unavailable,
    };
    pushed(Vec::new(alloc), reply)
}

/// Returns the tag of the command that the act sends, if it sends one.
fn tag_of(alloc: Global, act: &Act) -> Result<Option<Tag>, AllocError>
    ensures { IfOk result (λ tag. tag ≡ tag_of act.now) }
{
    match act {
        Act::Do(request) => tag_in(alloc, request),
        Act::Open | Act::Poll | Act::Done | Act::Leave => Ok(None),
    }
}

fn tag_in(alloc: Global, request: &Request) -> Result<Option<Tag>, AllocError>
    ensures { IfOk result (λ tag. tag ≡ tag_in request.now) }
{
    match request {
        Request::Command { tag, body: _ } | Request::TooBig { tag } => {
            Ok(Some(tag.try_copy(alloc)?))
        }
        Request::Malformed { tag } => tag.try_copy(alloc),
    }
}
