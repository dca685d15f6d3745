//! The dialect of IMAP4rev1.

ghost use Rattle.std.specs.Prelude.{◌≡◌, false};
ghost use Rattle.std.specs.List.{list_any};
ghost use Rattle.imap_rev1_frames.specs.Asked.{is_labelled};
ghost use Rattle.imap_rev1.specs.Rev1.{enables_rev2, is_lsub, is_search, is_select, rev1, told_by};

use crate::asked_items::AskedItems;
use crate::labels::push_fetch;
use crate::telling::{
    push_capability, push_greeting, push_lsub, push_recent, push_search, push_status,
};
use imap_dialect::Dialect;
use imap_lex::Frame;
use imap_print::{Pieces, Response, print_line};
use imap_rev1_frames::{Asked, Named, asked_by, named_by, rewritten_frame};
use std::alloc::{AllocError, Global};

/// IMAP4rev1 (RFC 3501), until the client enables IMAP4rev2.
#[derive(Clone, Copy)]
pub struct Rev1 {
    rev2: bool,
}

impl Rev1 {
    /// A session begins in IMAP4rev1.
    pub fn new() -> Rev1
        ensures { result.rev2 ≡ false }
    {
        Rev1 { rev2: false }
    }
}

/// How the replies to a frame are told.
#[derive(Drop)]
pub struct Rules {
    /// The command in the frame.
    named: Named,
    /// What the items in it ask for.
    asked: AskedItems,
}

fn is_search(named: Named) -> bool
    ensures { result ≡ is_search named }
{
    matches!(named, Named::Search)
}

fn is_lsub(named: Named) -> bool
    ensures { result ≡ is_lsub named }
{
    matches!(named, Named::Lsub)
}

fn is_select(named: Named) -> bool
    ensures { result ≡ is_select named }
{
    matches!(named, Named::Select)
}

fn enables_rev2(reply: &Response) -> bool
    ensures { result ≡ enables_rev2 reply.now }
{
    match reply {
        Response::Enabled(enabled) => enabled.imap4rev2,
        _ => false,
    }
}

fn any_enables_rev2(replies: &[Response]) -> bool
    ensures { result ≡ list_any enables_rev2 replies.now }
{
    replies.iter().any(|reply| enables_rev2(reply))
}

fn has_labels(all: &[Asked]) -> bool
    ensures { result ≡ list_any is_labelled all.now }
{
    all.iter().any(|asked| asked.is_labelled())
}

impl Dialect for Rev1 {
    type Rule = Rules;

    ghost telling = { rev1 };

    ghost octets = { told_by };

    fn rewrite(&self, alloc: Global, frame: &Frame) -> Result<Option<Frame>, AllocError> {
        rewritten_frame(alloc, self.rev2, frame)
    }

    fn rule(&self, alloc: Global, by: Option<&Frame>) -> Result<Rules, AllocError> {
        let named = named_by(self.rev2, by);
        let asked = AskedItems::from_vec(alloc, asked_by(alloc, named, by)?);
        Ok(Rules { named, asked })
    }

    fn tell(rule: &Rules, reply: &Response, out: &mut Pieces) -> Result<(), AllocError> {
        match reply {
            Response::Greeting => push_greeting(out),
            Response::Capability => push_capability(out),
            Response::Search { results, .. } if is_search(rule.named) => push_search(out, results),
            Response::Exists(_) if is_select(rule.named) => {
                print_line(out, reply)?;
                push_recent(out)
            }
            Response::List { mailbox, .. } if is_lsub(rule.named) => {
                push_lsub(out, mailbox.as_slice())
            }
            Response::Status { mailbox, items } => push_status(
                out,
                rule.asked.as_slice(),
                mailbox.as_slice(),
                items.as_slice(),
            ),
            Response::Fetch { number, items } if has_labels(rule.asked.as_slice()) => {
                let asked = &rule.asked;
                push_fetch(asked.alloc(), out, asked.as_slice(), *number, items)
            }
            _ => print_line(out, reply),
        }
    }

    fn advance(&mut self, _frame: &Frame, replies: &[Response]) {
        self.rev2 = self.rev2 || any_enables_rev2(replies);
    }
}
