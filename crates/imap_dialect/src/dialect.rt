//! Dialects.

ghost use Rattle.std.specs.Prelude.{◌≡◌, ◌++◌, ℕ, List, IfOk, OnOk, option_copied};
ghost use Rattle.imap_dialect.specs.Telling.{IsRule, Telling, instead};
ghost use Rattle.imap_print.specs.Pieces.{octets_of};
ghost use Rattle.imap_print.specs.declared.response.Response.{Response};

use imap_lex::Frame;
use imap_print::{Pieces, Response};
use std::alloc::{AllocError, Global};

/// A dialect, in the state that the frames so far and their replies left it in.
pub trait Dialect {
    /// How the replies to a frame are told. It is read from the frame once, for all replies.
    type Rule: Drop + Send;

    /// What it makes of frames and replies.
    ghost telling: { Telling Self };

    /// The octets of a reply by a rule.
    ghost octets: { Self.Rule → Response → List ℕ };

    /// The frame that the server is to see, or `None` if it is this one.
    fn rewrite(&self, alloc: Global, frame: &Frame) -> Result<Option<Frame>, AllocError>
        ensures { IfOk result (λ other. instead other frame.now ≡ telling.rewritten self.now frame.now) };

    /// How the replies to the frame are told, as the client sent it, or replies for which no frame asked.
    fn rule(&self, alloc: Global, by: Option<&Frame>) -> Result<Self::Rule, AllocError>
        ensures { IfOk result (λ rule. IsRule (octets rule) telling self.now (option_copied by.entry)) };

    /// Appends the octets in which the reply is told.
    fn tell(rule: &Self::Rule, reply: &Response, out: &mut Pieces) -> Result<(), AllocError>
        ensures { OnOk result (octets_of out.new ≡ octets_of out.old ++ octets rule.now reply.now) };

    /// Goes on after the frame, as the client sent it, and the replies to it.
    fn advance(&mut self, frame: &Frame, replies: &[Response])
        ensures { self.new ≡ telling.next self.old frame.now replies.now };
}
