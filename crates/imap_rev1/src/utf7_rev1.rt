//! The dialect of IMAP4rev1 with names in modified UTF-7.

ghost use Rattle.std.specs.Prelude.{◌≡◌, ◌++◌, IfOk, OnOk, false};
ghost use Rattle.std.specs.List.{list_any};
ghost use Rattle.imap_lex.specs.Framing.{crlf};
ghost use Rattle.imap_print.specs.Pieces.{octets_of};
ghost use Rattle.imap_print.specs.Words.{before_each, given};
ghost use Rattle.imap_rev1_frames.specs.Rewritten.{instead_frame};
ghost use Rattle.imap_rev1_frames.specs.Names.{renamed_frame};
ghost use Rattle.imap_rev1.specs.Shown.{shown_reply};
ghost use Rattle.imap_rev1.specs.Utf7.{accepted_by, accepted_text, ends_names, named_told};
ghost use Rattle.imap_rev1.specs.Utf7.{told_echoed, utf7_rev1};

use crate::rev1::{Rev1, Rules};
use crate::shown::shown_reply;
use imap_dialect::Dialect;
use imap_lex::Frame;
use imap_print::{EnabledCapabilities, Pieces, Response};
use imap_rev1_frames::{asks_utf8, renamed_frame};
use std::alloc::{AllocError, Global};

/// IMAP4rev1 (RFC 3501) with names of mailboxes in modified UTF-7 (section 5.1.3), until the client enables
/// IMAP4rev2 or UTF8=ACCEPT (RFC 6855, section 3).
#[derive(Clone, Copy)]
pub struct Utf7Rev1 {
    rev1: Rev1,
    /// Names are in UTF-8.
    utf8: bool,
}

impl Utf7Rev1 {
    /// A session begins with names in modified UTF-7.
    pub fn new() -> Utf7Rev1
        ensures rev1 { result.rev1.rev2 ≡ false }
        ensures names { result.utf8 ≡ false }
    {
        Utf7Rev1 {
            rev1: Rev1::new(),
            utf8: false,
        }
    }
}

/// How the replies to a frame are told.
#[derive(Drop)]
pub struct NamedRules {
    rules: Rules,
    alloc: Global,
    /// Names are told in UTF-8.
    utf8: bool,
    /// The client asks for UTF8=ACCEPT.
    echoes: bool,
}

fn ends_names(asks: bool, reply: &Response) -> bool
    ensures { result ≡ ends_names asks reply.now }
{
    match reply {
        Response::Enabled(enabled) => asks || enabled.imap4rev2,
        _ => false,
    }
}

fn any_ends_names(asks: bool, replies: &[Response]) -> bool
    ensures { result ≡ list_any (ends_names asks) replies.now }
{
    replies.iter().any(|reply| ends_names(asks, reply))
}

/// Returns what the reply says is enabled, if UTF8=ACCEPT is to be told beside it.
fn accepted_by(echoes: bool, reply: &Response) -> Option<EnabledCapabilities>
    ensures { result ≡ accepted_by echoes reply.now }
{
    match reply {
        Response::Enabled(enabled) => echoes.then_some(*enabled),
        _ => None,
    }
}

/// Appends the word after a space, if it is given.
fn push_given(out: &mut Pieces, is_given: bool, word: &[u8]) -> Result<(), AllocError>
    ensures { OnOk result (octets_of out.new ≡ octets_of out.old ++ before_each 32 (given is_given word.now)) }
{
    if is_given {
        out.push_octets(b" ")?;
        out.push_octets(word)
    } else {
        Ok(())
    }
}

/// Appends the line that says that the capabilities and UTF8=ACCEPT are enabled (RFC 5161, section 3.2).
fn push_accepted(out: &mut Pieces, enabled: EnabledCapabilities) -> Result<(), AllocError>
    ensures { OnOk result (octets_of out.new ≡ octets_of out.old ++ (accepted_text enabled ++ crlf)) }
{
    out.push_octets(b"* ENABLED")?;
    push_given(out, enabled.condstore, b"CONDSTORE")?;
    push_given(out, enabled.imap4rev2, b"IMAP4rev2")?;
    push_given(out, enabled.qresync, b"QRESYNC")?;
    out.push_octets(b" UTF8=ACCEPT")?;
    out.push_octets(b"\r\n")?;
    Ok(())
}

/// Appends the octets in which a reply is told, whose name is as it is to be shown.
fn tell_echoed(rule: &NamedRules, reply: &Response, out: &mut Pieces) -> Result<(), AllocError>
    ensures { OnOk result (octets_of out.new
        ≡ octets_of out.old ++ told_echoed rule.now.rules rule.now.echoes reply.now) }
{
    match accepted_by(rule.echoes, reply) {
        Some(enabled) => push_accepted(out, enabled),
        None => Rev1::tell(&rule.rules, reply, out),
    }
}

/// Appends the octets in which a reply is told by a rule that shows names in modified UTF-7.
fn tell_shown(rule: &NamedRules, reply: &Response, out: &mut Pieces) -> Result<(), AllocError>
    ensures { OnOk result (octets_of out.new
        ≡ octets_of out.old ++ told_echoed rule.now.rules rule.now.echoes (shown_reply reply.now)) }
{
    match shown_reply(rule.alloc, reply)? {
        Some(other) => {
            let told = tell_echoed(rule, &other, out);
            drop(other);
            told
        }
        None => tell_echoed(rule, reply, out),
    }
}

/// Returns the frame in place of the client's, which is `other` if this is another than `frame`.
fn rename(alloc: Global, other: Option<Frame>, frame: &Frame) -> Result<Option<Frame>, AllocError>
    ensures { IfOk result (λ named. instead_frame named frame.now
        ≡ renamed_frame (instead_frame other frame.now)) }
{
    let Some(other) = other else {
        return renamed_frame(alloc, frame);
    };
    match renamed_frame(alloc, &other)? {
        Some(named) => Ok(Some(named)),
        None => Ok(Some(other)),
    }
}

impl Dialect for Utf7Rev1 {
    type Rule = NamedRules;

    ghost telling = { utf7_rev1 };

    ghost octets = { λ rule reply. named_told rule.rules rule.utf8 rule.echoes reply };

    fn rewrite(&self, alloc: Global, frame: &Frame) -> Result<Option<Frame>, AllocError> {
        let other = self.rev1.rewrite(alloc, frame)?;
        if self.utf8 {
            return Ok(other);
        }
        rename(alloc, other, frame)
    }

    fn rule(&self, alloc: Global, by: Option<&Frame>) -> Result<NamedRules, AllocError> {
        let rules = self.rev1.rule(alloc, by)?;
        Ok(NamedRules {
            rules,
            alloc,
            utf8: self.utf8,
            echoes: asks_utf8(by),
        })
    }

    fn tell(rule: &NamedRules, reply: &Response, out: &mut Pieces) -> Result<(), AllocError> {
        if rule.utf8 {
            tell_echoed(rule, reply, out)
        } else {
            tell_shown(rule, reply, out)
        }
    }

    fn advance(&mut self, frame: &Frame, replies: &[Response]) {
        self.rev1.advance(frame, replies);
        self.utf8 = self.utf8 || any_ends_names(asks_utf8(Some(frame)), replies);
    }
}
