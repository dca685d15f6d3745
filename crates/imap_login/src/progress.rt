//! How far a login has come, and what frames are answered.

ghost use Rattle.std.specs.Prelude.{◌≡◌, ◌++◌, IfOk, OnOk};
ghost use Rattle.base64.specs.Engines.{standard};
ghost use Rattle.base64.specs.GeneralPurpose.{decoded_of};
ghost use Rattle.imap_lex.specs.CommandTag.{tag_of};
ghost use Rattle.imap_login.specs.Login.{asked_answer, command_answer, failed, first_progress, frame_answer};
ghost use Rattle.imap_login.specs.Login.{frames_answer, initial_message, is_waiting, judged, line_message};
ghost use Rattle.imap_login.specs.Login.{message_answer, plain_answer, whole_answer};

use crate::asked::{Asked, asked_of};
use crate::capabilities::Capabilities;
use crate::credentials::Credentials;
use crate::outcome::Outcome;
use crate::replies::{
    push_capability, push_challenge, push_limit_reached, push_logging_out, push_ready, push_tagged,
    push_untagged, push_welcome,
};
use base64::DecodeAllocError;
use base64::engine::general_purpose::STANDARD;
use imap_lex::{Frame, Octets, Tag};
use std::alloc::{AllocError, Global};
use std::mem;

/// How many logins of a connection may fail.
const MAX_FAILURES: u32 = 3;

/// The state of a login.
#[derive(Clone, Copy)]
pub enum Stage {
    /// The client has not logged in.
    Waiting,
    /// The client gave the name and the secret.
    Entered,
    /// The connection is to be closed.
    Closed,
}

impl Stage {
    /// Whether the client has not logged in, and may.
    pub(crate) fn is_waiting(self) -> bool
        ensures { result ≡ is_waiting self }
    {
        matches!(self, Stage::Waiting)
    }
}

/// How far a login has come.
#[derive(Drop)]
pub(crate) struct Progress {
    pub(crate) stage: Stage,
    /// The number of wrong logins after which the connection is closed.
    tries: u32,
    /// The tag of an AUTHENTICATE whose response has not come.
    pending: Option<Tag>,
    /// What the server can do.
    capabilities: Capabilities,
}

impl Progress {
    pub(crate) fn new(capabilities: Capabilities) -> Progress
        ensures { result ≡ first_progress capabilities }
    {
        Progress {
            stage: Stage::Waiting,
            tries: MAX_FAILURES,
            pending: None,
            capabilities,
        }
    }

    /// Answers a login that is wrong.
    fn fail(&mut self, tag: &[u8], out: &mut Vec<u8>) -> Result<(), AllocError>
        ensures text { OnOk result (out.new.items ≡ out.old.items ++ (failed tag.now self.old).text) }
        ensures next { OnOk result (self.new ≡ (failed tag.now self.old).next) }
    {
        push_tagged(out, tag, Outcome::AuthenticationFailed)?;
        if self.tries > 1 {
            self.tries -= 1;
            return Ok(());
        }
        push_limit_reached(out)?;
        self.stage = Stage::Closed;
        Ok(())
    }

    /// Answers a login that is right or wrong.
    fn judge(&mut self, right: bool, tag: &[u8], out: &mut Vec<u8>) -> Result<(), AllocError>
        ensures text { OnOk result (out.new.items ≡ out.old.items ++ (judged right tag.now self.old).text) }
        ensures next { OnOk result (self.new ≡ (judged right tag.now self.old).next) }
    {
        if right {
            push_welcome(out, &self.capabilities, tag)?;
            self.stage = Stage::Entered;
            return Ok(());
        }
        self.fail(tag, out)
    }

    /// Answers a message of PLAIN, or a response that is none.
    fn take_message(
        &mut self,
        credentials: &Credentials,
        tag: &[u8],
        message: &Option<Octets>,
        out: &mut Vec<u8>,
    ) -> Result<(), AllocError>
        ensures text { OnOk result (out.new.items
            ≡ out.old.items ++ (message_answer credentials.now tag.now message.now self.old).text) }
        ensures next { OnOk result
            (self.new ≡ (message_answer credentials.now tag.now message.now self.old).next) }
    {
        self.pending = None;
        match message {
            Some(message) => {
                let right = credentials.is_right_message(message.as_slice());
                self.judge(right, tag, out)
            }
            None => push_tagged(out, tag, Outcome::Malformed),
        }
    }

    /// Answers AUTHENTICATE PLAIN.
    fn take_plain(
        &mut self,
        alloc: Global,
        credentials: &Credentials,
        tag: &Tag,
        response: &Option<Octets>,
        out: &mut Vec<u8>,
    ) -> Result<(), AllocError>
        ensures text { OnOk result (out.new.items
            ≡ out.old.items ++ (plain_answer credentials.now tag.now response.now self.old).text) }
        ensures next { OnOk result
            (self.new ≡ (plain_answer credentials.now tag.now response.now self.old).next) }
    {
        match response {
            Some(response) => {
                let message = initial_message(alloc, response.as_slice())?;
                self.take_message(credentials, tag.as_slice(), &message, out)
            }
            None => {
                push_challenge(out)?;
                self.pending = Some(tag.try_copy(alloc)?);
                Ok(())
            }
        }
    }

    /// Answers a request.
    fn take_asked(
        &mut self,
        alloc: Global,
        credentials: &Credentials,
        tag: &Tag,
        asked: &Asked,
        out: &mut Vec<u8>,
    ) -> Result<(), AllocError>
        ensures text { OnOk result (out.new.items
            ≡ out.old.items ++ (asked_answer credentials.now tag.now asked.now self.old).text) }
        ensures next { OnOk result
            (self.new ≡ (asked_answer credentials.now tag.now asked.now self.old).next) }
    {
        match asked {
            Asked::Capability => {
                push_capability(out, &self.capabilities)?;
                push_tagged(out, tag.as_slice(), Outcome::Done)
            }
            Asked::Noop => push_tagged(out, tag.as_slice(), Outcome::Done),
            Asked::Logout => {
                push_logging_out(out)?;
                push_tagged(out, tag.as_slice(), Outcome::Done)?;
                self.stage = Stage::Closed;
                Ok(())
            }
            Asked::Login { name, password } => {
                let right = credentials.are_right(name.as_slice(), password.as_slice());
                self.judge(right, tag.as_slice(), out)
            }
            Asked::Plain { response } => self.take_plain(alloc, credentials, tag, response, out),
            Asked::OtherMechanism => push_tagged(out, tag.as_slice(), Outcome::Cannot),
            Asked::Other => push_tagged(out, tag.as_slice(), Outcome::WrongState),
        }
    }

    /// Answers a command.
    fn take_command(
        &mut self,
        alloc: Global,
        credentials: &Credentials,
        octets: &Octets,
        out: &mut Vec<u8>,
    ) -> Result<(), AllocError>
        ensures text { OnOk result (out.new.items ≡ out.old.items
            ++ (command_answer credentials.now (tag_of octets.now) octets.now self.old).text) }
        ensures next { OnOk result
            (self.new ≡ (command_answer credentials.now (tag_of octets.now) octets.now self.old).next) }
    {
        match Tag::of_command(alloc, octets.as_slice())? {
            Some(tag) => {
                let asked = asked_of(alloc, tag.as_slice(), octets)?;
                self.take_asked(alloc, credentials, &tag, &asked, out)
            }
            None => push_untagged(out),
        }
    }

    /// Answers a line that came whole, with its literals.
    fn take_whole(
        &mut self,
        alloc: Global,
        credentials: &Credentials,
        octets: &Octets,
        out: &mut Vec<u8>,
    ) -> Result<(), AllocError>
        ensures text { OnOk result (out.new.items ≡ out.old.items
            ++ (whole_answer credentials.now self.old.pending octets.now self.old).text) }
        ensures next { OnOk result
            (self.new ≡ (whole_answer credentials.now self.old.pending octets.now self.old).next) }
    {
        match mem::take(&mut self.pending) {
            Some(tag) => {
                let message = line_message(alloc, octets.as_slice())?;
                self.take_message(credentials, tag.as_slice(), &message, out)
            }
            None => self.take_command(alloc, credentials, octets, out),
        }
    }

    /// Answers a frame.
    fn take_frame(
        &mut self,
        alloc: Global,
        credentials: &Credentials,
        frame: &Frame,
        out: &mut Vec<u8>,
    ) -> Result<(), AllocError>
        ensures text { OnOk result
            (out.new.items ≡ out.old.items ++ (frame_answer credentials.now frame.now self.old).text) }
        ensures next { OnOk result (self.new ≡ (frame_answer credentials.now frame.now self.old).next) }
    {
        match frame {
            Frame::Whole(octets) => self.take_whole(alloc, credentials, octets, out),
            Frame::Continue => push_ready(out),
            Frame::Reject(_) | Frame::Hangup => {
                push_limit_reached(out)?;
                self.stage = Stage::Closed;
                Ok(())
            }
        }
    }

    /// Answers frames.
    pub(crate) fn take_frames(
        &mut self,
        alloc: Global,
        credentials: &Credentials,
        frames: &[Frame],
        out: &mut Vec<u8>,
    ) -> Result<(), AllocError>
        ensures text { OnOk result
            (out.new.items ≡ out.old.items ++ (frames_answer credentials.now frames.now self.old).text) }
        ensures next { OnOk result (self.new ≡ (frames_answer credentials.now frames.now self.old).next) }
    {
        for frame in frames {
            self.take_frame(alloc, credentials, frame, out)?;
        }
        Ok(())
    }
}

/// Returns the message of an initial response. `=` is an empty one (RFC 4959, section 3).
fn initial_message(alloc: Global, response: &[u8]) -> Result<Option<Octets>, AllocError>
    ensures { IfOk result (λ message. message ≡ initial_message response.now) }
{
    match response {
        [b'='] => Ok(Some(Octets::from_slice(alloc, &[])?)),
        _ => decode(alloc, response),
    }
}

/// Returns the message of a response on a line of its own, without the CRLF.
fn line_message(alloc: Global, line: &[u8]) -> Result<Option<Octets>, AllocError>
    ensures { IfOk result (λ message. message ≡ line_message line.now) }
{
    let (response, _) = line.split_at(line.len().saturating_sub(2));
    decode(alloc, response)
}

/// Returns the octets for which base64 stands, or `None` if these aren't base64 (RFC 4648, section 4).
#[tactic(auto, using(crate::proofs::Decoded::is_no_base64))]
fn decode(alloc: Global, text: &[u8]) -> Result<Option<Octets>, AllocError>
    ensures { IfOk result (λ octets. octets ≡ decoded_of standard text.now) }
{
    match STANDARD.decode(alloc, text) {
        Ok(octets) => Ok(Some(Octets::from_vec(octets)?)),
        Err(DecodeAllocError::DecodeError(_)) => Ok(None),
        Err(DecodeAllocError::OutOfMemory) => Err(AllocError),
    }
}
