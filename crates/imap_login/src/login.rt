//! A login over the octets of a connection.

ghost use Rattle.std.specs.Prelude.{◌≡◌, ◌++◌, IfOk, OnOk};
ghost use Rattle.imap_login.specs.Login.{first_state, heard, octet_answer, octet_state};

use crate::capabilities::Capabilities;
use crate::credentials::Credentials;
use crate::progress::{Progress, Stage};
use imap_lex::{Framer, LexError, MAX_COMMAND_OCTETS};
use std::alloc::{AllocError, Global};
use std::marker::Model;

/// A login: what has come of the client's octets.
#[derive(Drop)]
pub struct Login {
    framer: Framer,
    progress: Progress,
}

impl Model for Login {
    ghost use Rattle.imap_login.specs.Login.{LoginState};

    ghost Value = { LoginState };

    ghost view = { λ l. record { framing = l.framer; progress = l.progress } };
}

impl Login {
    /// Returns a login of which no octets have come, to a server that can do this.
    pub fn new(alloc: Global, capabilities: Capabilities) -> Login
        ensures { result ≡ first_state capabilities }
    {
        Login {
            framer: Framer::new(alloc, MAX_COMMAND_OCTETS as u64),
            progress: Progress::new(capabilities),
        }
    }

    /// Returns where the login stands.
    pub fn stage(&self) -> Stage
        ensures { result ≡ self.now.progress.stage }
    {
        self.progress.stage
    }

    /// Takes the next octets of the client, up to the one that ends the login, and appends to `out` what they are
    /// answered. Returns the octets that are left. After a failure the connection is to be closed.
    pub fn take<'a>(
        &mut self,
        alloc: Global,
        credentials: &Credentials,
        piece: &'a [u8],
        out: &mut Vec<u8>,
    ) -> Result<&'a [u8], AllocError>
        ensures text { OnOk result
            (out.new.items ≡ out.old.items ++ (heard credentials.now self.old piece.now).text) }
        ensures state { OnOk result (self.new ≡ (heard credentials.now self.old piece.now).state) }
        ensures unread { IfOk result (λ rest. rest.now ≡ (heard credentials.now self.old piece.now).unread) }
    {
        let mut rest = piece;
        while let [octet, later @ ..] = rest {
            if !self.progress.stage.is_waiting() {
                return Ok(rest);
            }
            self.take_octet(alloc, credentials, *octet, out)?;
            rest = later;
        }
        Ok(rest)
    }

    fn take_octet(
        &mut self,
        alloc: Global,
        credentials: &Credentials,
        octet: u8,
        out: &mut Vec<u8>,
    ) -> Result<(), AllocError>
        ensures text { OnOk result
            (out.new.items ≡ out.old.items ++ (octet_answer credentials.now self.old octet).text) }
        ensures state { OnOk result (self.new ≡ octet_state credentials.now self.old octet) }
    {
        match self.framer.feed(alloc, &[octet]) {
            Ok(frames) => self
                .progress
                .take_frames(alloc, credentials, frames.as_slice(), out),
            Err(LexError::Memory) => Err(AllocError),
            // After a hangup the stream has no frames.
            Err(LexError::Closed) => Ok(()),
        }
    }
}
