//! A connection whose client is to log in.
//!
//! Its reads and writes don't wait. A client who doesn't take an answer at once is let go.

use crate::arrival::Arrival;
use crate::connection::Connection;
use crate::first_line::{FirstLine, Opening};
use crate::greetings::{capabilities_in, greeting};
use crate::wrong_logins::WrongLogins;
use imap_login::{Credentials, Login, Stage, farewell};
use imap_options::DialectName;
use std::alloc::Global;
use std::io::{self, ErrorKind, Read, Write};
use std::mem;
use std::time::{Duration, Instant};

/// The seconds that a client may take to log in.
const LOGIN_SECONDS: u64 = 60;

/// The most octets that one read takes.
const PIECE_OCTETS: usize = 1024;

/// The words of an answer to a wrong login (RFC 5530). A tag has no space, so no other answer has them.
const WRONG: &[u8] = b" NO [AUTHENTICATIONFAILED] ";

/// An answer to a wrong login, and when it is given.
#[derive(Drop)]
struct Held {
    text: Vec<u8>,
    due: Instant,
}

/// What a client has done.
#[derive(Clone, Copy, PartialEq, Eq)]
pub(crate) enum Progress {
    Waits,
    Entered,
    /// The connection is to be closed.
    Left,
    /// The same, since its first line is no command of IMAP.
    Strange,
}

/// A connection whose client is to log in.
#[derive(Drop)]
pub(crate) struct PendingLogin {
    connection: Connection,
    first_line: FirstLine,
    login: Login,
    /// What the client said behind a wrong login whose answer is held back, or behind the right one.
    unread: Vec<u8>,
    held: Option<Held>,
    /// When the client is late.
    until: Instant,
    /// Whether there may be something to read.
    is_ready: bool,
}

/// What is looked up while a client logs in.
#[derive(Drop)]
pub(crate) struct LoginContext<'a> {
    pub(crate) alloc: Global,
    pub(crate) credentials: &'a Credentials,
    pub(crate) now: Instant,
}

impl PendingLogin {
    /// Greets a client who came now.
    pub(crate) fn new(
        alloc: Global,
        dialect: DialectName,
        connection: Connection,
        now: Instant,
    ) -> Option<PendingLogin> {
        let until = now.checked_add(Duration::from_secs(LOGIN_SECONDS))?;
        if greet(alloc, dialect, &connection).is_err() {
            return None;
        }
        Some(PendingLogin {
            connection,
            first_line: FirstLine::new(alloc),
            login: Login::new(alloc, capabilities_in(dialect)),
            unread: Vec::new(alloc),
            held: None,
            until,
            is_ready: true,
        })
    }

    pub(crate) fn connection(&self) -> &Connection {
        &self.connection
    }

    /// When the client is late.
    pub(crate) fn until(&self) -> Instant {
        self.until
    }

    /// Whether the answer to a wrong login is held back.
    pub(crate) fn is_held(&self) -> bool {
        self.held.is_some()
    }

    /// There may be something to read.
    pub(crate) fn wake(&mut self) {
        self.is_ready = true;
    }

    /// How long there is nothing to do unless the client says something.
    pub(crate) fn rest(&self, now: Instant) -> Duration {
        match &self.held {
            Some(held) => held.due.saturating_duration_since(now),
            None if self.is_ready => Duration::ZERO,
            None => self.until.saturating_duration_since(now),
        }
    }

    /// Hands the client on who has logged in.
    pub(crate) fn into_arrival(self) -> Arrival {
        let PendingLogin {
            connection,
            unread,
            first_line: _,
            login: _,
            held: _,
            until: _,
            is_ready: _,
        } = self;
        Arrival {
            connection,
            after_login: Some(unread),
        }
    }

    /// Goes on: answers what is due, or reads once and answers that. Fails if the connection failed.
    pub(crate) fn go_on(
        &mut self,
        context: &LoginContext<'_>,
        wrong: &mut WrongLogins,
    ) -> io::Result<Progress> {
        if let Some(held) = &self.held {
            if context.now < held.due {
                return Ok(Progress::Waits);
            }
            return self.let_go(context, wrong);
        }
        if context.now >= self.until {
            self.write(farewell())?;
            return Ok(Progress::Left);
        }
        if self.is_ready {
            return self.read(context, wrong);
        }
        Ok(Progress::Waits)
    }

    /// Gives the answer that was held back, and goes on with what came after the wrong login.
    fn let_go(
        &mut self,
        context: &LoginContext<'_>,
        wrong: &mut WrongLogins,
    ) -> io::Result<Progress> {
        if let Some(held) = mem::take(&mut self.held) {
            self.write(held.text.as_slice())?;
        }
        let unread = mem::replace(&mut self.unread, Vec::new(context.alloc));
        self.answer(context, wrong, unread.as_slice())?;
        Ok(self.progress())
    }

    /// Reads once, and answers what came.
    fn read(
        &mut self,
        context: &LoginContext<'_>,
        wrong: &mut WrongLogins,
    ) -> io::Result<Progress> {
        let mut piece = [0u8; PIECE_OCTETS];
        match (&self.connection).read(&mut piece) {
            Ok(0) => Ok(Progress::Left),
            Ok(count) => self.take(context, wrong, &piece[..count]),
            Err(error) if error.kind() == ErrorKind::WouldBlock => {
                self.is_ready = false;
                Ok(Progress::Waits)
            }
            Err(error) if error.kind() == ErrorKind::Interrupted => Ok(Progress::Waits),
            Err(error) => Err(error),
        }
    }

    /// Answers these octets, unless the connection doesn't begin as one of IMAP.
    fn take(
        &mut self,
        context: &LoginContext<'_>,
        wrong: &mut WrongLogins,
        piece: &[u8],
    ) -> io::Result<Progress> {
        if self.first_line.opening() == Opening::Open {
            self.first_line.take(piece)?;
        }
        if self.first_line.opening() == Opening::Refused {
            return Ok(Progress::Strange);
        }
        self.answer(context, wrong, piece)?;
        Ok(self.progress())
    }

    /// Answers octets line by line, up to a wrong login or the right one.
    fn answer(
        &mut self,
        context: &LoginContext<'_>,
        wrong: &mut WrongLogins,
        octets: &[u8],
    ) -> io::Result<()> {
        for line in octets.split_inclusive(|octet: &u8| *octet == b'\n') {
            if self.held.is_none() && matches!(self.login.stage(), Stage::Waiting) {
                self.answer_line(context, wrong, line)?;
            } else {
                self.unread.extend_from_slice(line)?;
            }
        }
        Ok(())
    }

    /// Answers octets of which none but the last may end a line, at once or after a pause.
    fn answer_line(
        &mut self,
        context: &LoginContext<'_>,
        wrong: &mut WrongLogins,
        line: &[u8],
    ) -> io::Result<()> {
        let mut text = Vec::new(context.alloc);
        let rest = self
            .login
            .take(context.alloc, context.credentials, line, &mut text)?;
        self.unread.extend_from_slice(rest)?;
        if has_wrong_login(text.as_slice()) {
            let due = context.now.checked_add(wrong.add());
            self.hold(text, due);
            return Ok(());
        }
        self.write(text.as_slice())
    }

    /// Holds the answer to a wrong login back until it is due.
    fn hold(&mut self, text: Vec<u8>, due: Option<Instant>) {
        // A moment that is too late for the clock isn't waited for.
        let due = due.unwrap_or(self.until);
        self.held = Some(Held { text, due });
    }

    /// Where the login stands.
    fn progress(&self) -> Progress {
        match self.login.stage() {
            _ if self.held.is_some() => Progress::Waits,
            Stage::Waiting => Progress::Waits,
            Stage::Entered => Progress::Entered,
            Stage::Closed => Progress::Left,
        }
    }

    fn write(&self, text: &[u8]) -> io::Result<()> {
        (&self.connection).write_all(text)
    }
}

/// Lets the connection not wait, and writes its first line.
fn greet(alloc: Global, dialect: DialectName, connection: &Connection) -> io::Result<()> {
    connection.set_nonblocking(true)?;
    connection.set_nodelay()?;
    let line = greeting(alloc, dialect)?;
    (&*connection).write_all(line.as_slice())
}

/// Whether the answer to a line is one to a wrong login.
fn has_wrong_login(text: &[u8]) -> bool {
    text.windows(WRONG.len()).any(|window| window == WRONG)
}
