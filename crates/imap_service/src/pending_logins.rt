//! The connections at a port whose clients are to log in.
//!
//! One thread serves all of them, so that none takes a worker before its client has logged in. It waits for all at
//! once, and for no single one.

use crate::accept_faults::AcceptFaults;
use crate::connection::Connection;
use crate::owned::beside;
use crate::pending_login::{LoginContext, PendingLogin, Progress};
use crate::reception::Reception;
use crate::refusing::say_goodbye;
use crate::report::Report;
use crate::wrong_logins::WrongLogins;
use imap_login::Credentials;
use imap_names::UserName;
use imap_options::DialectName;
use mio::unix::SourceFd;
use mio::{Events, Interest, Poll, Token};
use std::alloc::Global;
use std::io::{self, ErrorKind};
use std::net::{Net, TcpListener, TcpStream};
use std::os::fd::RawFd;
use std::rt::Clock;
use std::sync::Wait;
use std::time::{Duration, Instant};

/// How many connections may wait for their login at once.
pub const MAX_LOGINS: usize = 64;

/// A client comes. The connection at a place has the place as its token.
const LISTENER: Token = Token(MAX_LOGINS);

/// A port at which clients log in.
#[derive(Drop)]
pub struct LoginPort<'a, R: Wait + Clock + Eprint> {
    pub rt: &'a R,
    pub alloc: Global,
    pub reception: &'a Reception,
    pub user: &'a UserName,
    pub credentials: &'a Credentials,
    pub dialect: DialectName,
    pub report: &'a Report<'a, R>,
}

/// The connections of a port whose clients are to log in, and what they are waited for by.
#[derive(Drop)]
pub struct PendingLogins {
    poll: Poll,
    events: Events,
    /// A connection at each place that is taken.
    places: Vec<Option<PendingLogin>>,
    wrong: WrongLogins,
    faults: AcceptFaults,
    /// When clients are accepted next. `None` until one comes.
    accept_at: Option<Instant>,
}

impl PendingLogins {
    /// Begins to receive the clients of a port. Fails if they can't be waited for.
    pub fn new<R: Net<Listener = TcpListener, Stream = TcpStream> + Wait + Clock + Eprint>(
        port: &LoginPort<'_, R>,
    ) -> io::Result<PendingLogins> {
        let poll = Poll::new(port.rt)?;
        let (_, poll) = beside(watch(port.reception, &poll), poll)?;
        let (events, poll) = beside(Events::with_capacity(port.alloc, MAX_LOGINS + 1), poll)?;
        let (places, (poll, events)) = beside(free_places(port.alloc), (poll, events))?;
        Ok(PendingLogins {
            poll,
            events,
            places,
            wrong: WrongLogins::new(),
            faults: AcceptFaults::new(),
            accept_at: None,
        })
    }

    /// Waits until there is something to do, and goes on with each connection by one step. Fails if no client can be
    /// had any more.
    pub fn turn<R: Net<Listener = TcpListener, Stream = TcpStream> + Wait + Clock + Eprint>(
        &mut self,
        port: &LoginPort<'_, R>,
    ) -> io::Result<()> {
        let rest = self.rest(Instant::now(port.rt)?);
        self.poll.poll(&mut self.events, rest)?;
        let now = Instant::now(port.rt)?;
        self.note_events(now);
        if self.accept_at.is_some_and(|at| at <= now) {
            self.accept(port, now)?;
        }
        self.go_on(port, now);
        if let Some(count) = self.wrong.to_say(now) {
            port.report.wrong_login(port.user, count);
        }
        Ok(())
    }

    /// How long there is nothing to do unless a client comes or says something. `None` if no connection is there.
    fn rest(&self, now: Instant) -> Option<Duration> {
        let mut rest = self.accept_at.map(|at| at.saturating_duration_since(now));
        for login in self.places.iter().flatten() {
            let own = login.rest(now);
            rest = Some(rest.map_or(own, |least| least.min(own)));
        }
        rest
    }

    /// Notes who comes, and who says something.
    fn note_events(&mut self, now: Instant) {
        for event in &self.events {
            let token = event.token();
            if token == LISTENER {
                self.accept_at = Some(self.accept_at.unwrap_or(now));
            } else if let Some(Some(login)) = self.places.get_mut(token.0) {
                login.wake();
            }
        }
    }

    /// Accepts the next client, if there is one. Fails if none can be had any more.
    fn accept<R: Net<Listener = TcpListener, Stream = TcpStream> + Wait + Clock + Eprint>(
        &mut self,
        port: &LoginPort<'_, R>,
        now: Instant,
    ) -> io::Result<()> {
        match port.reception.accept() {
            Ok(connection) => {
                self.faults = AcceptFaults::new();
                self.admit(port, connection, now);
                Ok(())
            }
            Err(error) if error.kind() == ErrorKind::WouldBlock => {
                self.accept_at = None;
                Ok(())
            }
            Err(error) => {
                if !self.faults.may_go_on(&error) {
                    return Err(error);
                }
                self.accept_at = now.checked_add(self.faults.pause());
                Ok(())
            }
        }
    }

    /// Lets a client log in, if there is a place. If there is none, the client gets that of the one who has taken
    /// longest and whose wrong login isn't waited for.
    fn admit<R: Net<Listener = TcpListener, Stream = TcpStream> + Wait + Clock + Eprint>(
        &mut self,
        port: &LoginPort<'_, R>,
        connection: Connection,
        now: Instant,
    ) {
        match free_place(self.places.as_slice()) {
            Some(place) => self.greet(port, place, connection, now),
            None => refuse(port, &connection),
        }
    }

    /// Greets a client, for whom the place is.
    fn greet<R: Net<Listener = TcpListener, Stream = TcpStream> + Wait + Clock + Eprint>(
        &mut self,
        port: &LoginPort<'_, R>,
        place: usize,
        connection: Connection,
        now: Instant,
    ) {
        let descriptor = connection.descriptor();
        // Without a place in the poll the connection is closed.
        if register(&self.poll, descriptor, Token(place)).is_ok() {
            let login = PendingLogin::new(port.alloc, port.dialect, connection, now);
            if let Some(taken) = self.places.get_mut(place) {
                put(port, taken, login);
            }
        }
    }

    /// Goes on with each connection by one step.
    fn go_on<R: Net<Listener = TcpListener, Stream = TcpStream> + Wait + Clock + Eprint>(
        &mut self,
        port: &LoginPort<'_, R>,
        now: Instant,
    ) {
        let context = LoginContext {
            alloc: port.alloc,
            credentials: port.credentials,
            now,
        };
        for place in self.places.as_mut_slice() {
            if let Some(login) = place {
                let progress = login
                    .go_on(&context, &mut self.wrong)
                    .unwrap_or(Progress::Left);
                if progress != Progress::Waits {
                    end(port, &self.poll, &mut self.wrong, place, progress);
                }
            }
        }
    }
}

/// Puts a connection at a place. One that is there is told that it isn't served.
fn put<R: Wait + Clock + Eprint>(
    port: &LoginPort<'_, R>,
    place: &mut Option<PendingLogin>,
    login: Option<PendingLogin>,
) {
    if let Some(other) = place {
        refuse(port, other.connection());
    }
    *place = login;
}

/// Tells a client that there is no place, as far as the connection takes it.
fn refuse<R: Wait + Clock + Eprint>(port: &LoginPort<'_, R>, connection: &Connection) {
    port.report.refused(port.user, connection.peer());
    say_goodbye(connection);
}

/// Ends the wait for the client at a place: hands one who has logged in to the workers, and lets others go.
fn end<R: Wait + Clock + Eprint>(
    port: &LoginPort<'_, R>,
    poll: &Poll,
    wrong: &mut WrongLogins,
    place: &mut Option<PendingLogin>,
    progress: Progress,
) {
    let Some(login) = place.take() else {
        return;
    };
    if progress == Progress::Entered {
        wrong.clear();
        let descriptor = login.connection().descriptor();
        if release(poll, descriptor, login.connection()).is_ok() {
            port.reception
                .admit_arrival(port.rt, port.user, port.report, login.into_arrival());
        }
        return;
    }
    if progress == Progress::Strange {
        say_goodbye(login.connection());
    }
    port.report
        .not_logged_in(port.user, login.connection().peer());
}

/// Ends the wait for a connection, whose reads and writes wait from now on.
fn release(poll: &Poll, descriptor: RawFd, connection: &Connection) -> io::Result<()> {
    poll.registry().deregister(&mut SourceFd(&descriptor))?;
    connection.set_nonblocking(false)
}

/// Lets waits of `poll` end when a client comes, for whom an accept doesn't wait.
fn watch(reception: &Reception, poll: &Poll) -> io::Result<()> {
    reception.set_nonblocking()?;
    register(poll, reception.descriptor(), LISTENER)
}

fn register(poll: &Poll, descriptor: RawFd, token: Token) -> io::Result<()> {
    poll.registry()
        .register(&mut SourceFd(&descriptor), token, Interest::READABLE)
}

/// Places that are free.
fn free_places(alloc: Global) -> io::Result<Vec<Option<PendingLogin>>> {
    let mut places = Vec::new(alloc);
    for _ in 0..MAX_LOGINS {
        places.push(None)?;
    }
    Ok(places)
}

/// Returns a place that is free, or that of the client who is late first, of those whose wrong logins aren't waited
/// for.
fn free_place(places: &[Option<PendingLogin>]) -> Option<usize> {
    let mut found: Option<(usize, Instant)> = None;
    for (index, place) in places.iter().enumerate() {
        match place {
            None => return Some(index),
            Some(login) => {
                let until = login.until();
                let is_earlier = found.is_none_or(|(_, least)| until < least);
                if !login.is_held() && is_earlier {
                    found = Some((index, until));
                }
            }
        }
    }
    found.map(|(index, _)| index)
}
