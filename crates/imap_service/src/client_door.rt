//! Doors of the workers who serve the clients of a port.
//!
//! The socket stays blocking, since a writer's `WouldBlock` is a failed write. Its reads end after a
//! millisecond by a timeout of their own, and its writes after minutes in which the client took nothing.

use crate::arrival::Arrival;
use crate::connection::Connection;
use crate::greetings::leave_out_greeting;
use crate::guarded_stream::GuardedStream;
use crate::idle_waker::{IdleWaker, IdleWakers};
use crate::owned::{beside, shared};
use crate::reception::Reception;
use crate::report::Report;
use crate::shared_stream::SharedStream;
use crate::wakeable_stream::WakeableStream;
use imap_host::{Door, End, ServeError};
use imap_names::UserName;
use imap_options::DialectName;
use std::alloc::Global;
use std::io;
use std::net::{Net, TcpListener, TcpStream};
use std::rt::Clock;
use std::sync::{Arc, Wait};
use std::time::Duration;

/// A worker's door to a port.
#[derive(Drop)]
pub struct ClientDoor<
    'a,
    R: Net<Listener = TcpListener, Stream = TcpStream> + Wait + Clock + Eprint,
> {
    pub rt: &'a R,
    pub alloc: Global,
    pub reception: &'a Reception,
    pub wakers: &'a IdleWakers,
    /// The worker's own, which is one of `wakers`.
    pub waker: &'a IdleWaker,
    pub report: &'a Report<'a, R>,
    pub user: &'a UserName,
    /// What clients are spoken to in.
    pub dialect: DialectName,
    /// The number of the worker's session.
    pub number: usize,
    /// The longest time for which a client may keep a reply from being written.
    pub write_timeout: Duration,
    /// Whether the worker has a client.
    pub has_client: bool,
}

impl<'a, R: Net<Listener = TcpListener, Stream = TcpStream> + Wait + Clock + Eprint> ClientDoor<
    'a,
    R,
> {
    /// Lets the client go that was served last.
    fn let_go(&mut self) {
        if self.has_client {
            self.waker.detach(self.rt);
            self.reception.leave(self.rt);
            self.has_client = false;
        }
    }

    /// Returns what is read of a client and what is written to it.
    fn connect(&self, client: Connection) -> io::Result<(GuardedStream<'a, R>, SharedStream)> {
        let (_, client) = beside(self.prepare(&client), client)?;
        let stream = shared(self.alloc, client)?;
        let (guarded, stream) = beside(self.guarded(&stream), stream)?;
        Ok((guarded, SharedStream::new(stream)))
    }

    fn prepare(&self, client: &Connection) -> io::Result<()> {
        client.set_nodelay()?;
        client.set_write_timeout(self.write_timeout)
    }

    /// Returns what is read of a client.
    fn guarded(&self, stream: &Arc<Connection>) -> io::Result<GuardedStream<'a, R>> {
        let input = WakeableStream::new(
            self.rt,
            self.alloc,
            self.wakers,
            self.waker,
            stream.clone()?,
        )?;
        let (stream, input) = beside(stream.clone(), input)?;
        Ok(GuardedStream::new(self.alloc, input, stream))
    }

    /// Returns what is read of a client and what is written to it, if the client can be served.
    fn admitted(&self, client: Arrival) -> Option<(GuardedStream<'a, R>, SharedStream)> {
        let Arrival {
            connection,
            after_login,
        } = client;
        let peer = connection.peer();
        let (mut input, mut output) = self.connect(connection).ok()?;
        if let Some(octets) = after_login {
            leave_out_greeting(self.alloc, self.dialect, &mut output).ok()?;
            input.go_on_with(octets);
        }
        let sessions = self.reception.taken(self.rt);
        self.report.opened(self.user, self.number, sessions, peer);
        Some((input, output))
    }
}

impl<'a, R: Net<Listener = TcpListener, Stream = TcpStream> + Wait + Clock + Eprint + Sync> Door
    for ClientDoor<'a, R> {
    type In = GuardedStream<'a, R>;

    type Out = SharedStream;

    /// Returns the next client, or `None` if none comes any more. A client that can't be served, for want of
    /// descriptors or memory, is let go.
    fn next(&mut self) -> Option<(GuardedStream<'a, R>, SharedStream)> {
        for _ in self.rt.forever() {
            self.let_go();
            let client = self.reception.take(self.rt)?;
            self.has_client = true;
            if let Some(streams) = self.admitted(client) {
                return Some(streams);
            }
        }
        None
    }

    fn ended(&mut self, end: Result<End, ServeError>) {
        let others = self.reception.taken(self.rt).saturating_sub(1);
        self.report.ended(self.user, self.number, others, why(end));
    }
}

/// How a session ended, in words.
fn why(end: Result<End, ServeError>) -> &'static str {
    match end {
        Ok(End::Closed) => "closed",
        Ok(End::InputEnded) => "the client left",
        Ok(End::Idle) => "idle too long",
        Err(ServeError::Memory) => "out of memory",
        Err(ServeError::Read) => "the connection can't be read",
        Err(ServeError::Write) => "the connection can't be written",
        Err(ServeError::Exhausted) => "the journal is at its end",
    }
}
