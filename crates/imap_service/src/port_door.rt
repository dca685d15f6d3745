//! What the threads of a port do.
//!
//! The crew runs a thread for each post, and returns when all have ended. So the thread that receives a port's clients
//! has a post too, with a seat in which no session is opened.

use crate::client_door::ClientDoor;
use crate::guarded_stream::GuardedStream;
use crate::pending_logins::{LoginPort, PendingLogins};
use crate::reception::Reception;
use crate::report::Report;
use crate::shared_stream::SharedStream;
use imap_host::{Door, End, ServeError};
use imap_login::Credentials;
use imap_names::UserName;
use imap_options::DialectName;
use std::alloc::Global;
use std::net::{Net, TcpListener, TcpStream};
use std::rt::Clock;
use std::sync::Wait;

/// What a thread does for a port.
#[derive(Drop)]
pub enum PortDoor<'a, R: Net<Listener = TcpListener, Stream = TcpStream> + Wait + Clock + Eprint> {
    /// It serves one client after the other.
    Serving(ClientDoor<'a, R>),
    /// It receives clients for those that serve.
    Receiving(Receptionist<'a, R>),
}

/// Receives the clients of a port.
#[derive(Drop)]
pub struct Receptionist<'a, R: Wait + Clock + Eprint> {
    pub rt: &'a R,
    pub alloc: Global,
    pub reception: &'a Reception,
    pub user: &'a UserName,
    /// What clients log in with, if they are to.
    pub credentials: &'a Option<Credentials>,
    /// What clients who log in are spoken to in.
    pub dialect: DialectName,
    pub report: &'a Report<'a, R>,
}

impl<'a, R: Net<Listener = TcpListener, Stream = TcpStream> + Wait + Clock + Eprint> Receptionist<
    'a,
    R,
> {
    /// Receives clients until no more can be had.
    fn receive(&self) {
        match self.credentials {
            Some(credentials) => self.receive_logins(&LoginPort {
                rt: self.rt,
                alloc: self.alloc,
                reception: self.reception,
                user: self.user,
                credentials,
                dialect: self.dialect,
                report: self.report,
            }),
            None => self.reception.receive(self.rt, self.user, self.report),
        }
    }

    /// Receives clients who log in until no more can be had.
    fn receive_logins(&self, port: &LoginPort<'_, R>) {
        if let Ok(mut logins) = PendingLogins::new(port) {
            for _ in self.rt.forever() {
                if logins.turn(port).is_err() {
                    break;
                }
            }
        }
        self.reception.close(self.rt);
    }
}

impl<'a, R: Net<Listener = TcpListener, Stream = TcpStream> + Wait + Clock + Eprint + Sync> Door
    for PortDoor<'a, R> {
    type In = GuardedStream<'a, R>;

    type Out = SharedStream;

    fn next(&mut self) -> Option<(GuardedStream<'a, R>, SharedStream)> {
        match self {
            PortDoor::Serving(door) => door.next(),
            PortDoor::Receiving(door) => {
                door.receive();
                None
            }
        }
    }

    fn ended(&mut self, end: Result<End, ServeError>) {
        match self {
            PortDoor::Serving(door) => door.ended(end),
            PortDoor::Receiving(_) => {}
        }
    }
}
