//! Connections that come at a port, handed to the port's workers.
//!
//! One thread accepts for all workers of a port: so it knows whether a connection is one too many, and the listener
//! has one descriptor. A connection that comes while the last busy worker becomes free may still be refused.

use crate::accept_faults::AcceptFaults;
use crate::arrival::Arrival;
use crate::connection::Connection;
use crate::listener::Listener;
use crate::refusing::say_goodbye;
use crate::report::Report;
use imap_names::UserName;
use std::alloc::{AllocError, Global};
use std::collections::VecDeque;
use std::os::fd::RawFd;
use std::rt::Clock;
use std::sync::{Condvar, Mutex, Wait};
use std::{io, thread};

/// How many connections a user may have at once.
pub const SEATS: usize = 16;

/// Clients who wait for a worker, and how many workers have one.
#[derive(Drop)]
struct Queue {
    clients: VecDeque<Arrival>,
    /// How many clients wait or are served.
    taken: usize,
    /// Whether no client comes any more.
    is_closed: bool,
}

/// The reception of the clients of one port.
#[derive(Drop)]
pub struct Reception {
    listener: Listener,
    queue: Mutex<Queue>,
    arrived: Condvar,
}

impl Reception {
    /// Receives the clients of a listener.
    pub fn new(alloc: Global, listener: Listener) -> Result<Reception, AllocError> {
        let queue = Queue {
            clients: VecDeque::with_capacity(alloc, SEATS)?,
            taken: 0,
            is_closed: false,
        };
        Ok(Reception {
            listener,
            queue: Mutex::new(queue),
            arrived: Condvar::new(),
        })
    }

    /// The number of the descriptor at which clients are received.
    pub fn descriptor(&self) -> RawFd {
        self.listener.descriptor()
    }

    /// Lets an accept that would wait fail with `WouldBlock`.
    pub(crate) fn set_nonblocking(&self) -> io::Result<()> {
        self.listener.set_nonblocking()
    }

    /// Returns the next connection.
    pub(crate) fn accept(&self) -> io::Result<Connection> {
        self.listener.accept()
    }

    /// How many clients wait or are served.
    pub fn taken<R: Wait>(&self, rt: &R) -> usize {
        self.queue.lock(rt).taken
    }

    /// Receives clients who don't log in until no more can be had. Refuses a client if as many are served as may be.
    pub fn receive<R: Wait + Clock + Eprint>(
        &self,
        rt: &R,
        user: &UserName,
        report: &Report<'_, R>,
    ) {
        let mut faults = AcceptFaults::new();
        for _ in rt.forever() {
            match self.listener.accept() {
                Ok(client) => {
                    faults = AcceptFaults::new();
                    self.admit(rt, user, report, client);
                }
                Err(error) => {
                    if !faults.may_go_on(&error) {
                        break;
                    }
                    thread::sleep(rt, faults.pause());
                }
            }
        }
        self.close(rt);
    }

    /// Hands a client who doesn't log in to the workers, or refuses it.
    pub fn admit<R: Wait + Eprint>(
        &self,
        rt: &R,
        user: &UserName,
        report: &Report<'_, R>,
        connection: Connection,
    ) {
        let client = Arrival {
            connection,
            after_login: None,
        };
        self.admit_arrival(rt, user, report, client);
    }

    /// Hands a client to the workers, or refuses it.
    pub(crate) fn admit_arrival<R: Wait + Eprint>(
        &self,
        rt: &R,
        user: &UserName,
        report: &Report<'_, R>,
        client: Arrival,
    ) {
        match self.enter(rt, client) {
            None => self.arrived.notify_one(),
            Some(client) => {
                report.refused(user, client.connection.peer());
                say_goodbye(&client.connection);
            }
        }
    }

    /// Puts a client where a worker takes it from. Hands it back if as many are served as may be.
    fn enter<R: Wait>(&self, rt: &R, client: Arrival) -> Option<Arrival> {
        let mut queue = self.queue.lock(rt);
        if queue.taken >= SEATS {
            return Some(client);
        }
        // Without memory the connection is closed.
        if queue.clients.push_back(client).is_ok() {
            queue.taken = queue.taken.saturating_add(1);
        }
        None
    }

    /// Waits for the next client. Returns `None` if none comes any more.
    pub(crate) fn take<R: Wait>(&self, rt: &R) -> Option<Arrival> {
        let queue = self.queue.lock(rt);
        let mut queue = self
            .arrived
            .wait_while(rt, queue, |queue: &mut Queue| is_waiting(queue));
        queue.clients.pop_front()
    }

    /// A client that was taken is served no more.
    pub fn leave<R: Wait>(&self, rt: &R) {
        let mut queue = self.queue.lock(rt);
        queue.taken = queue.taken.saturating_sub(1);
    }

    /// No client comes any more.
    pub fn close<R: Wait>(&self, rt: &R) {
        self.queue.lock(rt).is_closed = true;
        self.arrived.notify_all();
    }
}

/// Whether a worker has to wait.
fn is_waiting(queue: &Queue) -> bool {
    queue.clients.is_empty() && !queue.is_closed
}
