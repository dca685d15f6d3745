//! Connections whose reads end when their worker is woken.
//!
//! A worker reads its connection by one call as long as its client sends. Once nothing has come for a
//! millisecond it waits at once for its connection and its waker (`mio`), so that a client that sends one
//! command after another costs no call more than by a plain reader.

ghost use Rattle.std.specs.Counts.{IsPrefixLen};
ghost use Rattle.std.specs.Prelude.{IfOk};

use crate::connection::Connection;
use crate::idle_ticks::IdleTicks;
use crate::idle_waker::{CONNECTION, IdleWaker, IdleWakers};
use crate::owned::beside;
use mio::unix::SourceFd;
use mio::{Events, Interest, Poll};
use std::alloc::Global;
use std::io::{self, ErrorKind, Read};
use std::net::{Net, TcpListener, TcpStream};
use std::rt::Clock;
use std::sync::{Arc, Wait};
use std::time::{Duration, Instant};

/// The milliseconds without an octet after which a client pauses. Its worker isn't woken before.
const PAUSE_MILLIS: u64 = 1;

/// Why a wait has ended.
#[derive(Clone, Copy)]
enum Woken {
    /// The client has sent something, or closed the connection.
    Connection,
    /// All workers were woken.
    Waker,
    /// A second has passed.
    Second,
}

/// A connection. It is read by one call until the client pauses. Then a worker waits for it and for its waker at
/// once: a read that brings nothing ends when the worker is woken, or when a second has passed. A second has at most
/// [`TICKS_PER_SECOND`](crate::TICKS_PER_SECOND) reads that bring nothing, and at most all but one of them end by a
/// wake.
#[derive(Drop)]
pub struct WakeableStream<'a, R: Net<Listener = TcpListener, Stream = TcpStream> + Wait + Clock> {
    rt: &'a R,
    wakers: &'a IdleWakers,
    waker: &'a IdleWaker,
    stream: Arc<Connection>,
    /// The poll by which the worker waits for both.
    poll: Poll,
    events: Events,
    /// Whether the client has not paused since octets came.
    is_sending: bool,
    ticks: IdleTicks,
    /// The moment at which the second ends that has begun.
    until: Option<Instant>,
    /// The count of the wakers when a read brought nothing last.
    seen: u64,
}

impl<'a, R: Net<Listener = TcpListener, Stream = TcpStream> + Wait + Clock> WakeableStream<'a, R> {
    /// The connection `stream` of the worker of `waker`, which is one of `wakers`. Fails if the worker can't wait
    /// for it.
    pub fn new(
        rt: &'a R,
        alloc: Global,
        wakers: &'a IdleWakers,
        waker: &'a IdleWaker,
        stream: Arc<Connection>,
    ) -> io::Result<WakeableStream<'a, R>> {
        let ((poll, events), stream) = beside(watch(rt, alloc, waker, &stream), stream)?;
        Ok(WakeableStream {
            rt,
            wakers,
            waker,
            stream,
            poll,
            events,
            is_sending: false,
            ticks: IdleTicks::new(),
            until: None,
            seen: wakers.count(),
        })
    }

    /// How long the second still lasts. A second begins if none has.
    fn left(&mut self) -> io::Result<Duration> {
        let now = Instant::now(self.rt)?;
        match self.until {
            Some(until) => Ok(until.saturating_duration_since(now)),
            None => {
                let second = Duration::from_secs(1);
                self.until = now.checked_add(second);
                Ok(second)
            }
        }
    }

    fn wait(&mut self) -> io::Result<Woken> {
        let waker = self.waker;
        for _ in self.rt.forever() {
            let left = self.left()?;
            if left.is_zero() {
                return Ok(Woken::Second);
            }
            if self.ticks.may_wake() && self.wakers.arm(waker, self.seen) {
                self.wakers.disarm(waker);
                return Ok(Woken::Waker);
            }
            let polled = self.poll.poll(&mut self.events, Some(left));
            self.wakers.disarm(waker);
            polled?;
            if is_ready(&self.events) {
                return Ok(Woken::Connection);
            }
        }
        unreachable!()
    }

    /// Reads what comes before the client pauses, and begins to count ticks anew.
    fn take(&mut self, buf: &mut [u8]) -> io::Result<usize>
        ensures { IfOk result (λ n. IsPrefixLen n buf.new) }
    {
        let count = (&*self.stream).read(buf)?;
        self.is_sending = true;
        self.ticks = IdleTicks::new();
        self.until = None;
        Ok(count)
    }
}

/// Returns where the worker of `waker` waits for its connection and its waker, and room for what is ready there.
fn watch<R: Net + Wait>(
    rt: &R,
    alloc: Global,
    waker: &IdleWaker,
    stream: &Connection,
) -> io::Result<(Poll, Events)> {
    stream.set_read_timeout(Duration::from_millis(PAUSE_MILLIS))?;
    let poll = Poll::new(rt)?;
    let (_, poll) = beside(register(rt, waker, stream, &poll), poll)?;
    let (events, poll) = beside(Events::with_capacity(alloc, 2), poll)?;
    Ok((poll, events))
}

/// Lets waits of `poll` end when the connection is ready, or the worker is woken.
fn register<R: Wait>(
    rt: &R,
    waker: &IdleWaker,
    stream: &Connection,
    poll: &Poll,
) -> io::Result<()> {
    let descriptor = stream.descriptor();
    let registry = poll.registry();
    registry.register(&mut SourceFd(&descriptor), CONNECTION, Interest::READABLE)?;
    waker.attach(rt, poll)
}

/// Whether the connection is ready.
fn is_ready(events: &Events) -> bool {
    events.iter().any(|event| event.token() == CONNECTION)
}

/// The answer of a read that brings nothing.
fn nothing() -> io::Error {
    io::Error::from(ErrorKind::WouldBlock)
}

impl<'a, R: Net<Listener = TcpListener, Stream = TcpStream> + Wait + Clock> Read
    for WakeableStream<'a, R> {
    fn read(&mut self, buf: &mut [u8]) -> io::Result<usize> {
        if self.is_sending {
            match self.take(buf) {
                Err(error) if error.kind() == ErrorKind::WouldBlock => self.is_sending = false,
                taken => return taken,
            }
        }
        if self.ticks.take_owed() {
            return Err(nothing());
        }
        match self.wait()? {
            Woken::Connection => return self.take(buf),
            Woken::Waker => self.ticks.count_wake(),
            Woken::Second => {
                self.ticks.end_second();
                self.until = None;
            }
        }
        self.seen = self.wakers.count();
        Err(nothing())
    }
}
