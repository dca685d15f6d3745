//! Reads that bring nothing, and wakes.

use crate::owned::both;
use crate::peers::{connection, listener};
use imap_service::{
    Connection, IDLE_TICKS, IdleTicks, IdleWakers, TICKS_PER_SECOND, WakeableStream,
};
use std::alloc::Global;
use std::io::{self, ErrorKind, Read, Write};
use std::net::{Net, TcpListener, TcpStream};
use std::rt::Clock;
use std::sync::{Arc, Wait};
use std::time::Instant;

/// Returns after how many seconds a session ends whose worker is woken `wakes_per_second` times in each second.
fn seconds_until_end(wakes_per_second: u64) -> u64 {
    let mut ticks = IdleTicks::new();
    let mut wakes: u64 = 0;
    let mut seconds: u64 = 0;
    for _ in 0..IDLE_TICKS {
        if ticks.take_owed() {
            continue;
        }
        if wakes < wakes_per_second && ticks.may_wake() {
            ticks.count_wake();
            wakes = wakes.saturating_add(1);
        } else {
            ticks.end_second();
            wakes = 0;
            seconds = seconds.saturating_add(1);
        }
    }
    seconds
}

/// A session ends after 30 minutes of silence, however often its worker is woken.
#[test]
fn wakes_end_no_session_sooner(rt: HostRuntime) {
    const ROWS: &[u64] = &[0, 1, 5, 31, 32, 1000];
    for &wakes in ROWS {
        let seconds = seconds_until_end(wakes);
        assert!(rt; seconds == 1800, "{wakes}: {seconds}");
    }
}

/// How many milliseconds `reads` reads take that bring nothing. The workers are woken before each.
fn millis_of<R: Net<Listener = TcpListener, Stream = TcpStream> + Wait + Clock>(
    rt: &R,
    wakers: &IdleWakers,
    input: &mut WakeableStream<'_, R>,
    reads: u64,
) -> io::Result<u128> {
    let start = Instant::now(rt)?;
    let mut buf = [0u8; 16];
    for _ in 0..reads {
        wakers.wake_all(rt);
        match input.read(&mut buf) {
            Err(error) if error.kind() == ErrorKind::WouldBlock => {}
            _ => return Err(io::Error::from(ErrorKind::InvalidData)),
        }
    }
    Ok(start.elapsed(rt)?.as_millis())
}

/// What a connection did whose worker is woken.
#[derive(Clone, Copy, Debug, PartialEq, Eq)]
struct Times {
    /// How many milliseconds the reads took that a wake ended.
    woken: u128,
    /// How many the last read of the second took.
    last: u128,
    /// How many octets two reads brought.
    count: usize,
    /// How many milliseconds a read took after that, which a wake ended.
    after: u128,
}

/// How many octets two reads bring after the client has sent two commands.
fn read_twice<R: Net<Listener = TcpListener, Stream = TcpStream> + Wait + Clock>(
    input: &mut WakeableStream<'_, R>,
    client: &mut TcpStream,
) -> io::Result<usize> {
    client.write_all(b"a1 NOOP\r\na2 NOOP\r\n")?;
    let mut buf = [0u8; 16];
    let first = input.read(&mut buf)?;
    let second = input.read(&mut buf)?;
    Ok(first.saturating_add(second))
}

/// What the worker of this stream does.
fn times_of<R: Net<Listener = TcpListener, Stream = TcpStream> + Wait + Clock>(
    rt: &R,
    wakers: &IdleWakers,
    input: &mut WakeableStream<'_, R>,
    client: &mut TcpStream,
) -> io::Result<Times> {
    let woken = millis_of(rt, wakers, input, TICKS_PER_SECOND - 1)?;
    let last = millis_of(rt, wakers, input, 1)?;
    let count = read_twice(input, client)?;
    let after = millis_of(rt, wakers, input, 1)?;
    Ok(Times {
        woken,
        last,
        count,
        after,
    })
}

fn shared<T: Drop>(alloc: Global, value: T) -> io::Result<Arc<T>> {
    Ok(Arc::new(alloc, value)?)
}

fn waited<R: Net<Listener = TcpListener, Stream = TcpStream> + Wait + Clock + AllocGlobal>(
    rt: &R,
    wakers: &IdleWakers,
) -> io::Result<Times> {
    let [waker, ..] = wakers.as_slice() else {
        return Err(io::Error::from(ErrorKind::InvalidData));
    };
    let listener = listener(rt)?;
    let (client, input) = connection(rt, &listener)?;
    drop(listener);
    let (input, mut client) = both(shared(rt.alloc(), Connection::from(input)), Ok(client))?;
    match WakeableStream::new(rt, rt.alloc(), wakers, waker, input) {
        Ok(mut input) => times_of(rt, wakers, &mut input, &mut client),
        Err(error) => Err(error),
    }
}

fn waited_anew<R: Net<Listener = TcpListener, Stream = TcpStream> + Wait + Clock + AllocGlobal>(
    rt: &R,
) -> io::Result<Times> {
    let wakers = IdleWakers::new(rt.alloc(), 1)?;
    waited(rt, &wakers)
}

/// Wakes end 31 reads at once. The next one ends when the second has passed. Octets that don't fit into one read
/// come by the next, and then a wake ends a read again.
#[test]
fn a_wake_ends_a_read(rt: HostRuntime) {
    match waited_anew(&rt) {
        Ok(waited) => {
            assert!(rt;
                waited.woken < 1000
                    && waited.woken.saturating_add(waited.last) >= 998
                    && waited.count == 18
                    && waited.after < 1000,
                "{waited:?}"
            );
        }
        Err(error) => panic!(rt; "{error:?}"),
    }
}
