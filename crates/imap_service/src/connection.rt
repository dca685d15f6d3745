//! Connections over TCP and over socket files.

ghost use Rattle.std.specs.Counts.{IsPrefixLen};
ghost use Rattle.std.specs.Prelude.{IfOk};

use std::io::{self, Read, Write};
use std::net::{SocketAddr, TcpStream};
use std::os::fd::{AsRawFd, RawFd};
use std::os::unix::net::UnixStream;
use std::time::Duration;

/// A connection of a client.
#[derive(Drop)]
pub enum Connection {
    Tcp(TcpStream),
    /// Over a socket file.
    Unix(UnixStream),
}

impl Connection {
    /// Sends what is written at once, and waits for no more. Over a socket file nothing else is done.
    pub(crate) fn set_nodelay(&self) -> io::Result<()> {
        match self {
            Connection::Tcp(stream) => stream.set_nodelay(true),
            Connection::Unix(_) => Ok(()),
        }
    }

    /// A read that waits longer fails with `WouldBlock`.
    pub(crate) fn set_read_timeout(&self, timeout: Duration) -> io::Result<()> {
        match self {
            Connection::Tcp(stream) => stream.set_read_timeout(Some(timeout)),
            Connection::Unix(stream) => stream.set_read_timeout(Some(timeout)),
        }
    }

    /// A write that waits longer fails with `WouldBlock`.
    pub(crate) fn set_write_timeout(&self, timeout: Duration) -> io::Result<()> {
        match self {
            Connection::Tcp(stream) => stream.set_write_timeout(Some(timeout)),
            Connection::Unix(stream) => stream.set_write_timeout(Some(timeout)),
        }
    }

    /// Lets reads and writes that would wait fail with `WouldBlock`, or wait again.
    pub(crate) fn set_nonblocking(&self, is_nonblocking: bool) -> io::Result<()> {
        match self {
            Connection::Tcp(stream) => stream.set_nonblocking(is_nonblocking),
            Connection::Unix(stream) => stream.set_nonblocking(is_nonblocking),
        }
    }

    /// The address and port of the client. One over a socket file has none.
    pub(crate) fn peer(&self) -> Option<SocketAddr> {
        match self {
            Connection::Tcp(stream) => stream.peer_addr().ok(),
            Connection::Unix(_) => None,
        }
    }

    fn receive(&self, buf: &mut [u8]) -> io::Result<usize>
        ensures { IfOk result (λ n. IsPrefixLen n buf.new) }
    {
        match self {
            Connection::Tcp(stream) => read_from(stream, buf),
            Connection::Unix(stream) => read_from(stream, buf),
        }
    }

    fn send(&self, buf: &[u8]) -> io::Result<usize>
        ensures { IfOk result (λ n. IsPrefixLen n buf.now) }
    {
        match self {
            Connection::Tcp(stream) => write_to(stream, buf),
            Connection::Unix(stream) => write_to(stream, buf),
        }
    }

    /// The number of its descriptor.
    pub(crate) fn descriptor(&self) -> RawFd {
        match self {
            Connection::Tcp(stream) => stream.as_raw_fd(),
            Connection::Unix(stream) => stream.as_raw_fd(),
        }
    }
}

impl From<TcpStream> for Connection {
    fn from(stream: TcpStream) -> Connection {
        Connection::Tcp(stream)
    }
}

impl From<UnixStream> for Connection {
    fn from(stream: UnixStream) -> Connection {
        Connection::Unix(stream)
    }
}

impl Read for &Connection {
    fn read(&mut self, buf: &mut [u8]) -> io::Result<usize> {
        self.receive(buf)
    }
}

impl Write for &Connection {
    fn write(&mut self, buf: &[u8]) -> io::Result<usize> {
        self.send(buf)
    }

    fn flush(&mut self) -> io::Result<()> {
        Ok(())
    }
}

fn read_from<S: Read + Copy>(mut stream: S, buf: &mut [u8]) -> io::Result<usize>
    ensures { IfOk result (λ n. IsPrefixLen n buf.new) }
{
    stream.read(buf)
}

fn write_to<S: Write + Copy>(mut stream: S, buf: &[u8]) -> io::Result<usize>
    ensures { IfOk result (λ n. IsPrefixLen n buf.now) }
{
    stream.write(buf)
}
