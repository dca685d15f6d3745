//! Connections that are ended when their first line is no command of IMAP.

use crate::connection::Connection;
use crate::first_line::{FirstLine, Opening};
use crate::refusing::say_goodbye;
use crate::wakeable_stream::WakeableStream;
use std::alloc::Global;
use std::io::{self, Cursor, Read};
use std::net::{Net, TcpListener, TcpStream};
use std::rt::Clock;
use std::sync::{Arc, Wait};

/// A connection as it is read. If its first line is no command of IMAP, it is answered by a BYE, and the input is at
/// its end: what comes with the octet that shows it and after it is not handed on. What comes before it is no whole
/// line.
#[derive(Drop)]
pub struct GuardedStream<'a, R: Net<Listener = TcpListener, Stream = TcpStream> + Wait + Clock> {
    input: WakeableStream<'a, R>,
    stream: Arc<Connection>,
    /// The first line, unless it was looked at before.
    line: Option<FirstLine>,
    /// The octets that are read before anything else.
    first: Cursor<Vec<u8>>,
}

impl<'a, R: Net<Listener = TcpListener, Stream = TcpStream> + Wait + Clock> GuardedStream<'a, R> {
    /// The connection `stream`, which `input` reads.
    pub(crate) fn new(
        alloc: Global,
        input: WakeableStream<'a, R>,
        stream: Arc<Connection>,
    ) -> GuardedStream<'a, R> {
        GuardedStream {
            input,
            stream,
            line: Some(FirstLine::new(alloc)),
            first: Cursor::new(Vec::new(alloc)),
        }
    }

    /// Lets these octets be read before all that is still to come. The first line of the connection was looked at.
    pub(crate) fn go_on_with(&mut self, octets: Vec<u8>) {
        self.first = Cursor::new(octets);
        self.line = None;
    }

    /// Looks at what was read. Returns whether it may be handed on.
    fn is_passed(&mut self, octets: &[u8]) -> io::Result<bool> {
        match &mut self.line {
            Some(line) => {
                if line.opening() == Opening::Open {
                    line.take(octets)?;
                }
                Ok(line.opening() != Opening::Refused)
            }
            None => Ok(true),
        }
    }
}

impl<'a, R: Net<Listener = TcpListener, Stream = TcpStream> + Wait + Clock> Read
    for GuardedStream<'a, R> {
    fn read(&mut self, buf: &mut [u8]) -> io::Result<usize> {
        let count = self.first.read(buf)?;
        if count > 0 {
            return Ok(count);
        }
        let count = self.input.read(buf)?;
        if self.is_passed(&buf[..count])? {
            return Ok(count);
        }
        say_goodbye(&self.stream);
        Ok(0)
    }
}
