//! What is written to a connection.

use crate::connection::Connection;
use imap_login::front_length;
use std::io::{self, Write};
use std::sync::Arc;
use std::time::Duration;

/// The writer of a connection that is read elsewhere. Both share one descriptor.
#[derive(Drop)]
pub struct SharedStream {
    stream: Arc<Connection>,
    /// The line that is left out, if the next write begins with it.
    left_out: Option<Vec<u8>>,
}

impl SharedStream {
    /// The writer of a connection.
    pub(crate) fn new(stream: Arc<Connection>) -> SharedStream {
        SharedStream {
            stream,
            left_out: None,
        }
    }

    /// Leaves out this line, if the next write begins with it.
    pub(crate) fn leave_out(&mut self, line: Vec<u8>) {
        self.left_out = Some(line);
    }

    /// A write that waits longer fails.
    pub(crate) fn set_timeout(&self, timeout: Duration) -> io::Result<()> {
        self.stream.set_write_timeout(timeout)
    }
}

impl Write for SharedStream {
    fn write(&mut self, buf: &[u8]) -> io::Result<usize> {
        if let Some(line) = self.left_out.take() {
            let count = front_length(line.as_slice(), buf);
            if count > 0 {
                return Ok(count);
            }
        }
        (&*self.stream).write(buf)
    }

    fn flush(&mut self) -> io::Result<()> {
        Ok(())
    }
}
