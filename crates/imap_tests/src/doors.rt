//! Doors to connections in memory.

use imap_host::Door;
use imap_serve::{End, ServeError};
use std::io::{self, Write};

/// Takes what is written.
#[derive(Drop)]
pub(crate) struct Sink;

impl Write for Sink {
    fn write(&mut self, buf: &[u8]) -> io::Result<usize> {
        Ok(buf.len())
    }

    fn flush(&mut self) -> io::Result<()> {
        Ok(())
    }
}

/// A door through which this many clients come, one after the other, who send the same text.
#[derive(Drop)]
pub(crate) struct Clients {
    pub(crate) left: u32,
    pub(crate) text: &'static [u8],
}

impl Door for Clients {
    type In = &'static [u8];

    type Out = Sink;

    fn next(&mut self) -> Option<(&'static [u8], Sink)> {
        if self.left == 0 {
            return None;
        }
        self.left -= 1;
        Some((self.text, Sink))
    }

    fn ended(&mut self, _end: Result<End, ServeError>) {}
}
