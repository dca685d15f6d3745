//! Doors.

use imap_serve::{End, ServeError};
use std::io::{Read, Write};

/// A source of connections.
pub trait Door {
    type In: Read + Drop + Send;

    type Out: Write + Drop + Send;

    /// Returns the reader and the writer of the next connection, or `None` if no connection comes any more.
    fn next(&mut self) -> Option<(Self::In, Self::Out)>;

    /// Learns how the session over the last connection ended.
    fn ended(&mut self, end: Result<End, ServeError>);
}
