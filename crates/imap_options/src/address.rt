//! Where users are served.

use std::fmt::{self, Display, Formatter};
use std::str;

/// How many octets the path of a socket file may have (`unix(7)`).
pub const MAX_SOCKET_PATH: usize = 107;

/// The address at which the clients of a user come in.
#[derive(Clone, Copy)]
pub enum Address {
    /// A port of 127.0.0.1.
    Tcp(u16),
    /// A socket file.
    Unix(SocketPath),
}

/// The path of a socket file: 1 to [`MAX_SOCKET_PATH`] octets, none of them NUL. It is kept in place, so that an error
/// that names it can be copied.
#[derive(Clone, Copy, Debug, PartialEq, Eq)]
pub struct SocketPath {
    octets: [u8; MAX_SOCKET_PATH],
    length: usize,
}

impl SocketPath {
    /// Reads a path. Returns `None` if it has no octets, too many, or NUL.
    pub fn read(text: &str) -> Option<SocketPath> {
        if text.is_empty() || text.contains('\0') {
            return None;
        }
        let mut octets = [0u8; MAX_SOCKET_PATH];
        let length = text.len();
        octets.get_mut(..length)?.copy_from_slice(text.as_bytes());
        Some(SocketPath { octets, length })
    }

    /// Returns the path.
    pub fn as_str(&self) -> &str {
        let octets = self.octets.get(..self.length).unwrap_or(&[]);
        str::from_utf8(octets).unwrap_or("")
    }
}

impl Display for Address {
    fn fmt<W: fmt::Write>(&self, f: &mut Formatter<W>) -> fmt::Result {
        match self {
            Address::Tcp(number) => write!(f, "{number}"),
            Address::Unix(path) => f.write_str(path.as_str()),
        }
    }
}

impl Display for SocketPath {
    fn fmt<W: fmt::Write>(&self, f: &mut Formatter<W>) -> fmt::Result {
        f.write_str(self.as_str())
    }
}
