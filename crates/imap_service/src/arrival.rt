//! Clients who come to the workers of a port.

use crate::connection::Connection;

/// A client who is to be served.
#[derive(Drop)]
pub(crate) struct Arrival {
    pub(crate) connection: Connection,
    /// The octets that came after the login, if the client has logged in.
    pub(crate) after_login: Option<Vec<u8>>,
}
