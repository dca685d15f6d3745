//! Connections that are refused without a step of the machine.

use crate::connection::Connection;
use std::io::Write;
use std::time::Duration;

/// What a client is told that is refused (RFC 9051, section 7.1.5).
const GOODBYE: &[u8] = b"* BYE limit reached\r\n";

/// The seconds for which a client may keep this from being written.
const GOODBYE_SECONDS: u64 = 1;

/// Tells the client, as far as the connection takes it, that it isn't served.
pub(crate) fn say_goodbye(stream: &Connection) {
    let timeout = Duration::from_secs(GOODBYE_SECONDS);
    if stream.set_write_timeout(timeout).is_ok() {
        // The connection is closed in any case.
        let _written = (&*stream).write_all(GOODBYE);
    }
}
