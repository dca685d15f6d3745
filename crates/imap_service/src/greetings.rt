//! Greetings of clients who log in.

use crate::shared_stream::SharedStream;
use imap_login::{Capabilities, push_greeting, push_session_greeting};
use imap_options::DialectName;
use std::alloc::{AllocError, Global};

/// Returns what the server can do, in the words of the dialect.
pub(crate) fn capabilities_in(dialect: DialectName) -> Capabilities {
    match dialect {
        DialectName::Rev2 => Capabilities::standard(),
        DialectName::Rev1 => Capabilities::new(imap_rev1::capabilities()),
    }
}

/// Returns the first line of a connection whose client is to log in.
pub(crate) fn greeting(alloc: Global, dialect: DialectName) -> Result<Vec<u8>, AllocError> {
    let mut line = Vec::new(alloc);
    push_greeting(&mut line, &capabilities_in(dialect))?;
    Ok(line)
}

/// Leaves out the greeting of the session that begins now: its client has logged in, and was told so.
pub(crate) fn leave_out_greeting(
    alloc: Global,
    dialect: DialectName,
    output: &mut SharedStream,
) -> Result<(), AllocError> {
    let mut line = Vec::new(alloc);
    push_session_greeting(&mut line, &capabilities_in(dialect))?;
    output.leave_out(line);
    Ok(())
}
