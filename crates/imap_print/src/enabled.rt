//! The capabilities that a client enables.

/// The capabilities that a command enabled (RFC 9051, section 7.2.1; RFC 7162, sections 3.1.2 and 3.2.3).
#[derive(Clone, Copy, PartialEq, Eq)]
pub struct EnabledCapabilities {
    pub condstore: bool,
    pub imap4rev2: bool,
    pub qresync: bool,
}
