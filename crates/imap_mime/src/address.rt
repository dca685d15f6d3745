//! Addresses.

use crate::octet_string::OctetString;

/// An address of an envelope (RFC 9051, section 7.5.2). A group begins with an address that has a mailbox alone,
/// its name, and ends with one that has nothing.
#[derive(Drop)]
pub struct Address {
    /// The display name.
    pub name: Option<OctetString>,
    /// The source route (RFC 5322, section 4.4, `obs-route`).
    pub route: Option<OctetString>,
    /// The local part.
    pub mailbox: Option<OctetString>,
    /// The domain. It is empty if none is given.
    pub host: Option<OctetString>,
}
