//! What is settled when a host starts.

use imap_names::UserName;
use imap_rights::SharedGroups;

/// Limits that the host's administrator may choose.
#[derive(Clone, Copy)]
pub struct Limits {
    /// The most messages of a mailbox.
    pub max_messages: u64,
    /// The most octets of a message, and of the literals of one command together.
    pub max_octets: u64,
}

/// What doesn't change while the server runs.
pub struct Site {
    /// The owner of the Shared tree, who is also a user.
    pub administrator: UserName,
    pub limits: Limits,
    /// The members of the groups that access control lists may name.
    pub groups: SharedGroups,
}

// Not derived: a derived one is proved anew in each crate that lets go of one.
impl Drop for Site {
    fn drop(self) {
        let Site {
            administrator: _,
            limits: _,
            groups: _,
        } = self;
    }
}
