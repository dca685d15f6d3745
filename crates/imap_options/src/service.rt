//! What is served.

use crate::address::Address;
use crate::dialect_name::DialectName;
use crate::log_level::LogLevel;
use imap_login::Credentials;
use imap_names::UserName;
use imap_rights::Groups;
use imap_world::Limits;

/// A user, and where the user is served: at a port of TCP, or at a socket file in the place of one.
#[derive(Drop)]
pub struct Port {
    pub user: UserName,
    pub address: Address,
    /// What the user's clients log in with, if they are to.
    pub credentials: Option<Credentials>,
}

/// What is served.
#[derive(Drop)]
pub struct Service {
    pub administrator: UserName,
    /// The users who are served, each once.
    pub ports: Vec<Port>,
    /// The groups, and which of these users and the administrator are in each.
    pub groups: Groups,
    pub limits: Limits,
    pub dialect: DialectName,
    /// The lines that the log has while it is served.
    pub log: LogLevel,
}
