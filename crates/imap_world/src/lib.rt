//! The mailboxes of all users, and what changes them.
//!
//! A change is made in two halves. [`World::prepare`] finds the values to be written and reserves all room,
//! and may be refused; [`World::commit`] writes them, takes no memory, and cannot.
#![tactic(auto)]

mod arrivals;
mod change;
mod copies;
mod effect;
mod error;
mod indexing;
pub mod laws;
mod limits;
mod mailbox_entry;
mod messages;
mod moving;
mod named_batch;
mod new_mailbox;
mod owned;
mod owner;
mod placing;
mod resolve;
mod restored;
mod rights;
mod same;
mod shared_mailbox;
mod site;
mod subscriptions;
mod world;
mod world_parts;

pub use arrivals::Arrivals;
pub use change::{Change, Write};
pub use effect::Effect;
pub use error::WorldError;
pub use imap_batch::{GoneUids, Mailbox, Rows};
pub use imap_identifier_index::IdentifierIndex;
pub use imap_name_map::NameMap;
pub use imap_rights::{Acl, Rights};
pub use mailbox_entry::MailboxEntry;
pub use messages::is_same_name;
pub use moving::can_move;
pub use named_batch::{NamedBatch, NamedWrite};
pub use new_mailbox::NewMailbox;
pub use shared_mailbox::SharedMailbox;
pub use site::{Limits, Site};
pub use world::World;
pub use world_parts::{MailboxRow, Subscription, WorldParts};
