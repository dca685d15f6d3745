//! What one mailbox holds: its messages, their flags, and what happened to them.
//!
//! A [`Mailbox`] gives each message the next UID, and each change a mod-sequence ([`imap_modseq`]). All
//! users share the messages and their flags but `\Seen`, which each user has apart. [`Rows`] are the
//! messages as one user has them.
//!
//! A mailbox keeps no list of events. Contracts speak of its summary: the messages that are there, those
//! that are gone, UIDNEXT, the number of shared events, and what is asked of each user's changes of `\Seen`: how many
//! come before each shared event, and the last one of each message. [`laws`] say
//! that the summary of events tells each user what the events tell.
#![tactic(auto)]

mod above;
mod calls;
mod copies;
mod counting;
mod error;
mod expunging;
mod flags;
mod gone;
mod kept_change;
mod known;
mod last_events;
mod late;
mod latest;
pub mod laws;
mod mailbox;
mod marks;
mod message;
mod own;
mod own_lists;
mod parts;
mod recent_events;
mod restored;
mod row;
mod rows;
mod same;
mod status;
mod totals;

pub use calls::MAX_KEYWORDS;
pub use error::MailboxError;
pub use flags::SharedFlags;
pub use gone::{GoneUid, GoneUids};
pub use imap_syntax::{DateTime, Items, Octets};
pub use kept_change::KeptChange;
pub use known::KnownMessage;
pub use mailbox::Mailbox;
pub use message::{GoneMessage, Message};
pub use own::SeenChange;
pub use parts::{MailboxParts, PartsError, UserChange};
pub use row::{Near, Row};
pub use rows::Rows;
