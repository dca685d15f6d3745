//! What a command asks of the messages of one mailbox, as one value.
//!
//! A [`Batch`] says which messages are added, which flags change, and which messages are expunged: so
//! APPEND, STORE, EXPUNGE, CLOSE, COPY, MOVE and the `\Seen` of FETCH are each one batch of a mailbox (RFC
//! 9051, section 6). [`resolve`] finds the numbers by which it is written, and [`refusal`] says without
//! memory why it is refused. [`make_room`] makes room, and [`write_batch`] writes and takes no memory.
//! [`laws`] say what each user sees of it.
#![tactic(auto)]

mod added_left;
mod batch;
mod error;
pub mod laws;
mod marks_left;
mod own;
mod planned;
mod resolving;
mod write;
mod writing;

pub use batch::{Batch, FlagUpdate, NewMessage};
pub use error::BatchError;
pub use imap_mailbox::{GoneUids, Mailbox, MailboxParts, PartsError, Rows};
pub use own::own_changes;
pub use planned::Planned;
pub use resolving::{flag_count, refusal, resolve};
pub use write::BatchWrite;
pub use writing::{added_seen_count, make_room, mark_seen_count, write_batch};
