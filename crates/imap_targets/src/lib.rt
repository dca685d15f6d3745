//! What commands on messages act on: the messages that a command names (RFC 9051, sections 2.3.1 and 9,
//! `sequence-set`), those of them that UNCHANGEDSINCE leaves as they are, the flags that a user may give them,
//! the mailbox into which they are put, the events that a mailbox has left, and the effects that the commands ask for.
#![tactic(auto)]

mod effects;
mod flags;
mod left;
mod message_numbers;
mod row_finder;
mod target;
mod unchanged_since;

pub use effects::{batch_effect, marking_effect, named_batch};
pub use flags::{
    has_seen, has_too_many, is_new_seen, new_flags, right_for, storing_rights, with_permitted,
};
pub use imap_session::{
    KnownList, Selected, Selecting, Session, fetch_line, flag_set, select_answer,
};
pub use left::{events_left, lacks_events};
pub use message_numbers::{
    MessageNumbers, Numbered, end_of, has_known_numbers, in_set, is_by_uid, is_refused, is_saved,
    known_count, last_of, messages_named, number_at, ranges_of, row_with,
};
pub use row_finder::RowFinder;
pub use target::{append_code, target_refusal};
pub use unchanged_since::{remove_skipped, skipped_numbers};
