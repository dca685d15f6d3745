//! The mailboxes of a store as folders of messages (Maildir).
#![tactic(auto)]

mod dumping;
mod faults;
mod files;
mod flagging;
mod folders;
mod held_messages;
mod kept_mailboxes;
mod kept_uids;
mod layout;
mod lists;
mod loading;
mod mailbox_loading;
mod maildir_error;
mod message_files;
mod message_reading;
mod moments;
mod pending;
mod progress;
mod reading;
mod state_lines;
mod states;
mod subscribing;
mod uid_pairs;
mod uid_ranges;

pub use dumping::{Dumped, dump};
pub use kept_mailboxes::KeptMailboxes;
pub use layout::Layout;
pub use lists::{MailboxList, read_lists};
pub use loading::{Loaded, load};
pub use maildir_error::MaildirError;
pub use message_reading::{with_line_ends, without_nul};
pub use moments::{date_at, seconds_of};
pub use progress::Progress;
pub use state_lines::{StateLine, UidState, read_state_line};
pub use uid_ranges::UidRange;
