//! What a session knows of its mailbox, and what it is told of it.
//!
//! A [`Session`] has what it selected and enabled. [`Session::notices`] finds what it is told at the end of a
//! command, and [`Session::tell`] notes that without memory.
//! A [`KnownList`] holds the UIDs of the messages of the selected mailbox that the session was told of last.
//! [`KnownList::notices`] finds the difference to the messages that are there: untagged lines, and a
//! [`Delta`] of the known list, which [`KnownList::apply`] makes without memory. The messages come from a
//! [`RowCursor`]: those that are there ([`MailboxRows`]), or those that will be there after a change.
//! [`laws`] say what a client makes of the lines.
#![tactic(auto)]

mod delta;
mod fetch_lines;
mod known_list;
mod known_update;
pub mod laws;
mod lines;
mod lost;
mod mailbox_rows;
mod notices;
mod options;
mod plain_notices;
mod row_cursor;
mod select;
mod selection;
mod session;
mod session_notices;
mod shared_uids;
mod uids;
mod walk;

pub use delta::Delta;
pub use known_list::KnownList;
pub use known_update::KnownUpdate;
pub use lines::{fetch_line, flag_set};
pub use mailbox_rows::MailboxRows;
pub use notices::Notices;
pub use options::NoticeOptions;
pub use plain_notices::notices_plain;
pub use row_cursor::RowCursor;
pub use select::{Selecting, refuse_selecting, select_answer};
pub use selection::NewSelection;
pub use session::{Selected, Session};
pub use session_notices::SessionNotices;
