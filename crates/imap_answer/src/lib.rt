//! Answers to commands.
//!
//! Each command is a function from a [`CommandContext`] to an [`Answer`]. The context has what the user may see
//! (`imap_view`), the command's tag and its moment. The answer has the responses, and what the command asks of
//! the mailboxes. The crates of commands make answers; the machine (`imap_core`) carries them out.
#![tactic(auto)]

mod access;
mod answer;
mod command_context;
mod moment;

pub use access::missing_right_refusal;
pub use answer::Answer;
pub use command_context::{CommandContext, refused_line};
pub use imap_print::{Children, ListAttributes, Response};
pub use imap_view::{Readable, View};
pub use moment::Moment;
