//! What LIST finds for the user of a view (RFC 9051, section 6.3.9).
//!
//! [`list`] and [`list_subscribed`] find the lines, and [`laws`] say what these are.
#![tactic(auto)]

pub mod laws;
mod levels;
mod line;
mod listing;
mod marks;
mod matching;
mod one_line;
mod ordered;
mod shown_name;
mod view_names;

pub use imap_answer::{Answer, CommandContext, Readable, View, missing_right_refusal};
pub use line::{Line, list_line};
pub use listing::{list, list_subscribed};
pub use one_line::mailbox_line;
pub use shown_name::ShownName;
