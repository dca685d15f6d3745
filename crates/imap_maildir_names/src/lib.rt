//! What the folders and files of a Maildir are called, and what their names say.
//!
//! [`mailbox_folder`] says where the folder of a mailbox lies, and [`mailbox_name`] which mailbox a folder is.
//! [`laws`] has what holds of both. [`name_of_levels`] reads the names of Maildir++.
#![tactic(auto)]

mod file_flags;
mod file_names;
mod folder_names;
mod keyword_letters;
pub mod laws;
mod layouts;
mod levels;
mod subscription_lines;
mod unmarking;

pub use file_flags::{MessageFlags, message_flags};
pub use file_names::{file_moment, is_own_file, message_file};
pub use folder_names::{mailbox_folder, mailbox_name};
pub use keyword_letters::{KeywordLetters, LetteredKeyword, read_keywords};
pub use layouts::name_of_levels;
pub use subscription_lines::{read_courier_subscriptions, read_subscriptions};
