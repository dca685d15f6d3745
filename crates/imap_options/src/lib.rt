//! What the program `imapd` is asked to do: its command line, its configuration file, and what they say of users,
//! addresses and secrets.
//!
//! [`read_command_line`] returns a [`Task`]. That of serving has a [`Service`]: the users with their ports, groups and
//! limits. Files of secrets are read with it ([`SecretFiles`]). [`CommandLineError`] says in words why a command line
//! isn't read.
#![tactic(auto)]

mod address;
mod command_line;
mod command_line_error;
mod completed;
mod config_file;
mod dialect_name;
mod layout_name;
mod log_level;
mod secret;
mod serve_options;
mod service;
mod subcommands;

pub use address::{Address, MAX_SOCKET_PATH, SocketPath};
pub use command_line::{Task, VERSION, read_command_line, read_words, read_words_after};
pub use command_line_error::CommandLineError;
pub use dialect_name::DialectName;
pub use layout_name::LayoutName;
pub use log_level::LogLevel;
pub use secret::{SecretFault, SecretFiles, first_line};
pub use service::{Port, Service};
