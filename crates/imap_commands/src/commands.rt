//! Commands, read and written: one file for each group of them.

pub(crate) mod append;
pub(crate) mod argument;
pub(crate) mod enable;
pub(crate) mod list;
mod list_copy;
pub(crate) mod login;
pub(crate) mod mailboxes;
pub(crate) mod messages;
pub(crate) mod select;
pub(crate) mod store;
