//! The dialect of IMAP4rev1: frames that are rewritten, and replies that are told otherwise.

mod fetches;
mod frames;
mod names;
mod parts;
mod replies;
mod rows;
mod spellings;
