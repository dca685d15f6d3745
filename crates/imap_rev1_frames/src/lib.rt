//! The commands of IMAP4rev1 (RFC 3501), and those that the server sees in their place.
//!
//! [`named_by`] tells which command a frame is, [`rewritten_frame`] what the server sees in its place, and
//! [`asked_by`] which items it asks for, so that replies can be told as they were asked for. A [`PartSection`] is
//! told from the message, which the server is asked for in its place.
//!
//! [`renamed_frame`] returns the frame in place of one with names in modified UTF-7, and [`asks_utf8`] tells which
//! frame is an ENABLE of UTF8=ACCEPT.
#![tactic(auto)]

mod asked;
mod enable;
mod fields;
mod frames;
mod named;
mod names;
mod part;
mod scan;
mod writing;

pub use asked::{Asked, Label};
pub use enable::asks_utf8;
pub use frames::{asked_by, rewritten_frame};
pub use named::{Named, named_by};
pub use names::renamed_frame;
pub use part::{PartSection, PartText};
pub use scan::{Depth, Quoting, Scan};
