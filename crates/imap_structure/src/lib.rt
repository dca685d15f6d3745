//! What is told of the parts of a message (RFC 9051, section 7.5.2, BODY and BODYSTRUCTURE; RFC 2045 to 2047).
//!
//! [`push_structure`] reads a message and appends its structure. Parts stand in one another to a depth of
//! [`MAX_DEPTH`]; each octet is read once for each part that it stands in. `specs/Structure.antt` says what a
//! structure has, and [`laws`] that a client reads it as text of one line, whatever the message holds.
//!
//! [`part_at`] returns the part of a message that is named by numbers, counted as in its structure, and
//! [`message_at`] the message in a part that is one. `specs/Numbered.antt` says which part that is.
#![tactic(auto)]

mod delimiter;
mod disposition;
mod header;
pub mod laws;
mod lines;
mod media;
mod media_reader;
mod numbered;
mod params;
mod parts;
mod single;
mod structure;

pub use header::split_header;
pub use media::{MediaType, Param, media_of};
pub use numbered::{message_at, part_at};
pub use structure::{MAX_DEPTH, push_structure};
