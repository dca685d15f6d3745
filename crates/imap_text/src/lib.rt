//! What a message is as octets: its header and its text, the fields of the header, the text that SEARCH looks
//! for, and the internal date.
//!
//! Lines end with CRLF alone. Sections share the octets of the message.
#![tactic(auto)]

mod composing;
mod field;
mod field_index;
mod field_lookup;
mod field_places;
mod folded;
mod folding;
mod header_fields;
pub mod laws;
mod line;
mod placed;
mod runs;
mod section;

pub use field_lookup::HeaderFields;
pub use folded::{Folded, Needle, contains_fold};
pub use header_fields::{field_texts, fields};
pub use imap_syntax::DateTime as InternalDate;
pub use line::split_line;
pub use section::{header, header_length, partial, text};
