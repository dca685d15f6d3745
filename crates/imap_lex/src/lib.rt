//! A client's octets, cut into commands.
//!
//! The octets come in pieces of any size. A [`Framer`] takes the pieces and returns each whole command: its
//! octets with its literals, up to and with the CRLF that ends it (RFC 9051, sections 2.2.1 and 4.3; RFC
//! 7888). It also says when a client waits to send a literal. Where the pieces were cut makes no difference
//! ([`laws`]). The crates above keep [`Octets`] and a [`Tag`] of a command.
#![tactic(auto)]

mod chars;
mod error;
mod frame;
mod framer;
pub mod laws;
mod line;
mod mark;
mod octets;
mod place;
mod reading;
mod tag;

pub use chars::{AstringChar, OctetClass, TagChar, is_astring_char, is_tag_char, leading};
pub use error::LexError;
pub use frame::Frame;
pub use framer::Framer;
pub use line::line_length;
pub use mark::{LiteralMark, line_mark};
pub use octets::Octets;
pub use place::{MAX_COMMAND_OCTETS, MAX_UNASKED_OCTETS};
pub use tag::Tag;
