//! Names in modified UTF-7 (RFC 3501, section 5.1.3; RFC 2152).
//!
//! [`encode`] writes a text, and [`decode`] reads the text of which octets are the one spelling. [`laws`] has
//! what holds of both.
#![tactic(auto)]

mod decoding;
mod encoding;
pub mod laws;
mod shifts;

pub use decoding::decode;
pub use encoding::encode;
