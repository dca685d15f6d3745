//! What is told of a message's structure: its envelope.
//!
//! [`push_envelope`] reads a header and appends its envelope (RFC 9051, section 7.5.2). Each octet is read once
//! for each field that is asked for. `specs/Envelope.antt` says what an envelope has, and [`laws`] that a client
//! reads it as text of one line, whatever the header holds. [`Lexical`] reads structured fields octet by octet.
#![tactic(auto)]

mod addr_spec;
mod address;
mod addresses;
mod comments;
mod envelope;
pub mod laws;
mod lexical;
mod octet_string;
mod parts;
mod phrase;
mod strings;
mod values;

pub use address::Address;
pub use addresses::push_addresses_in;
pub use envelope::{push_envelope, push_further_value};
pub use lexical::{Lexical, Sign, SignRead};
pub use octet_string::OctetString;
pub use strings::{push_nstring, push_string};
pub use values::first_value;
