//! Every line that the server sends.
//!
//! [`Response`] has a variant for each line of RFC 9051, section 7, and of its extensions that the server may
//! send, and [`print`] and [`print_pieces`] give the octets of a list of these. `specs/Printed.antt` says which
//! octets they are, and [`laws`] what a client reads in them.
#![tactic(auto)]

mod acl;
mod copied;
mod enabled;
mod fetch;
mod flag;
pub mod laws;
mod list;
mod literal_parts;
mod numbering;
mod printable;
mod printing;
mod response;
mod response_copy;
mod response_same;
mod search;
mod status;

pub use acl::AclEntry;
pub use copied::CopiedUids;
pub use enabled::EnabledCapabilities;
pub use fetch::{FetchedItems, FetchedSection};
pub use flag::FlagSet;
pub use list::{Children, ListAttributes};
pub use literal_parts::LiteralParts;
pub use numbering::NumberSet;
pub use printable::{fetch_is_printable, flags_are_printable, permanent_flags_are_printable};
pub use printing::{
    Pieces, print, print_fetch_front, print_line, print_literal, print_pieces, print_section,
};
pub use response::{Code, Farewell, Refusal, Response};
pub use search::SearchResults;
pub use status::StatusValue;
