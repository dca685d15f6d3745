//! The arguments of FETCH, SEARCH and STATUS: items, sections of messages, and search keys.
//!
//! Each is read from a frame, and written, by its production of RFC 9051, section 9, or of RFC 7162. `specs/`
//! defines the octets that spell it.
#![tactic(auto)]

mod fetch;
mod fetch_items;
mod fetch_word;
mod search;
mod search_copy;
mod search_keys;
mod search_plain;
mod search_word;
mod section;
mod status;
mod write_fetch;
mod write_search;

pub use fetch::{BodySection, FetchItem, Partial, Section};
pub use fetch_items::{read_fetch_items, read_modifiers};
pub use fetch_word::Modifiers;
pub use search::{SearchDate, SearchIn, SearchKey, SearchKeys, SearchReturn};
pub use search_keys::{read_search_charset, read_search_keys, read_search_returns};
pub use status::StatusItem;
pub use write_fetch::{changed_fits, items_fit, push_items, push_modifiers};
pub use write_search::{
    charset_fits, push_charset, push_returns, push_search_keys, search_keys_fit,
};
