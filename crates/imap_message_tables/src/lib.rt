//! The three tables of messages, and the same as if each message stood in one row.
//!
//! A database keeps what is said of a message in `message2`, its octets in `body`, and each of its
//! keywords in `keyword`: so new flags leave the octets as they are. All that stands above speaks
//! of one table of messages.
#![tactic(auto)]

mod adopting;
mod copying;
mod join;
mod joined;
mod keywords;
pub mod laws;
mod one_table;
mod order;
mod plain;
mod saving;
mod taking;
mod writing;

pub use adopting::adopt_rows;
pub use join::join_rows;
pub use joined::JoinedMessage;
pub use one_table::join_tables;
pub use saving::save_rows;
pub use taking::take_last;
