//! Mailbox names (RFC 9051, section 5.1): the name that a text means for a user, and the text that shows
//! him a name.
//!
//! A name lies in a user's tree or in the tree that all share, and has a path of components there.
//! A user writes a name in his own tree without a prefix, one in another's tree as `Other Users/NAME/PATH`,
//! and one in the tree that all share as `Shared/PATH`. A [`Pattern`] of LIST is compared with these texts.
#![tactic(auto)]

mod condensed;
pub mod error;
pub mod laws;
pub mod letters;
mod moving;
pub mod name;
pub mod name_ref;
pub mod namespace;
pub mod pattern;
mod places;
pub mod read;
pub mod show;
pub mod token;
pub mod user_name;
mod wildcards;

pub use error::NameError;
pub use name::{MAX_DEPTH, MAX_PATH_OCTETS, Name, Tree, inbox, inbox_ref, is_above};
pub use name_ref::NameRef;
pub use namespace::{NamespacePrefixes, namespaces};
pub use pattern::Pattern;
pub use read::{read_full, read_name};
pub use show::show_name;
pub use user_name::{MAX_USER_NAME_OCTETS, UserName};
