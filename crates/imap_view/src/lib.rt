//! What a user may see of the mailboxes.
//!
//! A [`View`] lends what it shows from the whole world, takes no memory, and shows nothing else: the
//! commands that a user sends are answered by it alone.
#![tactic(auto)]

mod climb;
pub mod laws;
mod readable;
mod seen;
mod seen_names;
mod starts;
mod taken_names;
mod view;

pub use imap_world::{Effect, NamedBatch, Rights};
pub use readable::Readable;
pub use seen::Seen;
pub use seen_names::SeenNames;
pub use taken_names::TakenNames;
pub use view::View;
