//! A session over a connection: its octets cut into commands, each handed to a room, and the replies printed.
//!
//! [`serve`] opens the session, talks until the input or the session ends, and leaves. `specs/Served.antt` says
//! what it writes: the replies of the entries that its room made, a continuation request wherever a client waits
//! to send a literal, and the last lines of sessions that end. Where the input was cut makes no difference.
//!
//! [`serve_in`] does the same in a dialect, which rewrites the commands and says the octets of the replies, as
//! `specs/Told.antt` says.
#![tactic(auto)]

mod error;
mod exchange;
mod gate;
pub mod laws;
mod moments;
mod serving;
mod session;
mod standard;
mod talking;
mod telling;
mod watched;

pub use error::{End, ServeError};
pub use gate::{Gate, OpenGate};
pub use imap_hall::{
    Act, Core, Entry, Hall, HallError, MadeStep, MailboxVersion, Moment, OldBase, OpenError,
    Receipt, Room, SessionId, SessionNumber, SharedReplies, Step, entry_octets,
};
pub use moments::Moments;
pub use serving::serve_in;
pub use standard::serve;
pub use watched::Watched;
