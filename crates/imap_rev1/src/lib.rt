//! The dialect of IMAP4rev1 (RFC 3501).
//!
//! [`Rev1`] speaks it with a client until the client enables IMAP4rev2. CHECK is NOOP, and LSUB is LIST of the
//! subscribed names. No message is recent: so SEARCH, STATUS and SELECT say. The results of a search are told
//! as RFC 3501 has them, FETCH of RFC822, RFC822.HEADER and RFC822.TEXT under these labels. ENVELOPE, BODY,
//! BODYSTRUCTURE, the macros with them and parts are read in the header or the message that the server sends.
//! `specs/Rev1.antt` says it whole, and [`laws`] what holds of it.
//!
//! [`Utf7Rev1`] is [`Rev1`] with names of mailboxes in modified UTF-7, until the client enables IMAP4rev2 or
//! UTF8=ACCEPT. `specs/Utf7.antt` says it whole, and [`name_laws`] what holds of it.
#![tactic(auto)]

mod asked_items;
mod contents;
mod labels;
pub mod laws;
pub mod name_laws;
mod parts;
mod rev1;
mod shown;
mod telling;
mod utf7_rev1;

pub use rev1::{Rev1, Rules};
pub use telling::capabilities;
pub use utf7_rev1::{NamedRules, Utf7Rev1};
