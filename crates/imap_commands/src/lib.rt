//! A client's commands: their arguments read, and whole commands written.
//!
//! A [`Request`] is what a frame of the stream asks for. [`read_arguments`] reads what follows the first word
//! of a command, and [`write_command`] writes a frame that is read as the request. `imap_grammar` reads whole
//! frames by it.
//!
//! `src/commands/` has one file for each group of commands, with its reading and its writing, and
//! `specs/commands/` has the definitions that these cite. `specs/Spells.antt` says which request a frame
//! spells.
#![tactic(auto)]

mod arguments;
mod command;
mod command_copy;
mod command_same;
mod commands;
mod request;
mod verb;
mod writing;

pub use arguments::read_arguments;
pub use command::Command;
pub use commands::list::{ListReturn, Patterns, Selection};
pub use commands::select::{QresyncArg, SelectParameters};
pub use commands::store::{StoreChange, StoreSpec};
pub use imap_query::{
    BodySection, FetchItem, Partial, SearchDate, SearchIn, SearchKey, SearchKeys, SearchReturn,
    Section, StatusItem,
};
pub use imap_syntax::{
    Atom, Date, DateTime, FieldName, Flag, Flags, Items, MessageSet, Numbering, NzNumber,
    NzNumber64, OneOrMore, OtherFlag, SeqNumber, SeqRange, SeqSet, Zone,
};
pub use request::Request;
pub use verb::Verb;
pub use writing::write_command;
