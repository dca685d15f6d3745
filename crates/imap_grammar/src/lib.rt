//! What a client's commands ask for.
//!
//! The message of APPEND is a part of the frame's shared octets, so that it is copied once, from the pieces
//! of the stream into the frame. Names and other short strings are copied.
//!
//! [`parse`] reads one frame of the stream, a command with its literals and its CRLF, by the grammar of RFC
//! 9051, section 9, of RFC 4314 for its commands on access, and of RFC 7162. It is wider than the RFCs' in
//! that a quoted string may have any octets from 0x80 on: the reader of the string says whether they are
//! UTF-8. `imap_commands` has the requests, and the definition of which request a frame spells.
#![tactic(auto)]

pub mod laws;
mod reading;

pub use imap_commands::{
    Atom, BodySection, Command, Date, DateTime, FetchItem, FieldName, Flag, Flags, Items,
    ListReturn, MessageSet, Numbering, NzNumber, NzNumber64, OneOrMore, OtherFlag, Partial,
    Patterns, QresyncArg, Request, SearchDate, SearchIn, SearchKey, SearchKeys, SearchReturn,
    Section, SelectParameters, Selection, SeqNumber, SeqRange, SeqSet, StatusItem, StoreChange,
    StoreSpec, Zone, write_command,
};
pub use reading::parse;
