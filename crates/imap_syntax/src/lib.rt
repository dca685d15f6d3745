//! The parts of commands: words, strings, numbers, sets, dates and flags, and rules of a grammar.
//!
//! A [`Cursor`] reads them from a frame, from left to right, each by its production of RFC 9051, section 9. A
//! [`Spelling`] writes one text for each value that can be spelt. `specs/Rule.antt` says what a rule of any
//! grammar is: the octets that spell a value, and the value that is read from octets.
#![tactic(auto)]

mod atom;
mod cursor;
mod date;
mod error;
mod field_name;
mod flag;
mod items;
mod keywords;
mod lexical;
mod month;
mod nz_number;
mod one_or_more;
mod other_flag;
mod read_dates;
mod set;
mod spelling;
mod system_flag;
mod write_dates;
mod write_strings;
mod write_values;

pub use atom::{Atom, is_atom};
pub use cursor::{Cursor, Item, Keyword, WordOf};
pub use date::{Date, DateTime, Zone};
pub use error::ReadError;
pub use field_name::FieldName;
pub use flag::{Flag, Flags};
pub use imap_lex::Octets;
pub use items::{Items, are_same};
pub use keywords::Keywords;
pub use lexical::{AtomChar, Digit, WordChar, decimal, has_nul, is_atom_char, is_word_char};
pub use month::Month;
pub use nz_number::{NzNumber, NzNumber64};
pub use one_or_more::OneOrMore;
pub use other_flag::OtherFlag;
pub use set::{MessageSet, Numbering, SeqNumber, SeqRange, SeqSet};
pub use spelling::{
    Spelling, Word, all_fit, push_between, push_listed, push_number, push_separated, some_fit,
};
pub use write_dates::{date_fits, date_time_fits, push_date, push_date_time, push_date_time_end};
pub use write_strings::{
    AstringText, MAX_QUOTED_OCTETS, Text, is_atom_string, is_bare, is_quotable, push_astring,
    push_bare_or_string, push_literal, push_quoted, push_string, string_fits,
};
pub use write_values::{mod_sequence_fits, number64_fits, push_set, set_fits};
