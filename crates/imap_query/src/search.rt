//! The keys and options of SEARCH (RFC 9051, section 6.4.4).

ghost use Rattle.std.specs.Prelude.{◌≡◌, map};
ghost use Rattle.imap_query.specs.Keys.{key_of, all_tokens};

use imap_lex::{AstringChar, Octets};
use imap_syntax::{Date, FieldName, Flag, Keyword, MessageSet};
use imap_values::{Same, TryCopy};
use std::alloc::{AllocError, Global};
use std::marker::Model;

/// A result option: what the response says of the messages found.
#[derive(Clone, Copy, PartialEq, Eq)]
pub enum SearchReturn {
    Min,
    Max,
    All,
    Count,
    Save,
}

/// The part of a message that is searched for a text.
#[derive(Clone, Copy, PartialEq, Eq)]
pub enum SearchIn {
    Bcc,
    Body,
    Cc,
    From,
    Subject,
    Text,
    To,
}

/// The relation of the internal date to the date of the key.
#[derive(Clone, Copy, PartialEq, Eq)]
pub enum SearchDate {
    Before,
    On,
    Since,
}

impl TryCopy for SearchReturn {
    fn try_copy(&self, _alloc: Global) -> Result<SearchReturn, AllocError> {
        Ok(*self)
    }
}

impl Same for SearchReturn {
    fn is_same(&self, other: &SearchReturn) -> bool {
        *self == *other
    }
}

impl Same for SearchIn {
    fn is_same(&self, other: &SearchIn) -> bool {
        self == other
    }
}

impl Same for SearchDate {
    fn is_same(&self, other: &SearchDate) -> bool {
        other == self
    }
}

/// A key of SEARCH (RFC 9051, section 6.4.4).
pub enum SearchKey {
    All,
    /// Whether the flag has to be set, or not set.
    Flag { flag: Flag, set: bool },
    Contains { place: SearchIn, text: Octets },
    /// The text is searched in the header fields of this name.
    Header { field: FieldName, text: Octets },
    Date { relation: SearchDate, date: Date },
    Larger(u64),
    Smaller(u64),
    /// RFC 7162, section 3.1.5.
    ModSeq(u64),
    Numbers(MessageSet),
    Uids(MessageSet),
    Not(Box<SearchKey>),
    Or(Box<SearchKey>, Box<SearchKey>),
    /// Keys in parentheses, each of which has to match.
    Group(Vec<SearchKey>),
    /// A key of RFC 9051 that is read and not served: SENTBEFORE, SENTON or SENTSINCE.
    Unserved,
}

// Not derived: a derived one is proved anew in each crate that lets go of one.
impl Drop for SearchKey {
    fn drop(self) {
        match self {
            SearchKey::Flag { flag, set: _ } => drop(flag),
            SearchKey::Contains { place: _, text } => drop(text),
            SearchKey::Header { field, text } => drop((field, text)),
            SearchKey::Date {
                relation: _,
                date: _,
            } => {}
            SearchKey::Larger(_) => {}
            SearchKey::Smaller(_) => {}
            SearchKey::ModSeq(_) => {}
            SearchKey::Numbers(value) => drop(value),
            SearchKey::Uids(value) => drop(value),
            SearchKey::Not(value) => drop(value),
            SearchKey::Or(first, second) => drop((first, second)),
            SearchKey::Group(value) => drop(value),
            SearchKey::All | SearchKey::Unserved => {}
        }
    }
}

pub(crate) const SEARCH_RETURNS: [SearchReturn; 5] = [
    SearchReturn::Min,
    SearchReturn::Max,
    SearchReturn::All,
    SearchReturn::Count,
    SearchReturn::Save,
];

impl Keyword for SearchReturn {
    ghost use Rattle.imap_query.specs.SearchWords.{search_return_name};
    ghost use Rattle.imap_query.specs.declared.search.TheConstants.{SEARCH_RETURNS};

    type Class = AstringChar;

    ghost name_of = { search_return_name };

    ghost table = { SEARCH_RETURNS };

    fn name(self) -> &'static [u8] {
        match self {
            SearchReturn::Min => b"MIN",
            SearchReturn::Max => b"MAX",
            SearchReturn::All => b"ALL",
            SearchReturn::Count => b"COUNT",
            SearchReturn::Save => b"SAVE",
        }
    }

    fn all() -> &'static [SearchReturn] {
        &SEARCH_RETURNS
    }
}

/// One key or more, each of which has to match.
///
/// In contracts the keys are their tokens, each operator before its operands.
pub struct SearchKeys(Vec<SearchKey>);

// Not derived: a derived one is proved anew in each crate that lets go of one.
impl Drop for SearchKeys {
    fn drop(self) {
        let SearchKeys(_) = self;
    }
}

impl Model for SearchKeys {
    ghost use Rattle.std.specs.Prelude.{List, map};
    ghost use Rattle.imap_query.specs.Keys.{Token, key_of, all_tokens};

    ghost Value = { List Token };

    ghost view = { λ s. all_tokens (map key_of s.0.items) };
}

impl SearchKeys {
    /// Returns these keys, without copying them.
    pub fn from_vec(keys: Vec<SearchKey>) -> SearchKeys
        ensures { result ≡ all_tokens (map key_of keys.items) }
    {
        SearchKeys(keys)
    }

    /// Returns the keys.
    pub fn as_slice(&self) -> &[SearchKey]
        ensures { all_tokens (map key_of result.now) ≡ self.now }
    {
        self.0.as_slice()
    }
}
