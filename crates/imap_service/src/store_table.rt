//! The tables of a store that may have a damaged row.

use std::error::Error;
use std::fmt::{self, Display, Formatter};

/// A table of the store. A value of its own, and no text: an error goes through functions over a borrowed
/// keeper, of which no type may name `'static`.
#[derive(Clone, Copy, Debug, PartialEq, Eq)]
pub enum StoreTable {
    Acl,
    Body,
    Epoch,
    Gone,
    Keyword,
    Mailbox,
    Mark,
    Message,
    /// The head of a message: all but its octets and keywords.
    MessageHead,
    Meta,
    Subscription,
}

impl Display for StoreTable {
    /// Writes the table's name in SQL.
    fn fmt<W: fmt::Write>(&self, f: &mut Formatter<W>) -> fmt::Result {
        let name = match self {
            StoreTable::Acl => "acl",
            StoreTable::Body => "body",
            StoreTable::Epoch => "epoch",
            StoreTable::Gone => "gone",
            StoreTable::Keyword => "keyword",
            StoreTable::Mailbox => "mailbox",
            StoreTable::Mark => "mark",
            StoreTable::Message => "message",
            StoreTable::MessageHead => "message2",
            StoreTable::Meta => "meta",
            StoreTable::Subscription => "sub",
        };
        f.write_str(name)
    }
}

impl Error for StoreTable {}

impl StoreTable {
    /// The table of this name in SQL.
    pub(crate) fn named(name: &str) -> Option<StoreTable> {
        match name {
            "acl" => Some(StoreTable::Acl),
            "body" => Some(StoreTable::Body),
            "epoch" => Some(StoreTable::Epoch),
            "gone" => Some(StoreTable::Gone),
            "keyword" => Some(StoreTable::Keyword),
            "mailbox" => Some(StoreTable::Mailbox),
            "mark" => Some(StoreTable::Mark),
            "message" => Some(StoreTable::Message),
            "message2" => Some(StoreTable::MessageHead),
            "meta" => Some(StoreTable::Meta),
            "sub" => Some(StoreTable::Subscription),
            _ => None,
        }
    }
}
