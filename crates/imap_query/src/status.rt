//! The items of STATUS (RFC 9051, section 6.3.11; RFC 7162, section 3.1.2.3).

use imap_lex::AstringChar;
use imap_syntax::Keyword;
use imap_values::{Same, TryCopy};
use std::alloc::{AllocError, Global};

/// An item of STATUS.
#[derive(Clone, Copy, PartialEq, Eq)]
pub enum StatusItem {
    Messages,
    UidNext,
    UidValidity,
    Unseen,
    Deleted,
    Size,
    HighestModSeq,
}

impl TryCopy for StatusItem {
    fn try_copy(&self, _alloc: Global) -> Result<StatusItem, AllocError> {
        Ok(*self)
    }
}

impl Same for StatusItem {
    fn is_same(&self, other: &StatusItem) -> bool {
        self == other
    }
}

pub(crate) const STATUS_ITEMS: [StatusItem; 7] = [
    StatusItem::Messages,
    StatusItem::UidNext,
    StatusItem::UidValidity,
    StatusItem::Unseen,
    StatusItem::Deleted,
    StatusItem::Size,
    StatusItem::HighestModSeq,
];

impl Keyword for StatusItem {
    ghost use Rattle.imap_query.specs.StatusWords.{status_name};
    ghost use Rattle.imap_query.specs.declared.status.TheConstants.{STATUS_ITEMS};

    type Class = AstringChar;

    ghost name_of = { status_name };

    ghost table = { STATUS_ITEMS };

    fn name(self) -> &'static [u8] {
        match self {
            StatusItem::Messages => b"MESSAGES",
            StatusItem::UidNext => b"UIDNEXT",
            StatusItem::UidValidity => b"UIDVALIDITY",
            StatusItem::Unseen => b"UNSEEN",
            StatusItem::Deleted => b"DELETED",
            StatusItem::Size => b"SIZE",
            StatusItem::HighestModSeq => b"HIGHESTMODSEQ",
        }
    }

    fn all() -> &'static [StatusItem] {
        &STATUS_ITEMS
    }
}
