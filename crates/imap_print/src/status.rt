//! A number of a mailbox.

use imap_query::StatusItem;
use imap_values::{Same, TryCopy};
use std::alloc::{AllocError, Global};

/// `status-att-val` of RFC 9051, section 9.
#[derive(Clone, Copy, PartialEq, Eq)]
pub struct StatusValue {
    pub item: StatusItem,
    pub value: u64,
}

impl TryCopy for StatusValue {
    fn try_copy(&self, _alloc: Global) -> Result<StatusValue, AllocError> {
        Ok(*self)
    }
}

impl Same for StatusValue {
    fn is_same(&self, other: &StatusValue) -> bool {
        self == other
    }
}
