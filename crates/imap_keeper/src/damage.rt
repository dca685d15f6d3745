//! Where a store is damaged.

use thiserror::Error;

/// A damaged row of a store: no value of the store is written so.
#[derive(Clone, Copy, Debug, Error)]
#[error("table {table}, row {row}: {fault}")]
pub struct Damage {
    pub table: &'static str,
    /// The number by which SQL knows the row, `rowid`.
    pub row: i64,
    pub fault: RowFault,
}

/// Why a row of a store is damaged.
#[derive(Clone, Copy, Debug, Error, PartialEq, Eq)]
pub enum RowFault {
    #[error("one of its values is never written there")]
    Value,
    #[error("table mailbox has no row for its mailbox")]
    NoMailbox,
    #[error("table mailbox has no row for its superior")]
    NoSuperior,
    #[error("its UIDVALIDITY is over the greatest in table epoch")]
    NotCounted,
    #[error("its rows in table acl are those of no list")]
    List,
    #[error("its rows in tables message2, body, keyword and gone don't fit it, or one another")]
    Messages,
    #[error("its rows in table mark don't fit its messages, or one another")]
    Marks,
}
