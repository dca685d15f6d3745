//! The tables of a store in a SQL database: how they are made, written and read.
//!
//! A row below a mailbox names it by the `id` of its row, which is the store's own and means nothing else.
//! Each statement is a function of its own, within a transaction.
#![tactic(auto)]

mod cells;
mod changes;
mod columns;
mod deletes;
mod description;
mod finding;
mod inserts;
mod making;
mod message_rows;
mod reading;
mod schema;
mod stored;
mod tables;
mod updates;

pub use changes::{ChangeBelow, FlagsRow, MailboxKey, MessageRow, RowChange, SeenFlagRow};
pub use deletes::{
    delete_acl, delete_body, delete_epoch, delete_head, delete_keyword, delete_keywords,
    delete_mailbox, delete_mark, delete_messages, delete_subscription,
};
pub use finding::{check_head, find_keywords, find_mailbox};
pub use inserts::{
    insert_acl, insert_body, insert_epoch, insert_gone, insert_head, insert_keyword,
    insert_mailbox, insert_mark, insert_meta, insert_subscription,
};
pub use making::{FIRST_VERSION, GAPS_VERSION, STORE_VERSION, make_added, make_store};
pub use message_rows::{StoredBody, StoredHead, StoredKeyword};
pub use reading::{check_open, read_added, read_meta, read_tables};
pub use schema::{is_blank, is_first_store, is_store};
pub use stored::{
    FromRow, StoredEntry, StoredEpoch, StoredGone, StoredMailbox, StoredMessage, StoredMeta,
    StoredSeenFlag, StoredSubscription,
};
pub use tables::{AddedTables, StoredTables, are_added_apart, are_all_apart};
pub use updates::{count_mailbox, flag_head, move_mailbox, update_meta};
