//! Messages that are joined of the rows of three tables.

use imap_lex::Octets;
use imap_tables::StoredHead;

/// A message with all that stands of it in the three tables.
#[derive(Drop)]
pub struct JoinedMessage {
    pub head: StoredHead,
    pub octets: Octets,
    /// Its keywords, in the order of their octets.
    pub words: Vec<String>,
}
