//! The flags of a message.

use imap_syntax::Keywords;
use imap_values::{Same, TryCopy, same_five};
use std::alloc::{AllocError, Global};

/// Flags of RFC 9051, section 2.3.2, and keywords.
#[derive(Drop)]
pub struct FlagSet {
    pub answered: bool,
    pub deleted: bool,
    pub draft: bool,
    pub flagged: bool,
    pub seen: bool,
    pub keywords: Keywords,
}

impl TryCopy for FlagSet {
    fn try_copy(&self, alloc: Global) -> Result<FlagSet, AllocError> {
        let keywords = self.keywords.try_copy(alloc)?;
        Ok(FlagSet {
            answered: self.answered,
            deleted: self.deleted,
            draft: self.draft,
            flagged: self.flagged,
            seen: self.seen,
            keywords,
        })
    }
}

impl Same for FlagSet {
    fn is_same(&self, other: &FlagSet) -> bool {
        same_five(
            &self.answered,
            &other.answered,
            &self.deleted,
            &other.deleted,
            &self.draft,
            &other.draft,
            &self.flagged,
            &other.flagged,
            &self.seen,
            &other.seen,
        ) && self.keywords.is_same(&other.keywords)
    }
}
