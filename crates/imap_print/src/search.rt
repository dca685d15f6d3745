//! The results of a search.

use crate::numbering::NumberSet;
use imap_values::{Same, TryCopy, same_five};
use std::alloc::{AllocError, Global};

/// `search-return-data` of RFC 9051, section 9, and MODSEQ of RFC 7162, section 3.1.5.
#[derive(Drop)]
pub struct SearchResults {
    /// The lowest number that was found.
    pub min: Option<u32>,
    /// The highest.
    pub max: Option<u32>,
    pub all: Option<NumberSet>,
    pub count: Option<u32>,
    pub mod_seq: Option<u64>,
}

impl TryCopy for SearchResults {
    fn try_copy(&self, alloc: Global) -> Result<SearchResults, AllocError> {
        let all = self.all.try_copy(alloc)?;
        Ok(SearchResults {
            min: self.min,
            max: self.max,
            all,
            count: self.count,
            mod_seq: self.mod_seq,
        })
    }
}

impl Same for SearchResults {
    fn is_same(&self, other: &SearchResults) -> bool {
        same_five(
            &self.min,
            &other.min,
            &self.max,
            &other.max,
            &self.all,
            &other.all,
            &self.count,
            &other.count,
            &self.mod_seq,
            &other.mod_seq,
        )
    }
}
