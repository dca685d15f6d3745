//! The count of changes.
//!
//! The count is a hint on which no contract relies. Steps that tell nobody anything don't count, or two
//! idling sessions would have each other polled for ever.

use crate::telling::may_tell;
use imap_serve::Act;
use std::sync::atomic::{AtomicU64, Ordering};

/// Counts the steps after which sessions may be told something. It is a hint.
#[derive(Drop)]
pub struct ChangeCount {
    count: AtomicU64,
}

impl ChangeCount {
    pub(crate) fn new() -> ChangeCount {
        ChangeCount {
            count: AtomicU64::new(0),
        }
    }

    /// Counts a step with this act, if sessions may be told something after it.
    pub(crate) fn note(&self, act: &Act) {
        if may_tell(act) {
            self.count.fetch_add(1, Ordering::SeqCst);
        }
    }

    /// Returns the count. Sessions have nothing to be told while it stays.
    pub fn get(&self) -> u64 {
        self.count.load(Ordering::SeqCst)
    }
}
