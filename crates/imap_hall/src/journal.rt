//! Entries of the journal, and their receipts.
//!
//! Points are compared session by session: room that was made for a session's count without an entry makes
//! no difference.

use crate::own_counts::OwnCounts;
use imap_saving::{Core, SharedReplies, Step};
use imap_user_map::UserMap;

/// An entry of the journal.
pub struct Entry {
    pub step: Step,
    /// The number of the step among those of its session, from 1.
    pub own: u64,
    pub replies: SharedReplies,
}

// Not derived: a derived one is proved anew in each crate that lets go of one.
impl Drop for Entry {
    fn drop(self) {
        let Entry {
            step: _,
            own: _,
            replies: _,
        } = self;
    }
}

/// What the session of a step is given of its entry.
#[derive(Drop)]
pub struct Receipt {
    /// The place of the entry in the journal, from 1. Entries before the base count.
    pub place: u64,
    /// The number of the step among those of its session, from 1.
    pub own: u64,
    pub replies: SharedReplies,
}

/// An earlier base of the journal.
pub struct OldBase {
    pub(crate) base: Core,
    pub(crate) counts: UserMap<OwnCounts>,
}

// Not derived: a derived one is proved anew in each crate that lets go of one.
impl Drop for OldBase {
    fn drop(self) {
        let OldBase { base: _, counts: _ } = self;
    }
}
