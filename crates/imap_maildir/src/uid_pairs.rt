//! Which messages those of a dump have become.

use crate::uid_ranges::{UidRange, has_uid};
use imap_name_map::NameMap;
use imap_names::{Name, NameRef};
use std::alloc::{AllocError, Global};

/// The UID that a message had, and the one that it has.
#[derive(Clone, Copy)]
pub(crate) struct UidPair {
    pub(crate) old: u32,
    pub(crate) new: u32,
}

/// The UIDs of the messages of one mailbox.
#[derive(Drop)]
struct UidPairs(Vec<UidPair>);

/// The UIDs of all messages that were read from files of a dump, by their mailboxes.
#[derive(Drop)]
pub(crate) struct LoadedUids(NameMap<UidPairs>);

/// The same, while mailboxes are read.
#[derive(Drop)]
pub(crate) struct UidEntries(Vec<(Name, UidPairs)>);

impl UidEntries {
    pub(crate) fn new(alloc: Global) -> UidEntries {
        UidEntries(Vec::new(alloc))
    }

    /// Adds those of a mailbox.
    pub(crate) fn push(&mut self, name: Name, pairs: Vec<UidPair>) -> Result<(), AllocError> {
        self.0.push((name, UidPairs(pairs)))?;
        Ok(())
    }

    /// Those of all mailboxes, and of none if one was added twice.
    pub(crate) fn into_map(self, alloc: Global) -> LoadedUids {
        let UidEntries(entries) = self;
        LoadedUids(NameMap::from_entries(entries).unwrap_or(NameMap::new(alloc)))
    }
}

impl LoadedUids {
    /// Returns the UIDs, in their order, that messages have whose UIDs were in the ranges, or `None` if there's nothing of the
    /// mailbox.
    pub(crate) fn found(
        &self,
        alloc: Global,
        name: &NameRef<'_>,
        ranges: &[UidRange],
    ) -> Result<Option<Vec<u32>>, AllocError> {
        let Some(UidPairs(pairs)) = self.0.get(name) else {
            return Ok(None);
        };
        let mut found = Vec::new(alloc);
        for pair in pairs {
            if has_uid(ranges, pair.old) {
                found.push(pair.new)?;
            }
        }
        found.as_mut_slice().sort_unstable();
        found.dedup();
        Ok(Some(found))
    }
}
