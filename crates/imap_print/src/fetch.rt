//! The items of a message.

use crate::flag::FlagSet;
use crate::literal_parts::LiteralParts;
use imap_query::Section;
use imap_syntax::{DateTime, Items};
use imap_values::{Same, TryCopy, copy_two, same_five};
use std::alloc::{AllocError, Global};

/// The octets of a part of a message.
#[derive(Drop)]
pub struct FetchedSection {
    pub section: Section,
    /// The offset of the first octet in the section, if a part of it was requested.
    pub origin: Option<u64>,
    pub octets: LiteralParts,
}

/// The items of a message that are sent (RFC 9051, section 7.5.2).
pub struct FetchedItems {
    pub uid: Option<u32>,
    pub flags: Option<FlagSet>,
    pub internal_date: Option<DateTime>,
    /// The number of octets of the message.
    pub size: Option<u64>,
    /// RFC 7162, section 3.1.
    pub mod_seq: Option<u64>,
    pub sections: Items<FetchedSection>,
}

// Not derived: a derived one is proved anew in each crate that lets go of one.
impl Drop for FetchedItems {
    fn drop(self) {
        let FetchedItems {
            uid: _,
            flags: _,
            internal_date: _,
            size: _,
            mod_seq: _,
            sections: _,
        } = self;
    }
}

impl TryCopy for FetchedSection {
    fn try_copy(&self, alloc: Global) -> Result<FetchedSection, AllocError> {
        let (section, octets) = copy_two(&self.section, &self.octets, alloc)?;
        Ok(FetchedSection {
            section,
            origin: self.origin,
            octets,
        })
    }
}

impl Same for FetchedSection {
    fn is_same(&self, other: &FetchedSection) -> bool {
        self.section.is_same(&other.section)
            && self.origin == other.origin
            && self.octets.is_same(&other.octets)
    }
}

impl TryCopy for FetchedItems {
    fn try_copy(&self, alloc: Global) -> Result<FetchedItems, AllocError> {
        let (flags, sections) = copy_two(&self.flags, &self.sections, alloc)?;
        Ok(FetchedItems {
            uid: self.uid,
            flags,
            internal_date: self.internal_date,
            size: self.size,
            mod_seq: self.mod_seq,
            sections,
        })
    }
}

impl Same for FetchedItems {
    fn is_same(&self, other: &FetchedItems) -> bool {
        same_five(
            &self.uid,
            &other.uid,
            &self.flags,
            &other.flags,
            &self.internal_date,
            &other.internal_date,
            &self.size,
            &other.size,
            &self.mod_seq,
            &other.mod_seq,
        ) && self.sections.is_same(&other.sections)
    }
}
