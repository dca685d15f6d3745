//! The items of FETCH (RFC 9051, section 6.4.5).

use imap_syntax::{FieldName, Items, NzNumber64};
use imap_values::{Same, TryCopy};
use std::alloc::{AllocError, Global};

/// A range of octets: at most `count` octets from `offset`.
#[derive(Clone, Copy, PartialEq, Eq)]
pub struct Partial {
    pub offset: u64,
    pub count: NzNumber64,
}

/// A part of the message (RFC 9051, section 9, `section-msgtext`).
#[derive(Drop)]
pub enum Section {
    Whole,
    Header,
    Text,
    /// The header fields of these names.
    Fields(Items<FieldName>),
    /// The header fields of other names.
    FieldsNot(Items<FieldName>),
}

/// A section of the message, or a range of its octets (RFC 9051, section 6.4.5.1).
pub struct BodySection {
    /// Whether `\Seen` is left as it is.
    pub peek: bool,
    pub section: Section,
    pub partial: Option<Partial>,
}

// Not derived: a derived one is proved anew in each crate that lets go of one.
impl Drop for BodySection {
    fn drop(self) {
        let BodySection {
            peek: _,
            section: _,
            partial: _,
        } = self;
    }
}

/// An item of FETCH (RFC 9051, section 6.4.5).
pub enum FetchItem {
    Uid,
    Flags,
    InternalDate,
    Rfc822Size,
    /// RFC 7162, section 3.1.4.2.
    ModSeq,
    Section(BodySection),
    /// An item of RFC 9051 that is read and not served: ENVELOPE, BODYSTRUCTURE, BINARY, a part of a
    /// message's body, or a macro with such an item.
    Unserved,
}

// Not derived: a derived one is proved anew in each crate that lets go of one.
impl Drop for FetchItem {
    fn drop(self) {
        match self {
            FetchItem::Section(value) => drop(value),
            FetchItem::Uid
            | FetchItem::Flags
            | FetchItem::InternalDate
            | FetchItem::Rfc822Size
            | FetchItem::ModSeq
            | FetchItem::Unserved => {}
        }
    }
}

impl TryCopy for Section {
    fn try_copy(&self, alloc: Global) -> Result<Section, AllocError> {
        match self {
            Section::Whole => Ok(Section::Whole),
            Section::Header => Ok(Section::Header),
            Section::Text => Ok(Section::Text),
            Section::Fields(names) => Ok(Section::Fields(names.try_copy(alloc)?)),
            Section::FieldsNot(names) => Ok(Section::FieldsNot(names.try_copy(alloc)?)),
        }
    }
}

impl Same for Section {
    fn is_same(&self, other: &Section) -> bool {
        match (self, other) {
            (Section::Whole, Section::Whole)
            | (Section::Header, Section::Header)
            | (Section::Text, Section::Text) => true,
            (Section::Fields(names), Section::Fields(others))
            | (Section::FieldsNot(names), Section::FieldsNot(others)) => names.is_same(others),
            _ => false,
        }
    }
}

impl TryCopy for BodySection {
    fn try_copy(&self, alloc: Global) -> Result<BodySection, AllocError> {
        let section = self.section.try_copy(alloc)?;
        Ok(BodySection {
            peek: self.peek,
            section,
            partial: self.partial,
        })
    }
}

impl Same for BodySection {
    fn is_same(&self, other: &BodySection) -> bool {
        self.peek == other.peek
            && self.section.is_same(&other.section)
            && self.partial == other.partial
    }
}

impl TryCopy for FetchItem {
    fn try_copy(&self, alloc: Global) -> Result<FetchItem, AllocError> {
        match self {
            FetchItem::Uid => Ok(FetchItem::Uid),
            FetchItem::Flags => Ok(FetchItem::Flags),
            FetchItem::InternalDate => Ok(FetchItem::InternalDate),
            FetchItem::Rfc822Size => Ok(FetchItem::Rfc822Size),
            FetchItem::ModSeq => Ok(FetchItem::ModSeq),
            FetchItem::Section(section) => Ok(FetchItem::Section(section.try_copy(alloc)?)),
            FetchItem::Unserved => Ok(FetchItem::Unserved),
        }
    }
}

impl Same for FetchItem {
    fn is_same(&self, other: &FetchItem) -> bool {
        match (self, other) {
            (FetchItem::Uid, FetchItem::Uid)
            | (FetchItem::Flags, FetchItem::Flags)
            | (FetchItem::InternalDate, FetchItem::InternalDate)
            | (FetchItem::Rfc822Size, FetchItem::Rfc822Size)
            | (FetchItem::ModSeq, FetchItem::ModSeq)
            | (FetchItem::Unserved, FetchItem::Unserved) => true,
            (FetchItem::Section(section), FetchItem::Section(other)) => section.is_same(other),
            _ => false,
        }
    }
}
