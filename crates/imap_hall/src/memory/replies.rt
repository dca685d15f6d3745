//! About how much memory replies hold.

use crate::memory::{Holds, list_octets, plain_octets};
use imap_print::{
    AclEntry, Code, CopiedUids, FetchedItems, FetchedSection, NumberSet, Response, SearchResults,
};
use imap_query::Section;
use imap_syntax::{FieldName, Keywords};

/// The size of a response, of a section that is fetched, of an entry of a list, of a text and of a number.
const RESPONSE: u64 = 256;

const SECTION: u64 = 128;

const ENTRY: u64 = 48;

const TEXT: u64 = 40;

const NUMBER: u64 = 4;

/// About how many octets a response holds.
pub fn reply_octets(reply: &Response) -> u64 {
    inner_octets(reply).saturating_add(RESPONSE)
}

fn inner_octets(reply: &Response) -> u64 {
    match reply {
        Response::Fetch { number: _, items } => items.octets(),
        Response::Search {
            tag: _,
            uid: _,
            results,
        } => results.octets(),
        Response::Vanished { earlier: _, uids } => uids.octets(),
        Response::Moved(copied) => copied.octets(),
        Response::Done { tag: _, code } => code_octets(code),
        Response::List {
            attributes: _,
            mailbox,
        } => mailbox.octets(),
        Response::Status { mailbox, items } => mailbox
            .octets()
            .saturating_add(plain_octets(items.as_slice().len(), ENTRY)),
        Response::MyRights { mailbox, rights: _ } => mailbox.octets(),
        Response::Acl { mailbox, entries } => mailbox
            .octets()
            .saturating_add(list_octets(entries.as_slice(), ENTRY)),
        Response::ListRights {
            mailbox,
            identifier,
            owner: _,
        } => mailbox.octets().saturating_add(identifier.octets()),
        Response::Flags { keywords } => keywords.octets(),
        _ => 0,
    }
}

fn code_octets(code: &Option<Code>) -> u64 {
    match code {
        Some(Code::CopyUid(copied)) => copied.octets(),
        Some(Code::Modified(numbers)) => numbers.octets(),
        _ => 0,
    }
}

impl Holds for FetchedItems {
    fn octets(&self) -> u64 {
        let sections = list_octets(self.sections.as_slice(), SECTION);
        match &self.flags {
            Some(flags) => sections.saturating_add(flags.keywords.octets()),
            None => sections,
        }
    }
}

impl Holds for FetchedSection {
    fn octets(&self) -> u64 {
        list_octets(self.octets.as_slice(), TEXT).saturating_add(self.section.octets())
    }
}

impl Holds for Section {
    fn octets(&self) -> u64 {
        match self {
            Section::Fields(names) => list_octets(names.as_slice(), TEXT),
            Section::FieldsNot(names) => list_octets(names.as_slice(), TEXT),
            Section::Whole | Section::Header | Section::Text => 0,
        }
    }
}

impl Holds for FieldName {
    fn octets(&self) -> u64 {
        self.as_slice().len() as u64
    }
}

impl Holds for AclEntry {
    fn octets(&self) -> u64 {
        self.identifier.octets()
    }
}

impl Holds for Keywords {
    fn octets(&self) -> u64 {
        plain_octets(self.as_slice().len(), TEXT)
    }
}

impl Holds for NumberSet {
    fn octets(&self) -> u64 {
        plain_octets(self.as_slice().len(), NUMBER)
    }
}

impl Holds for CopiedUids {
    fn octets(&self) -> u64 {
        self.source.octets().saturating_add(self.target.octets())
    }
}

impl Holds for SearchResults {
    fn octets(&self) -> u64 {
        match &self.all {
            Some(numbers) => numbers.octets(),
            None => 0,
        }
    }
}
