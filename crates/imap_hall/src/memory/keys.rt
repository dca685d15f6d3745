//! About how much memory the keys of a SEARCH hold.

use crate::memory::{Holds, plain_octets};
use imap_query::SearchKey;
use imap_syntax::MessageSet;

/// The size of a key, and of a range of numbers.
const KEY: u64 = 96;

const RANGE: u64 = 24;

/// More levels than keys that are read have.
const MAX_LEVELS: u32 = 100;

/// About how many octets keys hold.
pub(crate) fn keys_octets(keys: &[SearchKey]) -> u64 {
    each_octets(keys, MAX_LEVELS)
}

/// What keys of fewer than `levels` levels hold.
#[cycle(octets)]
fn each_octets(keys: &[SearchKey], levels: u32) -> u64 {
    let mut octets: u64 = 0;
    for key in keys {
        octets = octets.saturating_add(key_octets(key, levels));
    }
    octets
}

#[cycle(octets)]
fn key_octets(key: &SearchKey, levels: u32) -> u64 {
    if levels == 0 {
        return 0;
    }
    inner_octets(key, levels - 1).saturating_add(KEY)
}

#[cycle(octets)]
fn inner_octets(key: &SearchKey, levels: u32) -> u64 {
    match key {
        SearchKey::Contains { place: _, text } => text.octets(),
        SearchKey::Header { field: _, text } => text.octets(),
        SearchKey::Numbers(messages) => messages.octets(),
        SearchKey::Uids(messages) => messages.octets(),
        SearchKey::Not(key) => key_octets(key, levels),
        SearchKey::Or(left, right) => {
            key_octets(left, levels).saturating_add(key_octets(right, levels))
        }
        SearchKey::Group(keys) => each_octets(keys.as_slice(), levels),
        _ => 0,
    }
}

impl Holds for MessageSet {
    fn octets(&self) -> u64 {
        match self {
            MessageSet::Numbers(set) => plain_octets(set.as_slice().len(), RANGE),
            MessageSet::Saved => 0,
        }
    }
}
