//! Copies of search keys, and their equality.
//!
//! Both call themselves for the keys within a key. A command that was read has keys of at most
//! [`MAX_KEY_LEVELS`](crate::search_keys::MAX_KEY_LEVELS) levels, so that they never go deeper than that.

ghost use Rattle.std.specs.Prelude.{◌≡◌, ◌↔◌, IfOk, IsTrue, map};
ghost use Rattle.imap_query.specs.Keys.{key_of, keys_of, group};

use crate::search::{SearchIn, SearchKey, SearchKeys};
use crate::search_keys::group;
use imap_lex::Octets;
use imap_syntax::{FieldName, Flag, MessageSet};
use imap_values::{Same, TryCopy, same_two};
use std::alloc::{AllocError, Global};

impl TryCopy for SearchKeys {
    fn try_copy(&self, alloc: Global) -> Result<SearchKeys, AllocError> {
        Ok(SearchKeys::from_vec(copy_keys(self.as_slice(), alloc)?))
    }
}

impl Same for SearchKeys {
    #[tactic(auto, using(crate::proofs::WrittenKeys::same_tokens))]
    fn is_same(&self, other: &SearchKeys) -> bool {
        are_same_keys(self.as_slice(), other.as_slice())
    }
}

#[cycle(copies)]
fn copy_keys(keys: &[SearchKey], alloc: Global) -> Result<Vec<SearchKey>, AllocError>
    ensures { IfOk result (λ copies. map key_of copies.items ≡ map key_of keys.now) }
{
    let mut copies = Vec::new(alloc);
    for key in keys {
        let copy = copy_key(key, alloc)?;
        copies.push(copy)?;
    }
    Ok(copies)
}

#[cycle(copies)]
fn copy_key(key: &SearchKey, alloc: Global) -> Result<SearchKey, AllocError>
    ensures { IfOk result (λ copy. key_of copy ≡ key_of key.now) }
{
    match key {
        SearchKey::All => Ok(SearchKey::All),
        SearchKey::Flag { flag, set } => copy_flag_key(flag, *set, alloc),
        SearchKey::Contains { place, text } => copy_text_key(*place, text),
        SearchKey::Header { field, text } => copy_header_key(alloc, field, text),
        SearchKey::Date { relation, date } => Ok(SearchKey::Date {
            relation: *relation,
            date: *date,
        }),
        SearchKey::Larger(size) => Ok(SearchKey::Larger(*size)),
        SearchKey::Smaller(size) => Ok(SearchKey::Smaller(*size)),
        SearchKey::ModSeq(least) => Ok(SearchKey::ModSeq(*least)),
        SearchKey::Numbers(messages) => Ok(SearchKey::Numbers(messages.try_copy(alloc)?)),
        SearchKey::Uids(messages) => Ok(SearchKey::Uids(messages.try_copy(alloc)?)),
        SearchKey::Not(key) => Ok(SearchKey::Not(copy_boxed(key, alloc)?)),
        SearchKey::Or(left, right) => {
            let left = copy_boxed(left, alloc)?;
            let right = copy_boxed(right, alloc)?;
            Ok(SearchKey::Or(left, right))
        }
        SearchKey::Group(keys) => Ok(group(copy_keys(keys, alloc)?)),
        SearchKey::Unserved => Ok(SearchKey::Unserved),
    }
}

fn copy_flag_key(flag: &Flag, set: bool, alloc: Global) -> Result<SearchKey, AllocError>
    ensures { IfOk result (λ copy. copy ≡ SearchKey.Flag flag.now set) }
{
    let flag = flag.try_copy(alloc)?;
    Ok(SearchKey::Flag { flag, set })
}

fn copy_text_key(place: SearchIn, text: &Octets) -> Result<SearchKey, AllocError>
    ensures { IfOk result (λ copy. copy ≡ SearchKey.Contains place text.now) }
{
    let text = text.try_copy()?;
    Ok(SearchKey::Contains { place, text })
}

fn copy_header_key(alloc: Global, field: &FieldName, text: &Octets) -> Result<SearchKey, AllocError>
    ensures { IfOk result (λ copy. copy ≡ SearchKey.Header field.now text.now) }
{
    let field = field.try_copy(alloc)?;
    let text = text.try_copy()?;
    Ok(SearchKey::Header { field, text })
}

#[cycle(copies)]
fn copy_boxed(key: &SearchKey, alloc: Global) -> Result<Box<SearchKey>, AllocError>
    ensures { IfOk result (λ copy. key_of copy.value ≡ key_of key.now) }
{
    Ok(Box::new(alloc, copy_key(key, alloc)?)?)
}

#[cycle(sames)]
fn are_same_keys(keys: &[SearchKey], others: &[SearchKey]) -> bool
    ensures { IsTrue result ↔ (map key_of keys.now ≡ map key_of others.now) }
{
    let mut rest = others;
    for key in keys {
        match rest {
            [] => return false,
            [other, later @ ..] => {
                if !is_same_key(key, other) {
                    return false;
                }
                rest = later;
            }
        }
    }
    rest.is_empty()
}

#[cycle(sames)]
fn is_same_key(key: &SearchKey, other: &SearchKey) -> bool
    ensures { IsTrue result ↔ (key_of key.now ≡ key_of other.now) }
{
    match (key, other) {
        (SearchKey::All, SearchKey::All) | (SearchKey::Unserved, SearchKey::Unserved) => true,
        (
            SearchKey::Flag { flag, set },
            SearchKey::Flag {
                flag: other,
                set: other_set,
            },
        ) => { same_two(flag, other, set, other_set) }
        (
            SearchKey::Contains { place, text },
            SearchKey::Contains {
                place: other,
                text: other_text,
            },
        ) => same_two(place, other, text, other_text),
        (
            SearchKey::Header { field, text },
            SearchKey::Header {
                field: other,
                text: other_text,
            },
        ) => same_two(field, other, text, other_text),
        (
            SearchKey::Date { relation, date },
            SearchKey::Date {
                relation: other,
                date: other_date,
            },
        ) => same_two(relation, other, date, other_date),
        (SearchKey::Larger(number), SearchKey::Larger(other))
        | (SearchKey::Smaller(number), SearchKey::Smaller(other))
        | (SearchKey::ModSeq(number), SearchKey::ModSeq(other)) => number.is_same(other),
        (SearchKey::Numbers(messages), SearchKey::Numbers(other))
        | (SearchKey::Uids(messages), SearchKey::Uids(other)) => messages.is_same(other),
        (SearchKey::Not(key), SearchKey::Not(other)) => is_same_key(key, other),
        (SearchKey::Or(left, right), SearchKey::Or(other_left, other_right)) => {
            is_same_key(left, other_left) && is_same_key(right, other_right)
        }
        (SearchKey::Group(keys), other) => is_group_of(keys, other),
        _ => false,
    }
}

/// Whether `key` is a group of these keys.
#[cycle(sames)]
fn is_group_of(keys: &[SearchKey], key: &SearchKey) -> bool
    ensures { IsTrue result ↔ (group (keys_of (map key_of keys.now)) ≡ key_of key.now) }
{
    match key {
        SearchKey::Group(others) => are_same_keys(keys, others),
        SearchKey::All
        | SearchKey::Flag { flag: _, set: _ }
        | SearchKey::Contains { place: _, text: _ }
        | SearchKey::Header { field: _, text: _ }
        | SearchKey::Date {
            relation: _,
            date: _,
        }
        | SearchKey::Larger(_)
        | SearchKey::Smaller(_)
        | SearchKey::ModSeq(_)
        | SearchKey::Numbers(_)
        | SearchKey::Uids(_)
        | SearchKey::Not(_)
        | SearchKey::Or(_, _)
        | SearchKey::Unserved => false,
    }
}
