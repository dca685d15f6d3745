//! The keys of a command, made ready once for the test of each message.
//!
//! Keys call themselves for the keys within them. A command that was read has keys of at most 65 levels.

ghost use Rattle.std.specs.Prelude.{◌≡◌, IfOk, IfSome, map};
ghost use Rattle.imap_query.specs.Keys.{key_of};
ghost use Rattle.imap_search.specs.Ranges.{HasNumbersOf};
ghost use Rattle.imap_search.specs.Ready.{AreReady, IsReady};

use crate::ranges::NumberRanges;
use imap_query::SearchKey;
use imap_syntax::MessageSet;
use imap_targets::ranges_of;
use std::alloc::{AllocError, Global};

/// A set with more ranges is made ready to be looked up by halving.
const MAX_PLAIN_RANGES: usize = 4;

/// A key by which messages are tested.
#[derive(Drop)]
pub(crate) enum ReadyKey<'a> {
    /// A key that has no other within it, as the command has it.
    Plain(&'a SearchKey),
    /// A set of message sequence numbers.
    Numbers(NumberRanges),
    /// A set of UIDs.
    Uids(NumberRanges),
    Not(Box<ReadyKey<'a>>),
    Or(Box<ReadyKey<'a>>, Box<ReadyKey<'a>>),
    /// Keys each of which has to match.
    Group(Vec<ReadyKey<'a>>),
}

/// Returns the keys with their long sets made ready, at any depth. In a set of numbers `*` stands for `last`, in one
/// of UIDs for `last_uid`.
#[cycle(ready)]
pub(crate) fn ready_keys<'a>(
    alloc: Global,
    last: u32,
    last_uid: u32,
    keys: &'a [SearchKey],
) -> Result<Vec<ReadyKey<'a>>, AllocError>
    ensures { IfOk result (λ found. AreReady last last_uid found.items (map key_of keys.now)) }
{
    let mut found = Vec::with_capacity(alloc, keys.len())?;
    for key in keys {
        let ready = ready_key(alloc, last, last_uid, key)?;
        found.push(ready)?;
    }
    Ok(found)
}

#[cycle(ready)]
fn ready_key<'a>(
    alloc: Global,
    last: u32,
    last_uid: u32,
    key: &'a SearchKey,
) -> Result<ReadyKey<'a>, AllocError>
    ensures { IfOk result (λ found. IsReady last last_uid found (key_of key.now)) }
{
    match key {
        SearchKey::Numbers(messages) => match long_set(alloc, last, messages)? {
            Some(set) => Ok(ReadyKey::Numbers(set)),
            None => Ok(ReadyKey::Plain(key)),
        },
        SearchKey::Uids(messages) => match long_set(alloc, last_uid, messages)? {
            Some(set) => Ok(ReadyKey::Uids(set)),
            None => Ok(ReadyKey::Plain(key)),
        },
        SearchKey::Not(key) => Ok(ReadyKey::Not(ready_boxed(alloc, last, last_uid, key)?)),
        SearchKey::Or(left, right) => {
            let left = ready_boxed(alloc, last, last_uid, left)?;
            let right = ready_boxed(alloc, last, last_uid, right)?;
            Ok(ReadyKey::Or(left, right))
        }
        SearchKey::Group(keys) => Ok(ReadyKey::Group(ready_keys(alloc, last, last_uid, keys)?)),
        SearchKey::All
        | SearchKey::Flag { flag: _, set: _ }
        | SearchKey::Contains { place: _, text: _ }
        | SearchKey::Header { field: _, text: _ }
        | SearchKey::Date {
            relation: _,
            date: _,
        }
        | SearchKey::Larger(_)
        | SearchKey::Smaller(_)
        | SearchKey::ModSeq(_)
        | SearchKey::Unserved => Ok(ReadyKey::Plain(key)),
    }
}

#[cycle(ready)]
fn ready_boxed<'a>(
    alloc: Global,
    last: u32,
    last_uid: u32,
    key: &'a SearchKey,
) -> Result<Box<ReadyKey<'a>>, AllocError>
    ensures { IfOk result (λ found. IsReady last last_uid found.value (key_of key.now)) }
{
    Ok(Box::new(alloc, ready_key(alloc, last, last_uid, key)?)?)
}

/// Returns the numbers of a set that has many ranges, if `*` stands for `last`.
fn long_set(
    alloc: Global,
    last: u32,
    messages: &MessageSet,
) -> Result<Option<NumberRanges>, AllocError>
    ensures { IfOk result (λ found. IfSome found (HasNumbersOf last messages.now)) }
{
    let ranges = ranges_of(messages);
    if ranges.len() <= MAX_PLAIN_RANGES {
        Ok(None)
    } else {
        Ok(Some(NumberRanges::of(alloc, last, ranges)?))
    }
}
