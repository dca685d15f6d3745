//! The messages that keys find (RFC 9051, section 6.4.4).
//!
//! Keys call themselves for the keys within them. A command that was read has keys of at most 65 levels.

ghost use Rattle.std.specs.Prelude.{◌≡◌, IfOk};
ghost use Rattle.std.specs.List.{list_all};
ghost use Rattle.imap_query.specs.Keys.{key_of};
ghost use Rattle.imap_search.specs.Ready.{finds_if_plain, finds_ready};
ghost use Rattle.imap_search.specs.Shown.{candidate_shown};

use crate::flags::{has_flag, is_as, is_dated};
use crate::message_texts::MessageTexts;
use crate::needles::Needles;
use crate::ready_key::ReadyKey;
use crate::texts::has_text_in;
use imap_mailbox::Row;
use imap_query::SearchKey;
use imap_targets::{in_set, ranges_of};
use std::alloc::{AllocError, Global};

/// A message that is tested.
#[derive(Drop)]
pub(crate) struct Candidate<'a> {
    pub(crate) row: &'a Row<'a>,
    /// Its message sequence number in the session.
    pub(crate) number: u32,
    /// What `*` stands for in a set of numbers.
    pub(crate) last: u32,
    /// What `*` stands for in a set of UIDs.
    pub(crate) last_uid: u32,
}

/// Whether all keys find the message.
pub(crate) fn finds_all(
    alloc: Global,
    needles: &mut Needles,
    candidate: &Candidate<'_>,
    keys: &[ReadyKey<'_>],
) -> Result<bool, AllocError>
    ensures { let meant = list_all (finds_ready (candidate_shown candidate.now)) keys.now in
        IfOk result (λ found. found ≡ meant) }
{
    let mut texts = MessageTexts::new(alloc, candidate.row.octets.as_slice());
    finds_each(alloc, needles, candidate, &mut texts, keys)
}

/// Whether each of the keys finds the message. Later keys aren't tried after one that doesn't.
#[cycle(finds)]
fn finds_each(
    alloc: Global,
    needles: &mut Needles,
    candidate: &Candidate<'_>,
    texts: &mut MessageTexts<'_>,
    keys: &[ReadyKey<'_>],
) -> Result<bool, AllocError>
    requires { texts.old ≡ candidate.now.row.now.octets.now }
    ensures octets { texts.new ≡ texts.old }
    ensures found { let meant = list_all (finds_ready (candidate_shown candidate.now)) keys.now in
        IfOk result (λ found. found ≡ meant) }
{
    for key in keys {
        if !finds(alloc, needles, candidate, texts, key)? {
            return Ok(false);
        }
    }
    Ok(true)
}

/// Whether the key finds the message.
#[cycle(finds)]
fn finds(
    alloc: Global,
    needles: &mut Needles,
    candidate: &Candidate<'_>,
    texts: &mut MessageTexts<'_>,
    key: &ReadyKey<'_>,
) -> Result<bool, AllocError>
    requires { texts.old ≡ candidate.now.row.now.octets.now }
    ensures octets { texts.new ≡ texts.old }
    ensures found { IfOk result (λ found. found ≡ finds_ready (candidate_shown candidate.now) key.now) }
{
    match key {
        ReadyKey::Plain(key) => finds_plain(alloc, needles, candidate, texts, key),
        ReadyKey::Numbers(set) => Ok(set.has(candidate.number)),
        ReadyKey::Uids(set) => Ok(set.has(candidate.row.uid)),
        ReadyKey::Not(key) => Ok(!finds(alloc, needles, candidate, texts, key)?),
        ReadyKey::Or(left, right) => {
            if finds(alloc, needles, candidate, texts, left)? {
                Ok(true)
            } else {
                finds(alloc, needles, candidate, texts, right)
            }
        }
        ReadyKey::Group(keys) => finds_each(alloc, needles, candidate, texts, keys),
    }
}

/// Whether the key finds the message, if it has no other key within it.
fn finds_plain(
    alloc: Global,
    needles: &mut Needles,
    candidate: &Candidate<'_>,
    texts: &mut MessageTexts<'_>,
    key: &SearchKey,
) -> Result<bool, AllocError>
    requires { texts.old ≡ candidate.now.row.now.octets.now }
    ensures octets { texts.new ≡ texts.old }
    ensures found { let meant = finds_if_plain (candidate_shown candidate.now) (key_of key.now) in
        IfOk result (λ found. found ≡ meant) }
{
    match key {
        SearchKey::All => Ok(true),
        SearchKey::Flag { flag, set } => Ok(is_as(*set, has_flag(flag, candidate.row))),
        SearchKey::Contains { place, text } => {
            has_text_in(alloc, needles, *place, text.as_slice(), texts)
        }
        SearchKey::Header { field, text } => {
            texts.has_in_field(alloc, needles, field.as_slice(), text.as_slice())
        }
        SearchKey::Date { relation, date } => {
            Ok(is_dated(*relation, candidate.row.date.date(), *date))
        }
        SearchKey::Larger(size) => Ok(*size < candidate.row.octets.as_slice().len() as u64),
        SearchKey::Smaller(size) => Ok((candidate.row.octets.as_slice().len() as u64) < *size),
        SearchKey::ModSeq(least) => Ok(*least <= candidate.row.number),
        SearchKey::Numbers(messages) => {
            Ok(in_set(candidate.last, ranges_of(messages), candidate.number))
        }
        SearchKey::Uids(messages) => {
            Ok(in_set(candidate.last_uid, ranges_of(messages), candidate.row.uid))
        }
        // Each has a `ReadyKey` of its own kind.
        SearchKey::Not(_) | SearchKey::Or(_, _) | SearchKey::Group(_) => Ok(false),
        SearchKey::Unserved => Ok(false),
    }
}
