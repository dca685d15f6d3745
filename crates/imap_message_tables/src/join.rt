//! The rows of three tables, joined to messages.

ghost use Rattle.std.specs.Prelude.{◌≡◌, ◌∷◌, List, map, reverse, string_bytes, IfNone, IfOk, IfSome, OnOk, MatchOption};
ghost use Rattle.std.specs.Ordering.{is_eq};
ghost use Rattle.imap_message_tables.specs.Joining.{AreJoined, Fit, body_key, head_key, key_cmp, texts, word_key};
ghost use Rattle.imap_message_tables.specs.Taking.{FitsNowhere, IsTaken, Zips, is_first, is_first_head};
ghost use Rattle.imap_message_tables.specs.Up.{AreUp, own_of, rest_of};
ghost use Rattle.imap_tables.specs.declared.message_rows.StoredHead.{StoredHead as HeadRow};

use crate::joined::JoinedMessage;
use crate::order::{compare, lay_bodies, lay_heads, lay_words};
use crate::plain::in_order;
use crate::taking::take_last;
use imap_tables::{StoredBody, StoredHead, StoredKeyword};
use std::alloc::{AllocError, Global};
use std::cmp::Ordering;

fn are_one(one: i64, uid: u32, other: i64, other_uid: u32) -> bool
    ensures { result ≡ is_eq (key_cmp (one, uid) (other, other_uid)) }
{
    compare(one, uid, other, other_uid) == Ordering::Equal
}

fn is_body_of(body: &StoredBody, head: &StoredHead) -> bool
    ensures { result ≡ is_eq (key_cmp (body_key body.now) (head_key head.now)) }
{
    are_one(body.mailbox, body.uid, head.mailbox, head.uid)
}

/// Whether the last head has the key of this one.
fn is_doubled(heads: &[StoredHead], head: &StoredHead) -> bool
    ensures { result ≡ is_first_head (head_key head.now) (reverse heads.now) }
{
    match heads.last() {
        Some(other) => are_one(other.mailbox, other.uid, head.mailbox, head.uid),
        None => false,
    }
}

/// Whether the last word is of the message.
fn is_own(words: &[StoredKeyword], head: &StoredHead) -> bool
    ensures { result ≡ is_first (head_key head.now) (reverse words.now) }
{
    match words.last() {
        Some(word) => are_one(word.mailbox, word.uid, head.mailbox, head.uid),
        None => false,
    }
}

/// Takes the words of a message from the end.
fn take_own(
    alloc: Global,
    words: &mut Vec<StoredKeyword>,
    head: &StoredHead,
) -> Result<Vec<String>, AllocError>
    ensures own { IfOk result (λ own.
        map string_bytes own.items ≡ texts (own_of (head_key head.now) (reverse words.old.items))) }
    ensures rest { OnOk result (reverse words.new.items
        ≡ rest_of (head_key head.now) (reverse words.old.items)) }
{
    let mut own = Vec::new(alloc);
    while is_own(words.as_slice(), head) {
        match words.pop() {
            Some(word) => own.push(word.word)?,
            None => return Ok(own),
        }
    }
    Ok(own)
}

/// Takes the body and the words of a message from the ends, if its key is the lowest.
fn take_message(
    alloc: Global,
    head: StoredHead,
    bodies: &mut Vec<StoredBody>,
    words: &mut Vec<StoredKeyword>,
) -> Result<Option<JoinedMessage>, AllocError>
    requires bodies_up { AreUp body_key (reverse bodies.old.items) }
    requires words_up { AreUp word_key (reverse words.old.items) }
    ensures { IfOk result (λ taken. MatchOption taken
        ((hs : List HeadRow) → AreUp head_key (head ∷ hs)
        → FitsNowhere head hs (reverse bodies.old.items) (reverse words.old.items))
        (λ m. IsTaken head (reverse bodies.old.items) (reverse bodies.new.items) (reverse words.old.items)
        (reverse words.new.items) m)) }
{
    let Some(body) = take_last(bodies) else {
        return Ok(None);
    };
    if !is_body_of(&body, &head) {
        return Ok(None);
    }
    let own = take_own(alloc, words, &head)?;
    match in_order(own) {
        Some(words) => Ok(Some(JoinedMessage {
            head,
            octets: body.octets,
            words,
        })),
        None => Ok(None),
    }
}

/// Takes all rows, which are laid in order, the last first.
fn zip_all(
    alloc: Global,
    heads: &mut Vec<StoredHead>,
    bodies: &mut Vec<StoredBody>,
    words: &mut Vec<StoredKeyword>,
) -> Result<Option<Vec<JoinedMessage>>, AllocError>
    requires heads_up { AreUp head_key (reverse heads.old.items) }
    requires bodies_up { AreUp body_key (reverse bodies.old.items) }
    requires words_up { AreUp word_key (reverse words.old.items) }
    ensures { IfOk result (λ joined. MatchOption joined
        (Fit (reverse heads.old.items) (reverse bodies.old.items) (reverse words.old.items) → ⊥)
        (λ ms. Zips (reverse heads.old.items) (reverse bodies.old.items) (reverse words.old.items) ms.items)) }
{
    let mut messages = Vec::with_capacity(alloc, heads.len())?;
    'heads: while let Some(head) = take_last(heads) {
        if is_doubled(heads.as_slice(), &head) {
            return Ok(None);
        }
        let Some(message) = take_message(alloc, head, bodies, words)? else {
            return Ok(None);
        };
        messages.push(message)?;
    }
    if bodies.len() > 0 {
        return Ok(None);
    }
    if words.len() > 0 {
        return Ok(None);
    }
    Ok(Some(messages))
}

/// Joins the rows of three tables, in any order, to messages. None if they don't fit: a message
/// without a body, a body or a word without a message, a key that stands twice, or words that are
/// not those of a message.
pub fn join_rows(
    alloc: Global,
    mut heads: Vec<StoredHead>,
    mut bodies: Vec<StoredBody>,
    mut words: Vec<StoredKeyword>,
) -> Result<Option<Vec<JoinedMessage>>, AllocError>
    ensures unfit { IfOk result (λ joined. IfNone joined (Fit heads.items bodies.items words.items → ⊥)) }
    ensures fit { IfOk result (λ joined. IfSome joined (λ ms. Fit heads.items bodies.items words.items
        × AreJoined heads.items bodies.items words.items ms.items)) }
{
    lay_heads(&mut heads);
    lay_bodies(&mut bodies);
    lay_words(&mut words);
    zip_all(alloc, &mut heads, &mut bodies, &mut words)
}
