//! Rows in the order of their keys.

ghost use Rattle.std.specs.Prelude.{◌≡◌, reverse};
ghost use Rattle.std.specs.List.Sorted.{IsPermutation, IsSortedByKey};
ghost use Rattle.imap_message_tables.specs.Joining.{body_key, head_key, key_cmp, word_key};
ghost use Rattle.imap_message_tables.specs.Up.{AreUp};

use imap_tables::{StoredBody, StoredHead, StoredKeyword};
use std::cmp::Ordering;

/// Compares two keys.
pub(crate) fn compare(one: i64, uid: u32, other: i64, other_uid: u32) -> Ordering
    ensures { result ≡ key_cmp (one, uid) (other, other_uid) }
{
    one.cmp(&other).then(uid.cmp(&other_uid))
}

fn sort_heads(heads: &mut Vec<StoredHead>)
    ensures same { IsPermutation heads.old.items heads.new.items }
    ensures sorted { IsSortedByKey head_key key_cmp heads.new.items }
{
    heads.sort_unstable_by(
        |one: &StoredHead, other: &StoredHead| -> Ordering
            ensures { result ≡ key_cmp (head_key one.now) (head_key other.now) }
        { compare(one.mailbox, one.uid, other.mailbox, other.uid) },
    );
}

fn sort_bodies(bodies: &mut Vec<StoredBody>)
    ensures same { IsPermutation bodies.old.items bodies.new.items }
    ensures sorted { IsSortedByKey body_key key_cmp bodies.new.items }
{
    bodies.sort_unstable_by(
        |one: &StoredBody, other: &StoredBody| -> Ordering
            ensures { result ≡ key_cmp (body_key one.now) (body_key other.now) }
        { compare(one.mailbox, one.uid, other.mailbox, other.uid) },
    );
}

fn sort_words(words: &mut Vec<StoredKeyword>)
    ensures same { IsPermutation words.old.items words.new.items }
    ensures sorted { IsSortedByKey word_key key_cmp words.new.items }
{
    words.sort_unstable_by(
        |one: &StoredKeyword, other: &StoredKeyword| -> Ordering
            ensures { result ≡ key_cmp (word_key one.now) (word_key other.now) }
        { compare(one.mailbox, one.uid, other.mailbox, other.uid) },
    );
}

/// Brings rows into the order of their keys, the last first: so they are taken from the end in order.
pub(crate) fn lay_heads(heads: &mut Vec<StoredHead>)
    ensures same { IsPermutation heads.old.items (reverse heads.new.items) }
    ensures up { AreUp head_key (reverse heads.new.items) }
{
    sort_heads(heads);
    heads.reverse();
}

pub(crate) fn lay_bodies(bodies: &mut Vec<StoredBody>)
    ensures same { IsPermutation bodies.old.items (reverse bodies.new.items) }
    ensures up { AreUp body_key (reverse bodies.new.items) }
{
    sort_bodies(bodies);
    bodies.reverse();
}

pub(crate) fn lay_words(words: &mut Vec<StoredKeyword>)
    ensures same { IsPermutation words.old.items (reverse words.new.items) }
    ensures up { AreUp word_key (reverse words.new.items) }
{
    sort_words(words);
    words.reverse();
}
