//! Where the messages that SEARCH finds stand among those that a session knows.

ghost use Rattle.std.specs.Prelude.{◌≡◌, ◌∷◌, [], map};
ghost use Rattle.imap_query.specs.Keys.{key_of};
ghost use Rattle.imap_search.specs.Span.{AreAmong, AreNamedAmong};
ghost use Rattle.imap_targets.specs.MessageNumbers.{ranges_of};

use imap_query::SearchKey;
use imap_syntax::{MessageSet, Numbering};
use imap_targets::{KnownList, MessageNumbers, ranges_of};

/// Returns the range of indexes of the known messages that all keys may find: from the first, up to but without the
/// second. Looks up by halving where the sets begin and end that are among the keys. `last` and `last_uid` are what
/// `*` stands for in sets of numbers and of UIDs.
pub(crate) fn span_of_all(
    last: u32,
    last_uid: u32,
    keys: &[SearchKey],
    known: &KnownList,
) -> (usize, usize)
    ensures { AreAmong (map key_of keys.now) last last_uid known.now.list result.0 result.1 }
{
    let mut start = 0;
    let mut end = known.len();
    for key in keys {
        let (first, after) = span_of_key(last, last_uid, key, known);
        end = end.min(after);
        start = start.max(first).min(end);
    }
    (start, end)
}

/// The range of indexes of the messages that one key may find.
fn span_of_key(last: u32, last_uid: u32, key: &SearchKey, known: &KnownList) -> (usize, usize)
    ensures { AreAmong (key_of key.now ∷ []) last last_uid known.now.list result.0 result.1 }
{
    match key {
        SearchKey::Numbers(messages) => span_of_set(Numbering::Sequence, last, messages, known),
        SearchKey::Uids(messages) => span_of_set(Numbering::Uid, last_uid, messages, known),
        _ => (0, known.len()),
    }
}

/// The range of indexes of the messages that the set may name.
fn span_of_set(
    numbering: Numbering,
    last: u32,
    messages: &MessageSet,
    known: &KnownList,
) -> (usize, usize)
    ensures { let ranges = ranges_of messages.now in
        AreNamedAmong numbering last ranges known.now.list result.0 result.1 }
{
    let numbers = MessageNumbers {
        numbering,
        last,
        ranges: ranges_of(messages),
    };
    numbers.span(known)
}
