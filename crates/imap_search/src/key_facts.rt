//! What keys ask for, whatever they find.

ghost use Rattle.std.specs.Prelude.{◌≡◌, map};
ghost use Rattle.imap_query.specs.Keys.{key_of, keys_of};
ghost use Rattle.imap_search.specs.KeyFacts as specs;
ghost use Rattle.imap_search.specs.Search.{is_mod_seq, is_unserved, names_unknown};
ghost use Rattle.imap_search.specs.Tokens.{has_plain};

use imap_query::{SearchKey, SearchKeys};
use imap_syntax::{MessageSet, Numbering};
use imap_targets::{has_known_numbers, is_saved};

/// What some of the keys ask for, at any depth.
#[derive(Clone, Copy)]
pub(crate) struct KeyFacts {
    /// A key names a number that no message of the session has.
    pub(crate) unknown: bool,
    /// A key isn't served.
    pub(crate) unserved: bool,
    /// A key is MODSEQ.
    pub(crate) mod_seq: bool,
}

/// What the keys ask for, in a session that knows `count` messages.
pub(crate) fn facts_of(count: u32, keys: &SearchKeys) -> KeyFacts
    ensures unknown { result.unknown ≡ has_plain (names_unknown count) keys.now }
    ensures unserved { result.unserved ≡ has_plain is_unserved keys.now }
    ensures mod_seq { result.mod_seq ≡ has_plain is_mod_seq keys.now }
{
    facts_of_each(count, keys.as_slice())
}

fn no_facts() -> KeyFacts
    ensures { result ≡ specs.no_facts }
{
    KeyFacts {
        unknown: false,
        unserved: false,
        mod_seq: false,
    }
}

/// What one of the two asks for.
fn both(left: KeyFacts, right: KeyFacts) -> KeyFacts
    ensures { result ≡ specs.both left right }
{
    KeyFacts {
        unknown: left.unknown || right.unknown,
        unserved: left.unserved || right.unserved,
        mod_seq: left.mod_seq || right.mod_seq,
    }
}

fn of_numbers(count: u32, messages: &MessageSet) -> KeyFacts
    ensures { result ≡ specs.of_numbers count messages.now }
{
    KeyFacts {
        unknown: !has_known_numbers(Numbering::Sequence, count, messages),
        unserved: is_saved(messages),
        mod_seq: false,
    }
}

fn unserved_if(unserved: bool) -> KeyFacts
    ensures { result ≡ specs.unserved_if unserved }
{
    KeyFacts {
        unknown: false,
        unserved,
        mod_seq: false,
    }
}

fn of_mod_seq() -> KeyFacts
    ensures { result ≡ specs.of_mod_seq }
{
    KeyFacts {
        unknown: false,
        unserved: false,
        mod_seq: true,
    }
}

#[cycle(facts)]
#[tactic(auto, using(crate::proofs::Noted::both_assoc, crate::proofs::Noted::both_none))]
fn facts_of_each(count: u32, keys: &[SearchKey]) -> KeyFacts
    ensures { result ≡ specs.facts_of_each count (keys_of (map key_of keys.now)) }
{
    let mut facts = no_facts();
    for key in keys {
        facts = both(facts, facts_of_key(count, key));
    }
    facts
}

#[cycle(facts)]
fn facts_of_key(count: u32, key: &SearchKey) -> KeyFacts
    ensures { result ≡ specs.facts_of_key count (key_of key.now) }
{
    match key {
        SearchKey::Numbers(messages) => of_numbers(count, messages),
        SearchKey::Uids(messages) => unserved_if(is_saved(messages)),
        SearchKey::ModSeq(_) => of_mod_seq(),
        SearchKey::Unserved => unserved_if(true),
        SearchKey::Not(key) => facts_of_key(count, key),
        SearchKey::Or(left, right) => both(facts_of_key(count, left), facts_of_key(count, right)),
        SearchKey::Group(keys) => facts_of_each(count, keys),
        SearchKey::All
        | SearchKey::Flag { flag: _, set: _ }
        | SearchKey::Contains { place: _, text: _ }
        | SearchKey::Header { field: _, text: _ }
        | SearchKey::Date {
            relation: _,
            date: _,
        }
        | SearchKey::Larger(_)
        | SearchKey::Smaller(_) => no_facts(),
    }
}
