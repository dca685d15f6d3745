//! Words of a message in their order.

ghost use Rattle.std.specs.Prelude.{◌≡◌, ◌≢◌, ◌↔◌, ◌≤◌, [], List, ℕ, IsTrue, IsPermutation, MatchOption, length, map, string_bytes};
ghost use Rattle.std.specs.Cmp.Lexicographic.{slice_cmp};
ghost use Rattle.std.specs.Ordering.{nat_cmp};
ghost use Rattle.std.specs.declared.cmp.Ordering.TheVariants.{Less};
ghost use Rattle.std.specs.List.{AllByRecursion};
ghost use Rattle.sqlite_rules.specs.Lists.{Has};
ghost use Rattle.imap_message_tables.specs.Joining.{AreWordsOf};
ghost use Rattle.imap_message_tables.specs.Split.{AreRising, AreWords, IsPlain};

use std::cmp::Ordering;

fn is_plain(word: &str) -> bool
    ensures { IsTrue result ↔ IsPlain word.now }
{
    let octets = word.as_bytes();
    let spaced = octets.contains(&b' ');
    octets.len() > 0 && !spaced
}

/// Whether no word is empty or has a space.
pub(crate) fn are_plain(words: &[String]) -> bool
    ensures { IsTrue result ↔ AllByRecursion IsPlain (map string_bytes words.now) }
{
    for word in words {
        if !is_plain(word.as_str()) {
            return false;
        }
    }
    true
}

fn is_before(one: &str, other: &str) -> bool
    ensures { IsTrue result ↔ (slice_cmp nat_cmp one.now other.now ≡ Less) }
{
    one.cmp(other) == Ordering::Less
}

/// Whether each word is before the next.
pub(crate) fn rise(words: &[String]) -> bool
    ensures { IsTrue result ↔ AreRising (map string_bytes words.now) }
{
    for i in 1..words.len() {
        if !is_before(words[i - 1].as_str(), words[i].as_str()) {
            return false;
        }
    }
    true
}

/// Puts the words of a message in order, if they are such.
pub(crate) fn in_order(mut own: Vec<String>) -> Option<Vec<String>>
    ensures { MatchOption result
        ((words : List (List ℕ)) → AreWordsOf (map string_bytes own.items) words → ⊥)
        (λ words. AreWordsOf (map string_bytes own.items) (map string_bytes words.items)) }
{
    own.sort_unstable();
    if !rise(own.as_slice()) {
        return None;
    }
    if !are_plain(own.as_slice()) {
        return None;
    }
    Some(own)
}
