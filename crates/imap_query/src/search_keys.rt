//! Reading the keys and options of SEARCH (RFC 9051, section 9, `search`).

ghost use Rattle.std.specs.Prelude.{◌≡◌, ◌==◌, Some, map, codes};
ghost use Rattle.imap_syntax.specs.Reading.{ReadsIfMemory};
ghost use Rattle.imap_syntax.specs.Rule.{separated};
ghost use Rattle.imap_query.specs.Keys.{key_of, keys_of, group};
ghost use Rattle.imap_syntax.specs.First.{begins};
ghost use Rattle.imap_syntax.specs.Sets.{begins_set};
ghost use Rattle.imap_query.specs.Searching.{is_not, is_or, set_key, group_key, word_key, key, word_flag};
ghost use Rattle.imap_query.specs.Searching.{charset_name, search_returns, search_charset, search_keys};

use crate::search::{SearchKey, SearchKeys, SearchReturn};
use crate::search_plain::read_plain_key;
use crate::search_word::{Letter, SearchWord};
use imap_lex::{Octets, leading};
use imap_syntax::{Cursor, Items, ReadError, WordOf};
use std::alloc::Global;

/// The most levels of keys: a depth of 64, and the keys within which there are none.
pub(crate) const MAX_KEY_LEVELS: u8 = 65;

pub(crate) fn group(keys: Vec<SearchKey>) -> SearchKey
    ensures { key_of result ≡ group (keys_of (map key_of keys.items)) }
{
    SearchKey::Group(keys)
}

impl SearchWord {
    fn is_not(self) -> bool
        ensures { result ≡ is_not self }
    {
        matches!(self, SearchWord::Not)
    }

    fn is_or(self) -> bool
        ensures { result ≡ is_or self }
    {
        matches!(self, SearchWord::Or)
    }
}

fn begins_group(cursor: &Cursor<'_>) -> bool
    ensures { result ≡ begins (λ b. b == 40) cursor.now }
{
    matches!(cursor.rest(), [b'(', ..])
}

fn begins_set(cursor: &Cursor<'_>) -> bool
    ensures { result ≡ begins begins_set cursor.now }
{
    match cursor.rest() {
        [] => false,
        [first, ..] => first.is_ascii_digit() || *first == b'*' || *first == b'$',
    }
}

fn read_set_key(cursor: &mut Cursor<'_>, alloc: Global) -> Result<SearchKey, ReadError>
    ensures { ReadsIfMemory key_of result cursor.new (set_key.read cursor.old) }
{
    let messages = cursor.message_set(alloc)?;
    Ok(SearchKey::Numbers(messages))
}

/// Reads a key with fewer than `levels` levels.
#[cycle(keys)]
#[tactic(auto, unfolding(crate::specs::Searching::key))]
fn read_key(cursor: &mut Cursor<'_>, alloc: Global, levels: u8) -> Result<SearchKey, ReadError>
    ensures { ReadsIfMemory key_of result cursor.new ((key levels).read cursor.old) }
{
    if levels == 0 {
        return Err(ReadError::Syntax);
    }
    if begins_group(cursor) {
        read_group_key(cursor, alloc, levels - 1)
    } else if begins_set(cursor) {
        read_set_key(cursor, alloc)
    } else {
        read_word_key(cursor, alloc, levels - 1)
    }
}

/// Reads keys in parentheses.
#[cycle(keys)]
fn read_group_key(cursor: &mut Cursor<'_>, alloc: Global, inner: u8) -> Result<SearchKey, ReadError>
    ensures { ReadsIfMemory key_of result cursor.new ((group_key (key inner)).read cursor.old) }
{
    cursor.octet(b'(')?;
    let keys = read_keys(cursor, alloc, inner)?;
    cursor.octet(b')')?;
    Ok(group(keys))
}

/// Reads a key that begins with a word.
#[cycle(keys)]
fn read_word_key(cursor: &mut Cursor<'_>, alloc: Global, inner: u8) -> Result<SearchKey, ReadError>
    ensures { ReadsIfMemory key_of result cursor.new ((word_key (key inner)).read cursor.old) }
{
    let word = cursor.keyword::<SearchWord>()?;
    if word.is_not() {
        cursor.space()?;
        let key = Box::new(alloc, read_key(cursor, alloc, inner)?)?;
        return Ok(SearchKey::Not(key));
    }
    if word.is_or() {
        cursor.space()?;
        let left = Box::new(alloc, read_key(cursor, alloc, inner)?)?;
        cursor.space()?;
        let right = Box::new(alloc, read_key(cursor, alloc, inner)?)?;
        return Ok(SearchKey::Or(left, right));
    }
    read_plain_key(cursor, alloc, word)
}

/// Reads one key or more, with spaces between them.
#[cycle(keys)]
fn read_keys(
    cursor: &mut Cursor<'_>,
    alloc: Global,
    levels: u8,
) -> Result<Vec<SearchKey>, ReadError>
    ensures { let keys = separated 32 (key levels) in
        ReadsIfMemory (λ read. map key_of read.items) result cursor.new (keys.read cursor.old) }
{
    let mut keys = Vec::new(alloc);
    let mut left = cursor.rest().len();
    loop {
        let key = read_key(cursor, alloc, levels)?;
        keys.push(key)?;
        if !cursor.has(b' ') {
            return Ok(keys);
        }
        if left == 0 {
            return Err(ReadError::Syntax);
        }
        left -= 1;
    }
}

/// Reads the word `wanted` if it comes next, and returns whether it did.
fn has_word(cursor: &mut Cursor<'_>, wanted: &[u8]) -> bool
    ensures { (word_flag wanted.now).read cursor.old ≡ Some (result, cursor.new) }
{
    let len = leading::<Letter>(cursor.rest());
    if len == 0 {
        return false;
    }
    if !cursor.rest()[..len].eq_ignore_ascii_case(wanted) {
        return false;
    }
    cursor.skip(len);
    true
}

/// Reads RETURN and its options, or nothing (RFC 9051, section 6.4.4). `RETURN ()` has no options.
pub fn read_search_returns(
    cursor: &mut Cursor<'_>,
    alloc: Global,
) -> Result<Items<SearchReturn>, ReadError>
    ensures { ReadsIfMemory (λ r. r) result cursor.new (search_returns.read cursor.old) }
{
    if !has_word(cursor, b"RETURN") {
        return Ok(Items::from_vec(Vec::new(alloc)));
    }
    cursor.space()?;
    let all = cursor.listed_or_none::<WordOf<SearchReturn>>(alloc)?;
    cursor.space()?;
    Ok(all)
}

/// Reads an atom or a quoted string.
fn read_charset_name(cursor: &mut Cursor<'_>, alloc: Global) -> Result<Octets, ReadError>
    ensures { ReadsIfMemory (λ o. o) result cursor.new (charset_name.read cursor.old) }
{
    match cursor.rest() {
        [b'"', ..] => cursor.quoted(alloc),
        _ => Ok(Octets::from_slice(alloc, cursor.atom_octets()?)?),
    }
}

/// Reads CHARSET and its name, or nothing.
pub fn read_search_charset(
    cursor: &mut Cursor<'_>,
    alloc: Global,
) -> Result<Option<Octets>, ReadError>
    ensures { ReadsIfMemory (λ c. c) result cursor.new (search_charset.read cursor.old) }
{
    if !has_word(cursor, b"CHARSET") {
        return Ok(None);
    }
    cursor.space()?;
    let name = read_charset_name(cursor, alloc)?;
    cursor.space()?;
    Ok(Some(name))
}

/// Reads one key or more, with spaces between them.
pub fn read_search_keys(cursor: &mut Cursor<'_>, alloc: Global) -> Result<SearchKeys, ReadError>
    ensures { ReadsIfMemory (λ keys. keys) result cursor.new ((search_keys).read cursor.old) }
{
    Ok(SearchKeys::from_vec(read_keys(cursor, alloc, MAX_KEY_LEVELS)?))
}
