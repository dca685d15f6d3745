//! Reading keys without others within them (RFC 9051, section 9, `search-key`).

ghost use Rattle.std.specs.Prelude.{◌≡◌};
ghost use Rattle.imap_syntax.specs.Reading.{ReadsIfMemory, Reads};
ghost use Rattle.imap_query.specs.Keys.{key_of, as_flagged};
ghost use Rattle.imap_query.specs.Search.{text_key, date_key, sent_key, header_key, keyword_key, size};
ghost use Rattle.imap_query.specs.Search.{is_flag, is_entry, entry, mod_seq_key, uid_key, as_plain};
ghost use Rattle.imap_query.specs.Search.{plain_behind};

use crate::search::{SearchDate, SearchIn, SearchKey};
use crate::search_word::{EntryType, SearchWord};
use imap_syntax::{Cursor, Flag, ReadError, is_atom};
use std::alloc::Global;

fn flagged(flag: Flag, set: bool) -> SearchKey
    ensures { key_of result ≡ as_flagged flag set }
{
    SearchKey::Flag { flag, set }
}

fn is_flag(text: &[u8]) -> bool
    ensures { result ≡ is_flag text.now }
{
    match text {
        [] => false,
        [b'\\', atom @ ..] => is_atom(atom),
        _ => is_atom(text),
    }
}

fn is_entry(text: &[u8]) -> bool
    ensures { result ≡ is_entry text.now }
{
    if text.len() < 7 {
        return false;
    }
    let (front, flag) = text.split_at(7);
    front.eq_ignore_ascii_case(b"/flags/") && is_flag(flag)
}

fn read_text_key(
    cursor: &mut Cursor<'_>,
    alloc: Global,
    place: SearchIn,
) -> Result<SearchKey, ReadError>
    ensures { ReadsIfMemory key_of result cursor.new ((as_plain (text_key place)).read cursor.old) }
{
    cursor.space()?;
    let text = cursor.astring(alloc)?;
    Ok(SearchKey::Contains { place, text })
}

fn read_date_key(cursor: &mut Cursor<'_>, relation: SearchDate) -> Result<SearchKey, ReadError>
    ensures { Reads key_of result cursor.new ((as_plain (date_key relation)).read cursor.old) }
{
    cursor.space()?;
    let date = cursor.date()?;
    Ok(SearchKey::Date { relation, date })
}

fn read_sent_key(cursor: &mut Cursor<'_>) -> Result<SearchKey, ReadError>
    ensures { Reads key_of result cursor.new ((as_plain sent_key).read cursor.old) }
{
    cursor.space()?;
    cursor.date()?;
    Ok(SearchKey::Unserved)
}

fn read_header_key(cursor: &mut Cursor<'_>, alloc: Global) -> Result<SearchKey, ReadError>
    ensures { ReadsIfMemory key_of result cursor.new ((as_plain header_key).read cursor.old) }
{
    cursor.space()?;
    let field = cursor.field_name(alloc)?;
    cursor.space()?;
    let text = cursor.astring(alloc)?;
    Ok(SearchKey::Header { field, text })
}

fn read_keyword_key(
    cursor: &mut Cursor<'_>,
    alloc: Global,
    set: bool,
) -> Result<SearchKey, ReadError>
    ensures { ReadsIfMemory key_of result cursor.new ((as_plain (keyword_key set)).read cursor.old) }
{
    cursor.space()?;
    let name = cursor.atom(alloc)?;
    Ok(flagged(Flag::Keyword(name), set))
}

/// Reads SP and a number of octets.
fn read_size(cursor: &mut Cursor<'_>) -> Result<u64, ReadError>
    ensures { Reads (λ n. n) result cursor.new (size.read cursor.old) }
{
    cursor.space()?;
    cursor.number(0, i64::MAX as u64)
}

/// Reads an entry and its type, or nothing.
fn read_entry(cursor: &mut Cursor<'_>, alloc: Global) -> Result<(), ReadError>
    ensures { ReadsIfMemory (λ _. tt) result cursor.new (entry.read cursor.old) }
{
    if !cursor.has(b'"') {
        return Ok(());
    }
    if !is_entry(cursor.quoted_end(alloc)?.as_slice()) {
        return Err(ReadError::Syntax);
    }
    cursor.space()?;
    cursor.keyword::<EntryType>()?;
    cursor.space()
}

fn read_mod_seq_key(cursor: &mut Cursor<'_>, alloc: Global) -> Result<SearchKey, ReadError>
    ensures { ReadsIfMemory key_of result cursor.new ((as_plain mod_seq_key).read cursor.old) }
{
    cursor.space()?;
    read_entry(cursor, alloc)?;
    let least = cursor.number(0, i64::MAX as u64)?;
    Ok(SearchKey::ModSeq(least))
}

fn read_uid_key(cursor: &mut Cursor<'_>, alloc: Global) -> Result<SearchKey, ReadError>
    ensures { ReadsIfMemory key_of result cursor.new ((as_plain uid_key).read cursor.old) }
{
    cursor.space()?;
    let messages = cursor.message_set(alloc)?;
    Ok(SearchKey::Uids(messages))
}

/// Reads the part after its word of a key without others within it.
pub(crate) fn read_plain_key(
    cursor: &mut Cursor<'_>,
    alloc: Global,
    word: SearchWord,
) -> Result<SearchKey, ReadError>
    ensures { ReadsIfMemory key_of result cursor.new ((as_plain (plain_behind word)).read cursor.old) }
{
    match word {
        SearchWord::All => Ok(SearchKey::All),
        SearchWord::Answered => Ok(flagged(Flag::Answered, true)),
        SearchWord::Bcc => read_text_key(cursor, alloc, SearchIn::Bcc),
        SearchWord::Before => read_date_key(cursor, SearchDate::Before),
        SearchWord::Body => read_text_key(cursor, alloc, SearchIn::Body),
        SearchWord::Cc => read_text_key(cursor, alloc, SearchIn::Cc),
        SearchWord::Deleted => Ok(flagged(Flag::Deleted, true)),
        SearchWord::Draft => Ok(flagged(Flag::Draft, true)),
        SearchWord::Flagged => Ok(flagged(Flag::Flagged, true)),
        SearchWord::From => read_text_key(cursor, alloc, SearchIn::From),
        SearchWord::Header => read_header_key(cursor, alloc),
        SearchWord::Keyword => read_keyword_key(cursor, alloc, true),
        SearchWord::Larger => Ok(SearchKey::Larger(read_size(cursor)?)),
        SearchWord::ModSeq => read_mod_seq_key(cursor, alloc),
        SearchWord::On => read_date_key(cursor, SearchDate::On),
        SearchWord::Seen => Ok(flagged(Flag::Seen, true)),
        SearchWord::Since => read_date_key(cursor, SearchDate::Since),
        SearchWord::Smaller => Ok(SearchKey::Smaller(read_size(cursor)?)),
        SearchWord::Subject => read_text_key(cursor, alloc, SearchIn::Subject),
        SearchWord::Text => read_text_key(cursor, alloc, SearchIn::Text),
        SearchWord::To => read_text_key(cursor, alloc, SearchIn::To),
        SearchWord::Uid => read_uid_key(cursor, alloc),
        SearchWord::Unanswered => Ok(flagged(Flag::Answered, false)),
        SearchWord::Undeleted => Ok(flagged(Flag::Deleted, false)),
        SearchWord::Undraft => Ok(flagged(Flag::Draft, false)),
        SearchWord::Unflagged => Ok(flagged(Flag::Flagged, false)),
        SearchWord::Unkeyword => read_keyword_key(cursor, alloc, false),
        SearchWord::Unseen => Ok(flagged(Flag::Seen, false)),
        SearchWord::SentBefore | SearchWord::SentOn | SearchWord::SentSince => read_sent_key(
            cursor,
        ),
        SearchWord::Not | SearchWord::Or => Err(ReadError::Syntax),
    }
}
