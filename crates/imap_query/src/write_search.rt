//! Writing the keys and options of SEARCH.

ghost use Rattle.std.specs.Prelude.{◌≡◌, ◌++◌, ◌∷◌, [], OnOk, map, codes, decimal};
ghost use Rattle.imap_query.specs.SearchWords.{search_name};
ghost use Rattle.imap_query.specs.Keys.{key_of, keys_of, group};
ghost use Rattle.imap_syntax.specs.Writing.{joined, further};
ghost use Rattle.imap_query.specs.WrittenSearch.{search_flag_fits, flag_word, keyword_text, place_word};
ghost use Rattle.imap_query.specs.WrittenSearch.{relation_word, flagged_text, text_key_text, header_key_text};
ghost use Rattle.imap_query.specs.WrittenSearch.{date_key_text, number_key_text, uid_key_text, unserved_text};
ghost use Rattle.imap_query.specs.WrittenSearch.{key_fits, fits_over, row_fits, key_text, search_keys};
ghost use Rattle.imap_query.specs.WrittenSearch.{some_returns_text, returns_text, charset_fits};
ghost use Rattle.imap_query.specs.WrittenSearch.{charset_name_text, charset_text};

use crate::search::{SearchDate, SearchIn, SearchKey, SearchKeys, SearchReturn};
use crate::search_keys::MAX_KEY_LEVELS;
use crate::search_word::SearchWord;
use imap_lex::Octets;
use imap_syntax::{
    Atom, Date, FieldName, Flag, Keyword, MessageSet, Spelling, Word, date_fits, is_atom,
    is_quotable, number64_fits, push_astring, push_date, push_listed, push_number, push_quoted,
    push_set, set_fits, string_fits,
};
use std::alloc::AllocError;

// ---- what fits

fn search_flag_fits(flag: &Flag) -> bool
    ensures { result ≡ search_flag_fits flag.now }
{
    match flag {
        Flag::Other(_) => false,
        Flag::Keyword(name) => Atom::fits(name),
        _ => true,
    }
}

/// Whether the key can be written with fewer than `levels` levels.
#[cycle(fits)]
#[tactic(auto, unfolding(crate::specs::WrittenSearch::key_fits))]
fn key_fits(key: &SearchKey, levels: u8) -> bool
    ensures { result ≡ key_fits levels (key_of key.now) }
{
    if levels == 0 {
        return false;
    }
    fits_over(key, levels - 1)
}

/// Whether the key can be written if each key within it has fewer than `inner` levels.
#[cycle(fits)]
fn fits_over(key: &SearchKey, inner: u8) -> bool
    ensures { result ≡ fits_over (key_fits inner) (key_of key.now) }
{
    match key {
        SearchKey::All => true,
        SearchKey::Flag { flag, set: _ } => search_flag_fits(flag),
        SearchKey::Contains { place: _, text } => string_fits(text),
        SearchKey::Header { field, text } => FieldName::fits(field) && string_fits(text),
        SearchKey::Date { relation: _, date } => date_fits(date),
        SearchKey::Larger(size) => number64_fits(*size),
        SearchKey::Smaller(size) => number64_fits(*size),
        SearchKey::ModSeq(least) => number64_fits(*least),
        SearchKey::Numbers(messages) => set_fits(messages),
        SearchKey::Uids(messages) => set_fits(messages),
        SearchKey::Not(key) => key_fits(key, inner),
        SearchKey::Or(left, right) => key_fits(left, inner) && key_fits(right, inner),
        SearchKey::Group(keys) => keys_fit(keys, inner),
        SearchKey::Unserved => true,
    }
}

/// Whether there are keys, and each can be written.
#[cycle(fits)]
fn keys_fit(keys: &[SearchKey], levels: u8) -> bool
    ensures { result ≡ fits_over (key_fits levels) (group (keys_of (map key_of keys.now))) }
{
    match keys {
        [] => false,
        [first, others @ ..] => key_fits(first, levels) && each_fits(others, levels),
    }
}

#[cycle(fits)]
fn each_fits(keys: &[SearchKey], levels: u8) -> bool
    ensures { result ≡ row_fits (key_fits levels) (keys_of (map key_of keys.now)) }
{
    for key in keys {
        if !key_fits(key, levels) {
            return false;
        }
    }
    true
}

/// Whether the keys can be written: there is a key, each value is in its bounds, and none is nested too deep.
pub fn search_keys_fit(keys: &SearchKeys) -> bool
    ensures { result ≡ search_keys.fits keys.now }
{
    keys_fit(keys.as_slice(), MAX_KEY_LEVELS)
}

/// Whether the name of the charset, if there is one, can be written.
pub fn charset_fits(charset: &Option<Octets>) -> bool
    ensures { result ≡ charset_fits charset.now }
{
    match charset {
        Some(name) => is_quotable(name.as_slice()),
        None => true,
    }
}

// ---- keys without others within them

fn flag_word(flag: &Flag, set: bool) -> SearchWord
    ensures { result ≡ flag_word flag.now set }
{
    match (flag, set) {
        (Flag::Answered, true) => SearchWord::Answered,
        (Flag::Answered, false) => SearchWord::Unanswered,
        (Flag::Deleted, true) => SearchWord::Deleted,
        (Flag::Deleted, false) => SearchWord::Undeleted,
        (Flag::Draft, true) => SearchWord::Draft,
        (Flag::Draft, false) => SearchWord::Undraft,
        (Flag::Flagged, true) => SearchWord::Flagged,
        (Flag::Flagged, false) => SearchWord::Unflagged,
        (Flag::Seen, true) => SearchWord::Seen,
        (Flag::Seen, false) => SearchWord::Unseen,
        (Flag::Other(_) | Flag::Keyword(_), true) => SearchWord::Keyword,
        (Flag::Other(_) | Flag::Keyword(_), false) => SearchWord::Unkeyword,
    }
}

fn place_word(place: SearchIn) -> SearchWord
    ensures { result ≡ place_word place }
{
    match place {
        SearchIn::Bcc => SearchWord::Bcc,
        SearchIn::Body => SearchWord::Body,
        SearchIn::Cc => SearchWord::Cc,
        SearchIn::From => SearchWord::From,
        SearchIn::Subject => SearchWord::Subject,
        SearchIn::Text => SearchWord::Text,
        SearchIn::To => SearchWord::To,
    }
}

fn relation_word(relation: SearchDate) -> SearchWord
    ensures { result ≡ relation_word relation }
{
    match relation {
        SearchDate::Before => SearchWord::Before,
        SearchDate::On => SearchWord::On,
        SearchDate::Since => SearchWord::Since,
    }
}

fn push_word(out: &mut Vec<u8>, word: SearchWord) -> Result<(), AllocError>
    ensures { OnOk result (out.new.items ≡ out.old.items ++ search_name word) }
{
    out.extend_from_slice(word.name())
}

fn push_keyword(out: &mut Vec<u8>, flag: &Flag) -> Result<(), AllocError>
    ensures { OnOk result (out.new.items ≡ out.old.items ++ keyword_text flag.now) }
{
    match flag {
        Flag::Keyword(name) => {
            out.push(b' ')?;
            out.extend_from_slice(name.as_slice())
        }
        _ => Ok(()),
    }
}

fn push_flag_key(out: &mut Vec<u8>, flag: &Flag, set: bool) -> Result<(), AllocError>
    ensures { OnOk result (out.new.items ≡ out.old.items ++ flagged_text flag.now set) }
{
    push_word(out, flag_word(flag, set))?;
    push_keyword(out, flag)
}

fn push_text_key(out: &mut Vec<u8>, word: SearchWord, text: &Octets) -> Result<(), AllocError>
    ensures { OnOk result (out.new.items ≡ out.old.items ++ text_key_text word text.now) }
{
    push_word(out, word)?;
    out.push(b' ')?;
    push_astring(out, text)
}

fn push_header_key(out: &mut Vec<u8>, field: &FieldName, text: &Octets) -> Result<(), AllocError>
    ensures { OnOk result (out.new.items ≡ out.old.items ++ header_key_text field.now text.now) }
{
    push_word(out, SearchWord::Header)?;
    out.push(b' ')?;
    FieldName::push(out, field)?;
    out.push(b' ')?;
    push_astring(out, text)
}

fn push_date_key(out: &mut Vec<u8>, word: SearchWord, date: &Date) -> Result<(), AllocError>
    ensures { OnOk result (out.new.items ≡ out.old.items ++ date_key_text word date.now) }
{
    push_word(out, word)?;
    out.push(b' ')?;
    push_date(out, date)
}

fn push_number_key(out: &mut Vec<u8>, word: SearchWord, number: u64) -> Result<(), AllocError>
    ensures { OnOk result (out.new.items ≡ out.old.items ++ number_key_text word number) }
{
    push_word(out, word)?;
    out.push(b' ')?;
    push_number(out, number)
}

fn push_uid_key(out: &mut Vec<u8>, messages: &MessageSet) -> Result<(), AllocError>
    ensures { OnOk result (out.new.items ≡ out.old.items ++ uid_key_text messages.now) }
{
    push_word(out, SearchWord::Uid)?;
    out.push(b' ')?;
    push_set(out, messages)
}

/// Appends a key that isn't served: SENTON with some day.
fn push_unserved(out: &mut Vec<u8>) -> Result<(), AllocError>
    ensures { OnOk result (out.new.items ≡ out.old.items ++ unserved_text) }
{
    out.extend_from_slice(b"SENTON 1-Jan-2000")
}

// ---- keys

#[cycle(pushes)]
fn push_key(out: &mut Vec<u8>, key: &SearchKey) -> Result<(), AllocError>
    ensures { OnOk result (out.new.items ≡ out.old.items ++ key_text (key_of key.now)) }
{
    match key {
        SearchKey::All => push_word(out, SearchWord::All),
        SearchKey::Flag { flag, set } => push_flag_key(out, flag, *set),
        SearchKey::Contains { place, text } => push_text_key(out, place_word(*place), text),
        SearchKey::Header { field, text } => push_header_key(out, field, text),
        SearchKey::Date { relation, date } => push_date_key(out, relation_word(*relation), date),
        SearchKey::Larger(size) => push_number_key(out, SearchWord::Larger, *size),
        SearchKey::Smaller(size) => push_number_key(out, SearchWord::Smaller, *size),
        SearchKey::ModSeq(least) => push_number_key(out, SearchWord::ModSeq, *least),
        SearchKey::Numbers(messages) => push_set(out, messages),
        SearchKey::Uids(messages) => push_uid_key(out, messages),
        SearchKey::Not(key) => {
            out.extend_from_slice(b"NOT ")?;
            push_key(out, key)
        }
        SearchKey::Or(left, right) => {
            out.extend_from_slice(b"OR ")?;
            push_key(out, left)?;
            out.push(b' ')?;
            push_key(out, right)
        }
        SearchKey::Group(keys) => {
            out.push(b'(')?;
            push_keys(out, keys)?;
            out.push(b')')?;
            Ok(())
        }
        SearchKey::Unserved => push_unserved(out),
    }
}

/// Appends the keys with spaces between them.
#[cycle(pushes)]
fn push_keys(out: &mut Vec<u8>, keys: &[SearchKey]) -> Result<(), AllocError>
    ensures { OnOk result (out.new.items ≡ out.old.items ++ joined 32 key_text (map key_of keys.now)) }
{
    match keys {
        [] => Ok(()),
        [first, others @ ..] => {
            push_key(out, first)?;
            for key in others {
                out.push(b' ')?;
                push_key(out, key)?;
            }
            Ok(())
        }
    }
}

/// Appends the keys of a SEARCH, with spaces between them.
pub fn push_search_keys(out: &mut Vec<u8>, keys: &SearchKeys) -> Result<(), AllocError>
    ensures { OnOk result (out.new.items ≡ out.old.items ++ search_keys.text keys.now) }
{
    push_keys(out, keys.as_slice())
}

// ---- what stands before the keys

/// Appends `search-return-opts` and a space, or nothing if there are no options.
pub fn push_returns(out: &mut Vec<u8>, returns: &[SearchReturn]) -> Result<(), AllocError>
    ensures { OnOk result (out.new.items ≡ out.old.items ++ returns_text returns.now) }
{
    match returns {
        [] => Ok(()),
        _ => push_some_returns(out, returns),
    }
}

fn push_some_returns(out: &mut Vec<u8>, returns: &[SearchReturn]) -> Result<(), AllocError>
    ensures { OnOk result (out.new.items ≡ out.old.items ++ some_returns_text returns.now) }
{
    out.extend_from_slice(b"RETURN ")?;
    push_listed::<Word<SearchReturn>>(out, returns)?;
    out.push(b' ')?;
    Ok(())
}

/// Appends the name of a charset: an atom as it is, all else in quotes.
fn push_charset_name(out: &mut Vec<u8>, name: &[u8]) -> Result<(), AllocError>
    ensures { OnOk result (out.new.items ≡ out.old.items ++ charset_name_text name.now) }
{
    if is_atom(name) {
        out.extend_from_slice(name)
    } else {
        push_quoted(out, name)
    }
}

/// Appends CHARSET, its name and a space, or nothing.
pub fn push_charset(out: &mut Vec<u8>, charset: &Option<Octets>) -> Result<(), AllocError>
    ensures { OnOk result (out.new.items ≡ out.old.items ++ charset_text charset.now) }
{
    match charset {
        Some(name) => {
            out.extend_from_slice(b"CHARSET ")?;
            push_charset_name(out, name.as_slice())?;
            out.push(b' ')?;
            Ok(())
        }
        None => Ok(()),
    }
}
