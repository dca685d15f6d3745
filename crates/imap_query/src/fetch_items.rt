//! Reading the items and modifiers of FETCH (RFC 9051, section 9, `fetch`).

ghost use Rattle.std.specs.Prelude.{◌≡◌, [], ◌∷◌, IfOk};
ghost use Rattle.imap_syntax.specs.Reading.{ReadsIfMemory, Reads};
ghost use Rattle.imap_query.specs.Fetch.{item_behind, fetch_item, is_fast, is_unserved, single};
ghost use Rattle.imap_query.specs.Fetch.{fast_items, fetch_items, modifier, one_modifier};
ghost use Rattle.imap_query.specs.Fetch.{another_modifier, both_modifiers, modifiers};

use crate::fetch::FetchItem;
use crate::fetch_word::{FetchWord, Modifier, ModifierWord, Modifiers};
use crate::section::{read_body_section, read_partial, read_section_binary};
use imap_syntax::{Cursor, Item, Items, ReadError};
use std::alloc::{AllocError, Global};

impl Item for FetchItem {
    ghost use Rattle.imap_query.specs.Fetch.{fetch_item};

    type Read = FetchItem;

    ghost item_read = { fetch_item.read };

    fn item(cursor: &mut Cursor<'_>, alloc: Global) -> Result<FetchItem, ReadError> {
        read_fetch_item(cursor, alloc)
    }
}

impl Modifier {
    fn alone(self) -> Modifiers
        ensures { result ≡ one_modifier self }
    {
        match self {
            Modifier::ChangedSince(since) => Modifiers {
                changed_since: Some(since),
                vanished: false,
            },
            Modifier::Vanished => Modifiers {
                changed_since: None,
                vanished: true,
            },
        }
    }

    /// Returns both modifiers, or `None` if they are of one kind.
    fn and(self, other: Modifier) -> Option<Modifiers>
        ensures { result ≡ both_modifiers self other }
    {
        match (self, other) {
            (Modifier::ChangedSince(since), Modifier::Vanished)
            | (Modifier::Vanished, Modifier::ChangedSince(since)) => Some(Modifiers {
                changed_since: Some(since),
                vanished: true,
            }),
            _ => None,
        }
    }
}

impl FetchWord {
    fn is_fast(self) -> bool
        ensures { result ≡ is_fast self }
    {
        matches!(self, FetchWord::Fast)
    }

    /// Whether the word is a macro with an item that isn't served.
    fn is_unserved(self) -> bool
        ensures { result ≡ is_unserved self }
    {
        matches!(self, FetchWord::All | FetchWord::Full)
    }
}

fn fast(alloc: Global) -> Result<Items<FetchItem>, AllocError>
    ensures { IfOk result (λ items. items ≡ fast_items) }
{
    let items = vec![in alloc;
        FetchItem::Flags,
        FetchItem::InternalDate,
        FetchItem::Rfc822Size,
    ]?;
    Ok(Items::from_vec(items))
}

fn one(alloc: Global, item: FetchItem) -> Result<Items<FetchItem>, AllocError>
    ensures { IfOk result (λ items. items ≡ item ∷ []) }
{
    let mut items = Vec::new(alloc);
    items.push(item)?;
    Ok(Items::from_vec(items))
}

/// Reads the part of an item after its word.
fn read_item_behind(
    cursor: &mut Cursor<'_>,
    alloc: Global,
    word: FetchWord,
) -> Result<FetchItem, ReadError>
    ensures { ReadsIfMemory (λ i. i) result cursor.new ((item_behind word).read cursor.old) }
{
    match word {
        FetchWord::All | FetchWord::Fast | FetchWord::Full => Err(ReadError::Syntax),
        FetchWord::Binary | FetchWord::BinaryPeek => {
            read_section_binary(cursor)?;
            read_partial(cursor)?;
            Ok(FetchItem::Unserved)
        }
        FetchWord::BinarySize => {
            read_section_binary(cursor)?;
            Ok(FetchItem::Unserved)
        }
        FetchWord::Body => {
            if cursor.has(b'[') {
                read_body_section(cursor, alloc, false)
            } else {
                Ok(FetchItem::Unserved)
            }
        }
        FetchWord::BodyPeek => {
            cursor.octet(b'[')?;
            read_body_section(cursor, alloc, true)
        }
        FetchWord::BodyStructure | FetchWord::Envelope => Ok(FetchItem::Unserved),
        FetchWord::Flags => Ok(FetchItem::Flags),
        FetchWord::InternalDate => Ok(FetchItem::InternalDate),
        FetchWord::ModSeq => Ok(FetchItem::ModSeq),
        FetchWord::Rfc822Size => Ok(FetchItem::Rfc822Size),
        FetchWord::Uid => Ok(FetchItem::Uid),
    }
}

fn read_fetch_item(cursor: &mut Cursor<'_>, alloc: Global) -> Result<FetchItem, ReadError>
    ensures { ReadsIfMemory (λ i. i) result cursor.new (fetch_item.read cursor.old) }
{
    let word = cursor.keyword::<FetchWord>()?;
    read_item_behind(cursor, alloc, word)
}

/// Reads one item without parentheses, or a macro, after its word.
fn read_single(
    cursor: &mut Cursor<'_>,
    alloc: Global,
    word: FetchWord,
) -> Result<Items<FetchItem>, ReadError>
    ensures { ReadsIfMemory (λ i. i) result cursor.new ((single word).read cursor.old) }
{
    if word.is_fast() {
        return Ok(fast(alloc)?);
    }
    if word.is_unserved() {
        return Ok(one(alloc, FetchItem::Unserved)?);
    }
    let item = read_item_behind(cursor, alloc, word)?;
    Ok(one(alloc, item)?)
}

/// Reads one item, items in parentheses or a macro.
pub fn read_fetch_items(
    cursor: &mut Cursor<'_>,
    alloc: Global,
) -> Result<Items<FetchItem>, ReadError>
    ensures { ReadsIfMemory (λ i. i) result cursor.new (fetch_items.read cursor.old) }
{
    if cursor.has(b'(') {
        let items = cursor.separated::<FetchItem>(alloc, b' ')?;
        cursor.octet(b')')?;
        return Ok(items.into_items());
    }
    let word = cursor.keyword::<FetchWord>()?;
    read_single(cursor, alloc, word)
}

fn read_modifier(cursor: &mut Cursor<'_>) -> Result<Modifier, ReadError>
    ensures { Reads (λ m. m) result cursor.new (modifier.read cursor.old) }
{
    match cursor.keyword::<ModifierWord>()? {
        ModifierWord::ChangedSince => {
            cursor.space()?;
            let since = cursor.number(1, i64::MAX as u64)?;
            Ok(Modifier::ChangedSince(since))
        }
        ModifierWord::Vanished => Ok(Modifier::Vanished),
    }
}

fn read_another_modifier(cursor: &mut Cursor<'_>, first: Modifier) -> Result<Modifiers, ReadError>
    ensures { Reads (λ m. m) result cursor.new ((another_modifier first).read cursor.old) }
{
    if !cursor.has(b' ') {
        return Ok(first.alone());
    }
    let second = read_modifier(cursor)?;
    first.and(second).ok_or(ReadError::Syntax)
}

/// Reads the modifiers after the items, or nothing.
pub fn read_modifiers(cursor: &mut Cursor<'_>) -> Result<Modifiers, ReadError>
    ensures { Reads (λ m. m) result cursor.new (modifiers.read cursor.old) }
{
    if !cursor.has(b' ') {
        return Ok(Modifiers {
            changed_since: None,
            vanished: false,
        });
    }
    cursor.octet(b'(')?;
    let first = read_modifier(cursor)?;
    let modifiers = read_another_modifier(cursor, first)?;
    cursor.octet(b')')?;
    Ok(modifiers)
}
