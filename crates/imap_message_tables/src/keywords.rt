//! The keywords of a message, as a text and one by one.

ghost use Rattle.std.specs.Prelude.{◌≡◌, ◌<◌, ◌∷◌, ◌++◌, [], IfNone, IfOk, IfSome, List, MatchOption, OnOk, bytes_eq, length, map, string_bytes, ℕ};
ghost use Rattle.std.specs.List.{list_any};
ghost use Rattle.imap_message_tables.specs.Parts.{is_among, words_but};
ghost use Rattle.imap_message_tables.specs.Split.{IsSpaceless};
ghost use Rattle.imap_message_tables.specs.Writing.{ArePieces, AreWordsIn};

use crate::plain::{are_plain, rise};
use std::alloc::{AllocError, Global};

/// The text before the first space, and that after it.
#[tactic(auto, using(crate::proofs::Pieces::split_cut, crate::proofs::Pieces::split_none))]
fn first_piece(text: &str) -> Option<(&str, &str)>
    ensures cut { IfSome result (λ parts. text.now ≡ parts.0.now ++ 32 ∷ parts.1.now) }
    ensures first { IfSome result (λ parts. IsSpaceless parts.0.now) }
    ensures whole { IfNone result (IsSpaceless text.now) }
    ensures shorter { IfSome result (λ parts. length parts.1.now < length text.now) }
{
    text.split_once(' ')
}

/// Appends a text.
fn push(texts: &mut Vec<String>, alloc: Global, text: &str) -> Result<(), AllocError>
    ensures { OnOk result (map string_bytes texts.new.items
        ≡ map string_bytes texts.old.items ++ text.now ∷ []) }
{
    let text = String::from_str(alloc, text)?;
    texts.push(text)?;
    Ok(())
}

/// The pieces of a text between its spaces. An empty text has none.
fn pieces_of(alloc: Global, text: &str) -> Result<Vec<String>, AllocError>
    ensures { IfOk result (λ pieces. ArePieces text.now (map string_bytes pieces.items)) }
{
    let mut pieces = Vec::new(alloc);
    if text.is_empty() {
        return Ok(pieces);
    }
    let mut rest = text;
    while let Some((piece, more)) = first_piece(rest) {
        push(&mut pieces, alloc, piece)?;
        rest = more;
    }
    push(&mut pieces, alloc, rest)?;
    Ok(pieces)
}

/// The keywords of a text, which has a space between them. `None` if they don't rise by their
/// octets, or one is empty.
pub(crate) fn words_of(alloc: Global, text: &str) -> Result<Option<Vec<String>>, AllocError>
    ensures { IfOk result (λ found. MatchOption found
        ((words : List (List ℕ)) → AreWordsIn text.now words → ⊥)
        (λ words. AreWordsIn text.now (map string_bytes words.items))) }
{
    let words = pieces_of(alloc, text)?;
    if !rise(words.as_slice()) {
        return Ok(None);
    }
    if !are_plain(words.as_slice()) {
        return Ok(None);
    }
    Ok(Some(words))
}

fn has_word(words: &[String], word: &str) -> bool
    ensures { result ≡ list_any (λ other. bytes_eq word.now (string_bytes other)) words.now }
{
    words.iter().any(
        |other: &String| -> bool
            ensures { result ≡ bytes_eq word.entry.now (string_bytes other.now) }
        { word == other.as_str() },
    )
}

fn is_in(words: &[String], word: &str) -> bool
    ensures { result ≡ is_among (map string_bytes words.now) word.now }
{
    has_word(words, word)
}

/// The words that are not among others.
pub(crate) fn without(
    alloc: Global,
    words: &[String],
    others: &[String],
) -> Result<Vec<String>, AllocError>
    ensures { IfOk result (λ left. map string_bytes left.items
        ≡ words_but (map string_bytes words.now) (map string_bytes others.now)) }
{
    let mut left = Vec::new(alloc);
    'words: for word in words {
        if !is_in(others, word) {
            push(&mut left, alloc, word)?;
        }
    }
    Ok(left)
}
