//! Keywords of a message.

ghost use Rattle.std.specs.Prelude.{◌≡◌, ◌↔◌, IsTrue, IfOk, OnErr, OnOk, [], ◌∷◌, ◌++◌, length};
ghost use Rattle.std.specs.BTreeSet.{insert_key};
ghost use Rattle.std.specs.Cmp.Lexicographic.{slice_cmp};
ghost use Rattle.std.specs.List.Sorted.{IsSearchInRange};
ghost use Rattle.std.specs.Ordering.{nat_cmp};
ghost use Rattle.imap_syntax.specs.Keywords.{with_word, without_word, with_words, word_place};
ghost use Rattle.imap_syntax.specs.Keywords.{AreRising, AreLower, AreKeywords};

use crate::atom::Atom;
use imap_values::{Same, TryCopy};
use std::alloc::{AllocError, Global};
use std::cmp::Ordering;
use std::marker::Model;
use std::sync::Arc;

/// A set of keywords (RFC 9051, section 2.3.2), in the order of their octets.
///
/// Keywords are compared without ASCII case, and kept in lower case. A copy shares them and takes no memory.
#[derive(Drop)]
pub struct Keywords(Option<Arc<Vec<Atom>>>);

impl Model for Keywords {
    ghost use Rattle.std.specs.Prelude.{ℕ, List};
    ghost use Rattle.std.specs.Option.{option_map};
    ghost use Rattle.std.specs.Arc.{arc_value};
    ghost use Rattle.imap_syntax.specs.Keywords.{AreKeywords, words_in};

    ghost Value = { List (List ℕ) };

    ghost view = { λ k. words_in (option_map arc_value k.0) };

    ghost invariant = { λ k. AreKeywords (words_in (option_map arc_value k.0)) };
}

impl Keywords {
    /// No keywords. It takes no memory.
    pub fn new(_alloc: Global) -> Keywords
        ensures { result ≡ [] }
    {
        Keywords(None)
    }

    /// The keywords in lower case, in the order of their octets.
    pub fn as_slice(&self) -> &[Atom]
        ensures words { result.now ≡ self.now }
        ensures valid { AreKeywords self.now }
    {
        match &self.0 {
            Some(words) => words.as_slice(),
            None => &[],
        }
    }

    /// The number of keywords.
    pub fn len(&self) -> usize
        ensures { result ≡ length self.now }
    {
        self.as_slice().len()
    }

    /// Adds a keyword, in lower case, unless it is there.
    pub fn insert(&mut self, alloc: Global, word: &Atom) -> Result<(), AllocError>
        ensures ok { OnOk result (self.new ≡ with_word word.now self.old) }
        ensures err { OnErr result (self.new ≡ self.old) }
    {
        let lower = word.lowered(alloc)?;
        match place_of(self.as_slice(), lower.as_slice()) {
            Ok(_) => Ok(()),
            Err(place) => {
                let mut words = copy_words(alloc, self.as_slice())?;
                words.insert(place, lower)?;
                self.set(alloc, words)
            }
        }
    }

    /// Removes a keyword, in whichever case it is written, if it is there.
    pub fn remove(&mut self, alloc: Global, word: &Atom) -> Result<(), AllocError>
        ensures ok { OnOk result (self.new ≡ without_word word.now self.old) }
        ensures err { OnErr result (self.new ≡ self.old) }
    {
        let words = copy_others(alloc, self.as_slice(), word.as_slice())?;
        self.set(alloc, words)
    }

    /// Adds all keywords of another set, in one pass over both.
    pub fn insert_all(&mut self, alloc: Global, others: &Keywords) -> Result<(), AllocError>
        ensures ok { OnOk result (self.new ≡ with_words others.now self.old) }
        ensures err { OnErr result (self.new ≡ self.old) }
    {
        let words = merge(alloc, self.as_slice(), others.as_slice())?;
        self.set(alloc, words)
    }

    // Puts other keywords in the place of all.
    fn set(&mut self, alloc: Global, words: Vec<Atom>) -> Result<(), AllocError>
        requires { AreKeywords words.items }
        ensures ok { OnOk result (self.new ≡ words.items) }
        ensures err { OnErr result (self.new ≡ self.old) }
    {
        self.0 = Some(Arc::new(alloc, words)?);
        Ok(())
    }
}

impl TryCopy for Keywords {
    fn try_copy(&self, _alloc: Global) -> Result<Keywords, AllocError> {
        match &self.0 {
            Some(words) => Ok(Keywords(Some(Arc::try_clone(words)?))),
            None => Ok(Keywords(None)),
        }
    }
}

impl Same for Keywords {
    fn is_same(&self, other: &Keywords) -> bool {
        are_same(self.as_slice(), other.as_slice())
    }
}

// Ok with the place of a word, or Err with the place for it, by a search that halves.
fn place_of(words: &[Atom], word: &[u8]) -> Result<usize, usize>
    requires { AreRising words.now }
    ensures place { result ≡ word_place word.now words.now }
    ensures bound { IsSearchInRange result (length words.now) }
{
    words.binary_search_by(
        |kept: &Atom| -> Ordering
            ensures { result ≡ slice_cmp nat_cmp kept.now word.entry.now }
        { kept.as_slice().cmp(word) },
    )
}

// The same words, which share their octets.
fn copy_words(alloc: Global, words: &[Atom]) -> Result<Vec<Atom>, AllocError>
    ensures { IfOk result (λ copies. copies.items ≡ words.now) }
{
    let mut copies = Vec::new(alloc);
    for word in words {
        let copy = word.try_copy(alloc)?;
        copies.push(copy)?;
    }
    Ok(copies)
}

// Appends the same words, which share their octets.
fn push_copies(all: &mut Vec<Atom>, alloc: Global, words: &[Atom]) -> Result<(), AllocError>
    ensures { OnOk result (all.new.items ≡ all.old.items ++ words.now) }
{
    for word in words {
        let copy = word.try_copy(alloc)?;
        all.push(copy)?;
    }
    Ok(())
}

// The words before a word, and those after it.
fn split_around<'a>(words: &'a [Atom], word: &[u8]) -> (&'a [Atom], &'a [Atom])
    requires { AreRising words.now }
    ensures { insert_key (slice_cmp nat_cmp) words.now word.now ≡ result.0.now ++ word.now ∷ result.1.now }
{
    match place_of(words, word) {
        Ok(place) => (words.split_at(place).0, words.split_at(place + 1).1),
        Err(place) => words.split_at(place),
    }
}

// The words of both sets, which share their octets.
fn merge(alloc: Global, words: &[Atom], others: &[Atom]) -> Result<Vec<Atom>, AllocError>
    requires words { AreRising words.now }
    requires others { AreRising others.now }
    requires lower { AreLower others.now }
    ensures { IfOk result (λ all. all.items ≡ with_words others.now words.now) }
{
    let mut all = Vec::new(alloc);
    let mut rest = words;
    for other in others {
        let (before, after) = split_around(rest, other.as_slice());
        push_copies(&mut all, alloc, before)?;
        let copy = other.try_copy(alloc)?;
        all.push(copy)?;
        rest = after;
    }
    push_copies(&mut all, alloc, rest)?;
    Ok(all)
}

// The words but one, whatever its case. They share their octets.
fn copy_others(alloc: Global, words: &[Atom], word: &[u8]) -> Result<Vec<Atom>, AllocError>
    ensures { IfOk result (λ copies. copies.items ≡ without_word word.now words.now) }
{
    let mut copies = Vec::new(alloc);
    for kept in words {
        if kept.as_slice().eq_ignore_ascii_case(word) {
            continue;
        }
        let copy = kept.try_copy(alloc)?;
        copies.push(copy)?;
    }
    Ok(copies)
}

fn are_same(words: &[Atom], others: &[Atom]) -> bool
    ensures { IsTrue result ↔ (words.now ≡ others.now) }
{
    let mut rest = others;
    for word in words {
        match rest {
            [] => return false,
            [other, later @ ..] => {
                if !word.is_same(other) {
                    return false;
                }
                rest = later;
            }
        }
    }
    rest.is_empty()
}
