//! The words of a line.

ghost use Rattle.std.specs.Prelude.{◌≡◌, IfOk};
ghost use Rattle.imap_rev1_frames.specs.Scan.{start, is_word_octet, is_in_word, takes_string, takes_atom};
ghost use Rattle.imap_rev1_frames.specs.Scan.{arguments, key_for, is_among_items, exchanged, item_for, word_for};
ghost use Rattle.imap_rev1_frames.specs.Scan.{fetch_item_for, asked_by_word, is_alone};
ghost use Rattle.imap_rev1_frames.specs.Scan.{is_item, written_word, word_asked, passed, after_named, after_word};
ghost use Rattle.imap_rev1_frames.specs.Scan.{deeper, less_deep, after_outside, after_inside, after_octet};
ghost use Rattle.imap_rev1_frames.specs.Scan.{has_list, list_length, next_line, opens_list, takes_lists};

use crate::asked::{Asked, asks_section, fetch_for, is_section, section_asked, status_asked};
use crate::fields::fields_length;
use crate::named::{Named, is_word};
use std::alloc::{AllocError, Global};

/// How many parentheses are open.
#[derive(Clone, Copy)]
pub enum Depth {
    None,
    One,
    Two,
    More,
}

/// The place of an octet (RFC 3501, section 9, `quoted`).
#[derive(Clone, Copy)]
pub enum Quoting {
    Outside,
    Inside,
    /// After a backslash.
    Escaped,
}

/// A place in a command.
#[derive(Clone, Copy)]
pub struct Scan {
    named: Named,
    /// The number of words or strings that follow and stay: a tag, or arguments.
    passes: usize,
    depth: Depth,
    quoting: Quoting,
}

/// Whether the octet is none of SP " ( ).
fn is_word_octet(octet: u8) -> bool
    ensures { result ≡ is_word_octet octet }
{
    !matches!(octet, b' ' | b'"' | b'(' | b')')
}

fn takes_string(word: &[u8]) -> bool
    ensures { result ≡ takes_string word.now }
{
    is_word(b"BCC", word)
        || is_word(b"BODY", word)
        || is_word(b"CC", word)
        || is_word(b"FROM", word)
        || is_word(b"SUBJECT", word)
        || is_word(b"TEXT", word)
        || is_word(b"TO", word)
}

fn takes_atom(word: &[u8]) -> bool
    ensures { result ≡ takes_atom word.now }
{
    is_word(b"CHARSET", word) || is_word(b"KEYWORD", word) || is_word(b"UNKEYWORD", word)
}

/// Returns how many words or strings after a search key belong to it and are no keys.
fn arguments(word: &[u8]) -> usize
    ensures { result ≡ arguments word.now }
{
    if is_word(b"HEADER", word) {
        2
    } else if takes_string(word) || takes_atom(word) {
        1
    } else {
        0
    }
}

fn key_for(word: &[u8]) -> &[u8]
    ensures { result.now ≡ key_for word.now }
{
    if is_word(b"NEW", word) || is_word(b"RECENT", word) {
        b"NOT ALL"
    } else if is_word(b"OLD", word) {
        b"ALL"
    } else {
        word
    }
}

/// Returns `other` if `octets` are the word, else `octets`.
fn exchanged<'a>(word: &[u8], other: &'a [u8], octets: &'a [u8]) -> &'a [u8]
    ensures { result.now ≡ exchanged word.now other.now octets.now }
{
    if is_word(word, octets) { other } else { octets }
}

impl Named {
    /// Returns what is written in place of a word that is no argument.
    fn word_for(self, alloc: Global, is_item: bool, word: &[u8]) -> Result<&[u8], AllocError>
        ensures { IfOk result (λ other. other.now ≡ word_for self is_item word.now) }
    {
        match self {
            Named::Check => Ok(exchanged(b"CHECK", b"NOOP", word)),
            Named::Lsub => Ok(exchanged(b"LSUB", b"LIST (SUBSCRIBED)", word)),
            Named::Search => Ok(key_for(word)),
            Named::Status | Named::List => Ok(item_for(is_item, word)),
            Named::Fetch => fetch_item_for(alloc, is_item, word),
            Named::Select | Named::Other => Ok(word),
        }
    }

    /// Whether header lists may stand in it.
    fn takes_lists(self) -> bool
        ensures { result ≡ takes_lists self }
    {
        matches!(self, Named::Fetch)
    }

    fn is_among_items(self, depth: Depth) -> bool
        ensures { result ≡ is_among_items self depth }
    {
        match self {
            Named::Status => matches!(depth, Depth::One),
            Named::List => matches!(depth, Depth::Two),
            Named::Fetch => matches!(depth, Depth::None | Depth::One),
            _ => false,
        }
    }

    /// Returns what a word among the items asks for, if it is one.
    fn asked_by_word(self, alloc: Global, word: &[u8]) -> Result<Option<Asked>, AllocError>
        ensures { IfOk result (λ asked. asked ≡ asked_by_word self word.now) }
    {
        match self {
            Named::Fetch => section_asked(alloc, word),
            _ => Ok(Some(status_asked(word))),
        }
    }
}

fn fetch_item_for(alloc: Global, is_item: bool, word: &[u8]) -> Result<&[u8], AllocError>
    ensures { IfOk result (λ other. other.now ≡ fetch_item_for is_item word.now) }
{
    if is_item {
        fetch_for(alloc, word)
    } else {
        Ok(word)
    }
}

fn opens_list(octets: &[u8]) -> bool
    ensures { result ≡ opens_list octets.now }
{
    matches!(octets, [b' ', b'(', ..])
}

fn item_for(is_item: bool, word: &[u8]) -> &[u8]
    ensures { result.now ≡ item_for is_item word.now }
{
    if is_item {
        exchanged(b"RECENT", b"MESSAGES", word)
    } else {
        word
    }
}

impl Depth {
    fn deeper(self) -> Depth
        ensures { result ≡ deeper self }
    {
        match self {
            Depth::None => Depth::One,
            Depth::One => Depth::Two,
            Depth::Two | Depth::More => Depth::More,
        }
    }

    fn less_deep(self) -> Depth
        ensures { result ≡ less_deep self }
    {
        match self {
            Depth::None | Depth::One => Depth::None,
            Depth::Two => Depth::One,
            Depth::More => Depth::More,
        }
    }

    /// Whether no other item of FETCH stands beside the word. In parentheses after it are header fields or
    /// modifiers.
    fn is_alone(self, word: &[u8]) -> bool
        ensures { result ≡ is_alone self word.now }
    {
        matches!(self, Depth::None) && asks_section(word)
    }
}

impl Scan {
    /// The front of a command.
    pub(crate) fn start(named: Named) -> Scan
        ensures { result ≡ start named }
    {
        Scan {
            named,
            passes: 1,
            depth: Depth::None,
            quoting: Quoting::Outside,
        }
    }

    /// Whether the octet is of a word.
    pub(crate) fn is_in_word(self, octet: u8) -> bool
        ensures { result ≡ is_in_word self octet }
    {
        matches!(self.quoting, Quoting::Outside) && is_word_octet(octet)
    }

    /// Whether a header list may follow the word.
    fn has_list(self, word: &[u8], octets: &[u8]) -> bool
        ensures { result ≡ has_list self word.now octets.now }
    {
        is_section(word) && opens_list(octets) && self.named.takes_lists() && self.is_item()
    }

    /// Returns how many octets after a word belong to it, since they are the header list of a part's section and
    /// its end.
    pub(crate) fn list_length(
        self,
        alloc: Global,
        word: &[u8],
        octets: &[u8],
    ) -> Result<usize, AllocError>
        ensures { IfOk result (λ len. len ≡ list_length self word.now octets.now) }
    {
        if self.has_list(word, octets) {
            fields_length(alloc, word, octets)
        } else {
            Ok(0)
        }
    }

    fn is_item(self) -> bool
        ensures { result ≡ is_item self }
    {
        self.passes == 0 && self.named.is_among_items(self.depth)
    }

    /// Returns what is written in place of the word.
    pub(crate) fn written_word(self, alloc: Global, word: &[u8]) -> Result<&[u8], AllocError>
        ensures { IfOk result (λ other. other.now ≡ written_word self word.now) }
    {
        if self.passes == 0 {
            self.named.word_for(alloc, self.is_item(), word)
        } else {
            Ok(word)
        }
    }

    /// Returns what the word asks for, if it is an item.
    pub(crate) fn word_asked(self, alloc: Global, word: &[u8]) -> Result<Option<Asked>, AllocError>
        ensures { IfOk result (λ asked. asked ≡ word_asked self word.now) }
    {
        if !word.is_empty() && self.is_item() {
            self.named.asked_by_word(alloc, word)
        } else {
            Ok(None)
        }
    }

    fn passed(self) -> Scan
        ensures { result ≡ passed self }
    {
        Scan {
            passes: self.passes.saturating_sub(1),
            ..self
        }
    }

    fn after_named(self, word: &[u8]) -> Scan
        ensures { result ≡ after_named self word.now }
    {
        match self.named {
            Named::Check | Named::Lsub => Scan {
                named: Named::Other,
                ..self
            },
            Named::Search => Scan {
                passes: arguments(word),
                ..self
            },
            Named::Fetch if self.depth.is_alone(word) => Scan {
                named: Named::Other,
                ..self
            },
            _ => self,
        }
    }

    /// Returns the place after the word.
    pub(crate) fn after_word(self, word: &[u8]) -> Scan
        ensures { result ≡ after_word self word.now }
    {
        if word.is_empty() {
            self
        } else if self.passes == 0 {
            self.after_named(word)
        } else {
            self.passed()
        }
    }

    fn after_outside(self, octet: u8) -> Scan
        ensures { result ≡ after_outside self octet }
    {
        match octet {
            b'"' => Scan {
                quoting: Quoting::Inside,
                ..self
            },
            b'(' => Scan {
                depth: self.depth.deeper(),
                ..self
            },
            b')' => Scan {
                depth: self.depth.less_deep(),
                ..self
            },
            _ => self,
        }
    }

    fn after_inside(self, octet: u8) -> Scan
        ensures { result ≡ after_inside self octet }
    {
        match octet {
            b'"' => Scan {
                quoting: Quoting::Outside,
                ..self.passed()
            },
            b'\\' => Scan {
                quoting: Quoting::Escaped,
                ..self
            },
            _ => self,
        }
    }

    /// Returns the place after an octet that belongs to no word.
    pub(crate) fn after_octet(self, octet: u8) -> Scan
        ensures { result ≡ after_octet self octet }
    {
        match self.quoting {
            Quoting::Outside => self.after_outside(octet),
            Quoting::Inside => self.after_inside(octet),
            Quoting::Escaped => Scan {
                quoting: Quoting::Inside,
                ..self
            },
        }
    }

    /// Returns the place at the front of the next line.
    pub(crate) fn next_line(self) -> Scan
        ensures { result ≡ next_line self }
    {
        Scan {
            quoting: Quoting::Outside,
            ..self
        }
    }
}
