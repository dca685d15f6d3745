//! Items that a command asks for.

ghost use Rattle.std.specs.Prelude.{◌≡◌, [], IfOk, OnOk, is_some};
ghost use Rattle.std.specs.List.{list_any};
ghost use Rattle.imap_rev1_frames.specs.Asked.{contents_label, envelope_section};
ghost use Rattle.imap_rev1_frames.specs.Asked.{fetch_for, is_labelled, is_recent, is_repeat, is_same_label, is_section};
ghost use Rattle.imap_rev1_frames.specs.Asked.{label_for, label_in, label_name, label_section, other_asked};
ghost use Rattle.imap_rev1_frames.specs.Asked.{section_asked, status_asked, unlabelled_by, with_asked};
ghost use Rattle.imap_rev1_frames.specs.Asked.{without_repeats};

use crate::named::{begins, is_word};
use crate::part::{PartSection, part_for, part_in};
use std::alloc::{AllocError, Global};

/// A name under which a section, or what stands in it, is told in place of its own (RFC 3501, section 6.4.5).
#[derive(Clone, Copy)]
pub enum Label {
    /// RFC822, which is BODY[].
    Message,
    /// RFC822.HEADER, which is BODY.PEEK[HEADER].
    Header,
    /// RFC822.TEXT, which is BODY[TEXT].
    Text,
    /// ENVELOPE, which is read in BODY.PEEK[HEADER].
    Envelope,
    /// BODY, which is read in BODY.PEEK[].
    Body,
    /// BODYSTRUCTURE, which is read in BODY.PEEK[].
    Structure,
    /// ENVELOPE and BODY, for which the macro FULL asks. Both are read in BODY.PEEK[].
    Full,
}

/// An item that a command asks for.
#[derive(Drop)]
pub enum Asked {
    /// RECENT in STATUS, for which MESSAGES is asked.
    Recent,
    /// Another item of STATUS.
    Value,
    /// A section by its label.
    Labelled(Label),
    /// A section that has a label, by its other name.
    Unlabelled(Label),
    /// A section of a part of the message.
    Part(PartSection),
    /// A section that has no label.
    Section,
}

impl Label {
    /// Returns the label as it is written.
    pub fn name(self) -> &'static [u8]
        ensures { result.now ≡ label_name self }
    {
        match self {
            Label::Message => b"RFC822",
            Label::Header => b"RFC822.HEADER",
            Label::Text => b"RFC822.TEXT",
            Label::Envelope | Label::Full => b"ENVELOPE",
            Label::Body => b"BODY",
            Label::Structure => b"BODYSTRUCTURE",
        }
    }

    /// Returns the item that asks for its section, or the items if the word stands for several.
    fn section(self, word: &[u8]) -> &'static [u8]
        ensures { result.now ≡ label_section self word.now }
    {
        match self {
            Label::Message => b"BODY[]",
            Label::Header => b"BODY.PEEK[HEADER]",
            Label::Text => b"BODY[TEXT]",
            Label::Envelope => envelope_section(word),
            Label::Body | Label::Structure => b"BODY.PEEK[]",
            Label::Full => b"(FLAGS INTERNALDATE RFC822.SIZE BODY.PEEK[])",
        }
    }

    fn is_same(self, other: Label) -> bool
        ensures { result ≡ is_same_label self other }
    {
        match self {
            Label::Message => matches!(other, Label::Message),
            Label::Header => matches!(other, Label::Header),
            Label::Text => matches!(other, Label::Text),
            Label::Envelope => matches!(other, Label::Envelope),
            Label::Body => matches!(other, Label::Body),
            Label::Structure => matches!(other, Label::Structure),
            Label::Full => matches!(other, Label::Full),
        }
    }
}

impl Asked {
    /// Whether both ask for the section of a label, and in the same way, or for the same section of a part.
    fn is_repeat(&self, other: &Asked) -> bool
        ensures { result ≡ is_repeat self.now other.now }
    {
        match self {
            Asked::Labelled(label) => match other {
                Asked::Labelled(other) => label.is_same(*other),
                _ => false,
            },
            Asked::Unlabelled(label) => match other {
                Asked::Unlabelled(other) => label.is_same(*other),
                _ => false,
            },
            Asked::Part(part) => match other {
                Asked::Part(other) => part.is_same(other),
                _ => false,
            },
            _ => false,
        }
    }

    /// Whether the item is told as RECENT.
    pub fn is_recent(&self) -> bool
        ensures { result ≡ is_recent self.now }
    {
        matches!(self, Asked::Recent)
    }

    /// Whether the item is told under a label, or is a part.
    pub fn is_labelled(&self) -> bool
        ensures { result ≡ is_labelled self.now }
    {
        matches!(self, Asked::Labelled(_) | Asked::Part(_))
    }
}

/// Returns what an item of STATUS asks for.
pub(crate) fn status_asked(word: &[u8]) -> Asked
    ensures { result ≡ status_asked word.now }
{
    if is_word(b"RECENT", word) {
        Asked::Recent
    } else {
        Asked::Value
    }
}

/// Returns the item that asks for the header. The macro ALL also stands for all items of FAST.
fn envelope_section(word: &[u8]) -> &'static [u8]
    ensures { result.now ≡ envelope_section word.now }
{
    if is_word(b"ALL", word) {
        b"(FLAGS INTERNALDATE RFC822.SIZE BODY.PEEK[HEADER])"
    } else {
        b"BODY.PEEK[HEADER]"
    }
}

/// Returns the label of what is read in a section, if the word asks for that.
fn contents_label(word: &[u8]) -> Option<Label>
    ensures { result ≡ contents_label word.now }
{
    if is_word(b"ENVELOPE", word) || is_word(b"ALL", word) {
        Some(Label::Envelope)
    } else if is_word(b"BODY", word) {
        Some(Label::Body)
    } else if is_word(b"BODYSTRUCTURE", word) {
        Some(Label::Structure)
    } else if is_word(b"FULL", word) {
        Some(Label::Full)
    } else {
        None
    }
}

/// Returns the label that the word is, or that it stands for.
fn label_in(word: &[u8]) -> Option<Label>
    ensures { result ≡ label_in word.now }
{
    if is_word(b"RFC822", word) {
        Some(Label::Message)
    } else if is_word(b"RFC822.HEADER", word) {
        Some(Label::Header)
    } else if is_word(b"RFC822.TEXT", word) {
        Some(Label::Text)
    } else {
        contents_label(word)
    }
}

/// Returns the label for the section that the word asks for.
fn label_for(word: &[u8]) -> Option<Label>
    ensures { result ≡ label_for word.now }
{
    if is_word(b"BODY[]", word) || is_word(b"BODY.PEEK[]", word) {
        Some(Label::Message)
    } else if is_word(b"BODY[HEADER]", word) || is_word(b"BODY.PEEK[HEADER]", word) {
        Some(Label::Header)
    } else if is_word(b"BODY[TEXT]", word) || is_word(b"BODY.PEEK[TEXT]", word) {
        Some(Label::Text)
    } else {
        None
    }
}

/// Whether the word is a section, or its front.
pub(crate) fn is_section(word: &[u8]) -> bool
    ensures { result ≡ is_section word.now }
{
    begins(word, b"BODY[") || begins(word, b"BODY.PEEK[")
}

fn other_asked(alloc: Global, word: &[u8]) -> Result<Option<Asked>, AllocError>
    ensures { IfOk result (λ asked. asked ≡ other_asked word.now) }
{
    if !is_section(word) {
        return Ok(None);
    }
    match part_in(alloc, word)? {
        Some(part) => Ok(Some(Asked::Part(part))),
        None => Ok(Some(Asked::Section)),
    }
}

fn unlabelled_asked(alloc: Global, word: &[u8]) -> Result<Option<Asked>, AllocError>
    ensures { IfOk result (λ asked. asked ≡ unlabelled_by (label_for word.now) word.now) }
{
    match label_for(word) {
        Some(label) => Ok(Some(Asked::Unlabelled(label))),
        None => other_asked(alloc, word),
    }
}

/// Returns the section for which a word of FETCH asks, if it does. If a list of header fields of the message
/// follows, the word is its front.
pub(crate) fn section_asked(alloc: Global, word: &[u8]) -> Result<Option<Asked>, AllocError>
    ensures { IfOk result (λ asked. asked ≡ section_asked word.now) }
{
    match label_in(word) {
        Some(label) => Ok(Some(Asked::Labelled(label))),
        None => unlabelled_asked(alloc, word),
    }
}

/// Whether a word of FETCH asks for a section.
pub(crate) fn asks_section(word: &[u8]) -> bool
    ensures { result ≡ is_some (section_asked word.now) }
{
    label_in(word).is_some() || label_for(word).is_some() || is_section(word)
}

/// Returns what is asked in place of a word of FETCH.
pub(crate) fn fetch_for(alloc: Global, word: &[u8]) -> Result<&[u8], AllocError>
    ensures { IfOk result (λ other. other.now ≡ fetch_for word.now) }
{
    match label_in(word) {
        Some(label) => Ok(label.section(word)),
        None => part_for(alloc, word),
    }
}

fn has_repeat(kept: &[Asked], asked: &Asked) -> bool
    ensures { result ≡ list_any (is_repeat asked.now) kept.now }
{
    kept.iter().any(|other| asked.is_repeat(other))
}

fn push_once(kept: &mut Vec<Asked>, asked: Asked) -> Result<(), AllocError>
    ensures { OnOk result (kept.new.items ≡ with_asked kept.old.items asked) }
{
    if !has_repeat(kept.as_slice(), &asked) {
        kept.push(asked)?;
    }
    Ok(())
}

/// Returns the items without those that are asked for again. So no section is told twice in the same way.
pub(crate) fn without_repeats(alloc: Global, all: Vec<Asked>) -> Result<Vec<Asked>, AllocError>
    ensures { IfOk result (λ kept. kept.items ≡ without_repeats [] all.items) }
{
    let mut kept = Vec::new(alloc);
    for asked in all {
        push_once(&mut kept, asked)?;
    }
    Ok(kept)
}
