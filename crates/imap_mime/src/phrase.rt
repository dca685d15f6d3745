//! Phrases (RFC 5322, section 3.2.5).

ghost use Rattle.std.specs.Prelude.{◌≡◌, [], OnOk};
ghost use Rattle.imap_mime.specs.Parts.{no_phrase, phrase_after_space, phrase_with, with_word_begun};

use crate::octet_string::OctetString;
use std::alloc::{AllocError, Global};

/// Words with a space between each two that white space stands between.
#[derive(Drop)]
pub struct Phrase {
    text: OctetString,
    /// White space stands after the last word.
    gap: bool,
}

impl Phrase {
    /// No words.
    pub fn new(alloc: Global) -> Phrase
        ensures { result ≡ no_phrase }
    {
        Phrase {
            text: OctetString::new(alloc),
            gap: false,
        }
    }

    /// Begins a word, or goes on with the last if no white space stands between.
    pub fn begin_word(&mut self) -> Result<(), AllocError>
        ensures { OnOk result (self.new ≡ with_word_begun self.old) }
    {
        if self.gap {
            self.gap = false;
            self.text.push(b' ')
        } else {
            Ok(())
        }
    }

    /// Appends an octet of a word.
    pub fn push(&mut self, octet: u8) -> Result<(), AllocError>
        ensures { OnOk result (self.new ≡ phrase_with octet self.old) }
    {
        self.begin_word()?;
        self.text.push(octet)
    }

    /// Ends the last word.
    pub fn end_word(&mut self)
        ensures { self.new ≡ phrase_after_space self.old }
    {
        self.gap = !self.text.is_empty();
    }

    /// Returns the words and leaves none.
    pub fn take(&mut self) -> OctetString
        ensures taken { result ≡ self.old.text }
        ensures left { self.new ≡ no_phrase }
    {
        self.gap = false;
        self.text.take()
    }
}
