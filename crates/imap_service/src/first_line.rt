//! Telling a client of IMAP from others by the first line of a connection.
//!
//! What comes by another protocol would be answered BAD line by line, and a line of it that is a command would be
//! carried out: of a web page's request, or of a message that is sent to the wrong port.

ghost use Rattle.std.specs.Prelude.{◌≡◌, IfOk, OnOk};
ghost use Rattle.imap_service.specs.FirstLine.{after_octet, after_octets, first_state, opening_at};
ghost use Rattle.imap_service.specs.FirstLine.{place_after, tag_place, word_state};

use crate::command_words::{LONGEST_WORD, is_command_word};
use imap_lex::is_tag_char;
use std::alloc::{AllocError, Global};
use std::marker::Model;

/// What the first line of a connection begins.
#[derive(Clone, Copy, PartialEq, Eq)]
pub enum Opening {
    /// Too little of it has come.
    Open,
    /// It begins a command of IMAP.
    Command,
    /// It begins no command.
    Refused,
}

/// The place of the next octet in the first line of a connection.
#[derive(Clone, Copy)]
pub(crate) enum Place {
    /// Where a tag is to begin.
    Start,
    /// In the tag.
    Tag,
    /// In the word after the tag and one space.
    Word,
    /// After the word of a command.
    Command,
    /// After what is no command.
    Refused,
}

/// The first line of a connection as far as it has come.
#[derive(Drop)]
pub struct FirstLine {
    place: Place,
    /// The octets of the word.
    word: Vec<u8>,
}

impl Model for FirstLine {
    ghost use Rattle.imap_service.specs.FirstLine.{LineState};

    ghost Value = { LineState };

    ghost view = { λ l. record { place = l.place; word = l.word.items } };
}

impl FirstLine {
    /// Begins a connection.
    pub fn new(alloc: Global) -> FirstLine
        ensures { result ≡ first_state }
    {
        FirstLine {
            place: Place::Start,
            word: Vec::new(alloc),
        }
    }

    /// Takes the next octets.
    pub fn take(&mut self, octets: &[u8]) -> Result<(), AllocError>
        ensures { OnOk result (self.new ≡ after_octets self.old octets.now) }
    {
        let mut rest = octets;
        while let [octet, later @ ..] = rest {
            self.take_octet(*octet)?;
            rest = later;
        }
        Ok(())
    }

    /// Returns what the line begins.
    pub fn opening(&self) -> Opening
        ensures { result ≡ opening_at self.now.place }
    {
        match self.place {
            Place::Start | Place::Tag | Place::Word => Opening::Open,
            Place::Command => Opening::Command,
            Place::Refused => Opening::Refused,
        }
    }

    fn take_octet(&mut self, octet: u8) -> Result<(), AllocError>
        ensures { OnOk result (self.new ≡ after_octet self.old octet) }
    {
        match self.place {
            Place::Start => {
                self.place = in_tag(octet, false);
                Ok(())
            }
            Place::Tag => {
                self.place = in_tag(octet, true);
                Ok(())
            }
            Place::Word => self.take_of_word(octet),
            Place::Command | Place::Refused => Ok(()),
        }
    }

    /// Takes an octet of the word, or the one after it.
    fn take_of_word(&mut self, octet: u8) -> Result<(), AllocError>
        ensures { OnOk result (self.new ≡ word_state self.old octet) }
    {
        if matches!(octet, b' ' | b'\r' | b'\n') {
            self.place = after_word(self.word.as_slice());
            return Ok(());
        }
        if self.word.len() >= LONGEST_WORD {
            self.place = Place::Refused;
            return Ok(());
        }
        self.word.push(octet)?;
        Ok(())
    }
}

/// The place after this octet in front of or in a tag, of which some octets have come or not.
fn in_tag(octet: u8, has_begun: bool) -> Place
    ensures { result ≡ tag_place has_begun octet }
{
    if is_tag_char(octet) {
        Place::Tag
    } else if has_begun && octet == b' ' {
        Place::Word
    } else {
        Place::Refused
    }
}

/// The place after this word.
fn after_word(word: &[u8]) -> Place
    ensures { result ≡ place_after word.now }
{
    if is_command_word(word) {
        Place::Command
    } else {
        Place::Refused
    }
}
