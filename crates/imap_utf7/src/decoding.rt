//! Texts, read.

ghost use Rattle.std.specs.Prelude.{◌≡◌, ◌++◌, ◌∷◌, [], true, false, IfOk, OnOk, encode_utf8_all, option_map, string_bytes};
ghost use Rattle.imap_utf7.specs.Shifts.{IsModified};
ghost use Rattle.imap_utf7.specs.Spelling.{decoded, read, section_characters};
ghost use Rattle.imap_utf7.specs.Reading.{GoesOn};

use crate::encoding::encode;
use crate::shifts::{modified, read_shifted};
use base64::engine::general_purpose::GeneralPurpose;
use std::alloc::{AllocError, Global};

/// The text so far.
#[derive(Drop)]
pub(crate) struct Reading {
    alloc: Global,
    is_shifted: bool,
    /// The octets since `&`.
    section: Vec<u8>,
    text: String,
}

impl Reading {
    /// Appends the characters of the section, which has ended.
    fn end_section(&mut self, engine: &GeneralPurpose) -> Result<(), AllocError>
        requires { IsModified engine.now }
        ensures { OnOk result (string_bytes self.new.text
            ≡ string_bytes self.old.text ++ encode_utf8_all (section_characters self.old.section.items)) }
    {
        if self.section.is_empty() {
            return self.text.push('&');
        }
        let read = read_shifted(engine, self.alloc, self.section.as_slice())?;
        self.text.push_str(read.as_str())
    }

    fn push_shifted(&mut self, engine: &GeneralPurpose, octet: u8) -> Result<(), AllocError>
        requires engine { IsModified engine.now }
        requires shifted { self.old.is_shifted ≡ true }
        ensures { OnOk result (GoesOn (octet ∷ []) self.old self.new) }
    {
        if octet != b'-' {
            self.section.push(octet)?;
            return Ok(());
        }
        self.end_section(engine)?;
        self.section.clear();
        self.is_shifted = false;
        Ok(())
    }

    fn push_direct(&mut self, octet: u8) -> Result<(), AllocError>
        requires { self.old.is_shifted ≡ false }
        ensures { OnOk result (GoesOn (octet ∷ []) self.old self.new) }
    {
        if octet != b'&' {
            return self.text.push(char::from(octet));
        }
        self.section.clear();
        self.is_shifted = true;
        Ok(())
    }

    fn push(&mut self, engine: &GeneralPurpose, octet: u8) -> Result<(), AllocError>
        requires { IsModified engine.now }
        ensures { OnOk result (GoesOn (octet ∷ []) self.old self.new) }
    {
        if self.is_shifted {
            self.push_shifted(engine, octet)
        } else {
            self.push_direct(octet)
        }
    }
}

/// Returns the text for which the octets stand. Where they are no modified UTF-7, it is some text.
fn read(alloc: Global, octets: &[u8]) -> Result<String, AllocError>
    ensures { IfOk result (λ text. string_bytes text ≡ encode_utf8_all (read octets.now)) }
{
    let engine = modified();
    let mut reading = Reading {
        alloc,
        is_shifted: false,
        section: Vec::new(alloc),
        text: String::new(alloc),
    };
    for octet in octets {
        reading.push(&engine, *octet)?;
    }
    Ok(reading.text)
}

/// Returns the text of which the octets are the spelling, or `None` if they are that of no text.
pub fn decode(alloc: Global, octets: &[u8]) -> Result<Option<String>, AllocError>
    ensures { IfOk result (λ found. option_map string_bytes found ≡ decoded octets.now) }
{
    let text = read(alloc, octets)?;
    let spelling = encode(alloc, text.as_str())?;
    if spelling.as_bytes() == octets {
        Ok(Some(text))
    } else {
        Ok(None)
    }
}
