//! Paths of folders, read.

ghost use Rattle.std.specs.Prelude.{◌≡◌, ◌∷◌, ◌++◌, [], chars, encode_utf8_all, string_bytes, IfOk, OnOk};
ghost use Rattle.imap_maildir_names.specs.declared.unmarking.Held.TheVariants.{Percent, Digit};
ghost use Rattle.imap_maildir_names.specs.Unmarking as specs;
ghost use Rattle.imap_maildir_names.specs.Unmarking.{GoesOn};

use std::alloc::{AllocError, Global};

/// What was read and stands for nothing yet.
#[derive(Clone, Copy)]
pub(crate) enum Held {
    Nothing,
    /// `%`
    Percent,
    /// `%` and a hexadecimal digit.
    Digit(char),
}

/// The text so far.
#[derive(Drop)]
pub(crate) struct Unmarking {
    held: Held,
    text: String,
}

/// Returns the ASCII letter of two hexadecimal digits, or `None` if they are that of none.
fn letter_of(high: char, low: char) -> Option<char>
    ensures { result ≡ specs.letter_of high low }
{
    let high = high.to_digit(16)?;
    let low = low.to_digit(16)?;
    if high < 8 {
        char::from_u32(high * 16 + low)
    } else {
        None
    }
}

/// Reads a letter after what stands for itself.
fn push_plain(text: &mut String, char: char) -> Result<Held, AllocError>
    ensures text { OnOk result
        (string_bytes text.new ≡ string_bytes text.old ++ encode_utf8_all (specs.plain char)) }
    ensures held { IfOk result (λ held. held ≡ specs.held_after char) }
{
    if char == '%' {
        return Ok(Held::Percent);
    }
    text.push(char)?;
    Ok(Held::Nothing)
}

/// Reads a letter after a `%`. With a slash it stands for nothing: a level is continued.
fn push_after_percent(text: &mut String, char: char) -> Result<Held, AllocError>
    ensures text { OnOk result
        (string_bytes text.new ≡ string_bytes text.old ++ encode_utf8_all (specs.out Percent char)) }
    ensures held { IfOk result (λ held. held ≡ specs.next Percent char) }
{
    if char == '/' {
        return Ok(Held::Nothing);
    }
    if char.is_ascii_hexdigit() {
        return Ok(Held::Digit(char));
    }
    text.push('%')?;
    push_plain(text, char)
}

/// Reads a letter after a `%` and a digit.
fn push_after_digit(text: &mut String, high: char, char: char) -> Result<Held, AllocError>
    ensures text { OnOk result
        (string_bytes text.new ≡ string_bytes text.old ++ encode_utf8_all (specs.out (Digit high) char)) }
    ensures held { IfOk result (λ held. held ≡ specs.next (Digit high) char) }
{
    if let Some(letter) = letter_of(high, char) {
        text.push(letter)?;
        return Ok(Held::Nothing);
    }
    text.push('%')?;
    text.push(high)?;
    push_plain(text, char)
}

impl Unmarking {
    /// Reads a letter.
    fn push(&mut self, char: char) -> Result<(), AllocError>
        ensures { OnOk result (GoesOn (char ∷ []) self.old self.new) }
    {
        self.held = match self.held {
            Held::Nothing => push_plain(&mut self.text, char)?,
            Held::Percent => push_after_percent(&mut self.text, char)?,
            Held::Digit(high) => push_after_digit(&mut self.text, high, char)?,
        };
        Ok(())
    }

    /// Reads the letters of a text.
    fn push_text(&mut self, text: &str) -> Result<(), AllocError>
        ensures { OnOk result (GoesOn (chars text.now) self.old self.new) }
    {
        for char in text.chars() {
            self.push(char)?;
        }
        Ok(())
    }

    /// Reads that no letter follows.
    fn end(mut self) -> Result<String, AllocError>
        ensures { IfOk result (λ text. string_bytes text
            ≡ string_bytes self.text ++ encode_utf8_all (specs.rest self.held)) }
    {
        match self.held {
            Held::Nothing => {}
            Held::Percent => self.text.push('%')?,
            Held::Digit(high) => {
                self.text.push('%')?;
                self.text.push(high)?;
            }
        }
        Ok(self.text)
    }
}

/// Returns the text for which the path of a folder stands.
pub(crate) fn unmarked(alloc: Global, path: &str) -> Result<String, AllocError>
    ensures { IfOk result (λ text. string_bytes text ≡ encode_utf8_all (specs.unmarked (chars path.now))) }
{
    let mut unmarking = Unmarking {
        held: Held::Nothing,
        text: String::new(alloc),
    };
    unmarking.push_text(path)?;
    let text = unmarking.end()?;
    Ok(text)
}
