//! Texts, written.

ghost use Rattle.std.specs.Prelude.{◌≡◌, ◌++◌, ◌∷◌, [], true, IfOk, OnOk, chars, string_bytes};
ghost use Rattle.imap_utf7.specs.Shifts.{IsModified};
ghost use Rattle.imap_utf7.specs.Spelling.{direct, encoded, is_direct, shifted};
ghost use Rattle.imap_utf7.specs.Writing.{GoesOn};

use crate::shifts::{modified, push_base64, push_wide};
use base64::engine::general_purpose::GeneralPurpose;
use std::alloc::{AllocError, Global};

/// The text so far.
#[derive(Drop)]
pub(crate) struct Writing {
    /// The octets in UTF-16 of the characters that are to be shifted.
    run: Vec<u8>,
    out: String,
}

fn is_direct(char: char) -> bool
    ensures { result ≡ is_direct char }
{
    matches!(char, ' '..='~')
}

fn push_direct(out: &mut String, char: char) -> Result<(), AllocError>
    requires { is_direct char ≡ true }
    ensures { OnOk result (string_bytes out.new ≡ string_bytes out.old ++ direct char) }
{
    if char == '&' {
        out.push_str("&-")
    } else {
        out.push(char)
    }
}

impl Writing {
    /// Writes the characters that are to be shifted.
    fn end_run(&mut self, engine: &GeneralPurpose) -> Result<(), AllocError>
        requires { IsModified engine.now }
        ensures out { OnOk result
            (string_bytes self.new.out ≡ string_bytes self.old.out ++ shifted self.old.run.items) }
        ensures run { OnOk result (self.new.run.items ≡ []) }
    {
        if self.run.is_empty() {
            return Ok(());
        }
        self.out.push_str("&")?;
        push_base64(engine, &mut self.out, self.run.as_slice())?;
        self.out.push_str("-")?;
        self.run.clear();
        Ok(())
    }

    fn push(&mut self, engine: &GeneralPurpose, char: char) -> Result<(), AllocError>
        requires { IsModified engine.now }
        ensures { OnOk result (GoesOn (char ∷ []) self.old self.new) }
    {
        if !is_direct(char) {
            return push_wide(&mut self.run, char);
        }
        self.end_run(engine)?;
        push_direct(&mut self.out, char)?;
        Ok(())
    }

    fn push_text(&mut self, engine: &GeneralPurpose, text: &str) -> Result<(), AllocError>
        requires { IsModified engine.now }
        ensures { OnOk result (GoesOn (chars text.now) self.old self.new) }
    {
        for char in text.chars() {
            self.push(engine, char)?;
        }
        Ok(())
    }
}

/// Returns the text in modified UTF-7.
pub fn encode(alloc: Global, text: &str) -> Result<String, AllocError>
    ensures { IfOk result (λ made. string_bytes made ≡ encoded (chars text.now)) }
{
    let engine = modified();
    let mut writing = Writing {
        run: Vec::new(alloc),
        out: String::new(alloc),
    };
    writing.push_text(&engine, text)?;
    writing.end_run(&engine)?;
    Ok(writing.out)
}
