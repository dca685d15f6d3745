//! Printed octets, among which are parts of messages that aren't copied.

ghost use Rattle.std.specs.Prelude.{◌≡◌, ◌++◌, [], IfOk, OnOk, decimal};
ghost use Rattle.std.specs.List.{concat};
ghost use Rattle.imap_print.specs.Pieces.{octets_of};
ghost use Rattle.imap_print.specs.Strings.{name_text};

use super::strings::push_name;
use imap_lex::Octets;
use imap_syntax::{Items, push_number};
use std::alloc::{AllocError, Global};
use std::mem;

/// A part of a message with at least this many octets is a piece of its own.
const MIN_SHARED_OCTETS: usize = 16_384;

/// Printed octets: those of the pieces, then those of the text.
#[derive(Drop)]
pub struct Pieces {
    alloc: Global,
    done: Vec<Octets>,
    pub(super) text: Vec<u8>,
}

impl Pieces {
    /// No octets.
    pub fn new(alloc: Global) -> Pieces
        ensures { octets_of result ≡ [] }
    {
        Pieces {
            alloc,
            done: Vec::new(alloc),
            text: Vec::new(alloc),
        }
    }

    /// Appends a copy of the octets.
    pub fn push_octets(&mut self, octets: &[u8]) -> Result<(), AllocError>
        ensures { OnOk result (octets_of self.new ≡ octets_of self.old ++ octets.now) }
    {
        self.text.extend_from_slice(octets)
    }

    /// Appends a number in digits, without leading zeros.
    pub fn push_number(&mut self, number: u64) -> Result<(), AllocError>
        ensures { OnOk result (octets_of self.new ≡ octets_of self.old ++ decimal number) }
    {
        push_number(&mut self.text, number)
    }

    /// Appends a name, in quotes if it is no atom string or reads as NIL (RFC 9051, section 9, `astring`).
    pub fn push_name(&mut self, name: &[u8]) -> Result<(), AllocError>
        ensures { OnOk result (octets_of self.new ≡ octets_of self.old ++ name_text name.now) }
    {
        push_name(&mut self.text, name)
    }

    /// Appends the parts one after another.
    pub(super) fn push_parts(&mut self, parts: &[Octets]) -> Result<(), AllocError>
        ensures { OnOk result (octets_of self.new ≡ octets_of self.old ++ concat parts.now) }
    {
        for part in parts {
            self.push_part(part)?;
        }
        Ok(())
    }

    /// Appends the octets. Many are shared, few are copied.
    fn push_part(&mut self, part: &Octets) -> Result<(), AllocError>
        ensures { OnOk result (octets_of self.new ≡ octets_of self.old ++ part.now) }
    {
        if part.as_slice().len() < MIN_SHARED_OCTETS {
            self.text.extend_from_slice(part.as_slice())
        } else {
            self.push_shared(part.try_copy()?)
        }
    }

    fn push_shared(&mut self, part: Octets) -> Result<(), AllocError>
        ensures { OnOk result (octets_of self.new ≡ octets_of self.old ++ part) }
    {
        self.end_text()?;
        push_piece(&mut self.done, part)
    }

    /// Makes the text a piece.
    fn end_text(&mut self) -> Result<(), AllocError>
        ensures done { OnOk result (concat self.new.done.items ≡ octets_of self.old) }
        ensures text { self.new.text.items ≡ [] }
    {
        let text = mem::replace(&mut self.text, Vec::new(self.alloc));
        push_piece(&mut self.done, Octets::from_vec(text)?)
    }

    /// Returns the pieces.
    pub fn into_pieces(self) -> Result<Items<Octets>, AllocError>
        ensures { IfOk result (λ pieces. concat pieces ≡ octets_of self) }
    {
        let mut pieces = self;
        pieces.end_text()?;
        Ok(Items::from_vec(pieces.done))
    }

    /// Returns the octets. They are copied only if there is a piece.
    pub(super) fn into_octets(self) -> Result<Vec<u8>, AllocError>
        ensures { IfOk result (λ octets. octets.items ≡ octets_of self) }
    {
        if self.done.is_empty() {
            return Ok(self.text);
        }
        let mut octets = Vec::new(self.alloc);
        push_all(&mut octets, self.done.as_slice())?;
        octets.extend_from_slice(self.text.as_slice())?;
        Ok(octets)
    }
}

fn push_piece(pieces: &mut Vec<Octets>, piece: Octets) -> Result<(), AllocError>
    ensures { OnOk result (concat pieces.new.items ≡ concat pieces.old.items ++ piece) }
{
    pieces.push(piece)?;
    Ok(())
}

/// Appends the octets of all pieces.
fn push_all(octets: &mut Vec<u8>, pieces: &[Octets]) -> Result<(), AllocError>
    ensures { OnOk result (octets.new.items ≡ octets.old.items ++ concat pieces.now) }
{
    for piece in pieces {
        octets.extend_from_slice(piece.as_slice())?;
    }
    Ok(())
}
