//! Look-ups of header fields, of which the first ones walk over the header.

ghost use Rattle.std.specs.Prelude.{◌≡◌, map, IfOk};
ghost use Rattle.std.specs.List.{concat};
ghost use Rattle.imap_text.specs.Fields as specs;

use crate::field_index::FieldIndex;
use crate::header_fields::{field_texts, fields};
use imap_lex::Octets;
use imap_syntax::{FieldName, Items};
use std::alloc::{AllocError, Global};
use std::marker::Model;

/// What a walk over the header costs beside the names that it compares, in names.
const WALK: usize = 16;

/// What is spent on walks before the header is cut, in names.
const ENOUGH: usize = 64;

/// The header fields of a message, for several look-ups. A few walk over the header. When more are asked for, the header
/// is cut into its fields once, and each further one takes time by what it returns.
///
/// Contracts see the message's octets.
#[derive(Drop)]
pub struct HeaderFields<'a> {
    octets: &'a [u8],
    spent: usize,
    index: Option<FieldIndex<'a>>,
}

impl<'a> Model for HeaderFields<'a> {
    ghost use Rattle.std.specs.Prelude.{◌≡◌, ℕ, List, IfSome};

    ghost Value = { List ℕ };

    ghost view = { λ h. h.octets.now };

    ghost invariant = { λ h. IfSome h.index (λ index. index ≡ h.octets.now) };
}

impl<'a> HeaderFields<'a> {
    /// The fields of this message. Nothing is read so far.
    pub fn new(octets: &'a [u8]) -> HeaderFields<'a>
        ensures { result ≡ octets.now }
    {
        HeaderFields {
            octets,
            spent: 0,
            index: None,
        }
    }

    /// Returns what [`fields`] does. `message` is this message.
    pub fn fields(
        &mut self,
        alloc: Global,
        message: &Octets,
        names: &[FieldName],
        not: bool,
    ) -> Result<Items<Octets>, AllocError>
        requires { message.now ≡ self.old }
        ensures octets { self.new ≡ self.old }
        ensures found { IfOk result (λ parts. concat parts ≡ specs.fields names.now not self.old) }
    {
        self.prepare(alloc, names.len())?;
        match &self.index {
            Some(index) => index.fields(alloc, message, names, not),
            None => fields(alloc, message, names, not),
        }
    }

    /// Returns what [`field_texts`] does.
    pub fn texts(&mut self, alloc: Global, name: &[u8]) -> Result<Vec<&'a [u8]>, AllocError>
        ensures octets { self.new ≡ self.old }
        ensures found { IfOk result
            (λ texts. map (λ text. text.now) texts.items ≡ specs.field_texts name.now self.old) }
    {
        self.prepare(alloc, 1)?;
        match &self.index {
            Some(index) => index.texts(alloc, name),
            None => field_texts(alloc, self.octets, name),
        }
    }

    /// Cuts the header, if a walk that compares so many names would cost too much with those before it.
    fn prepare(&mut self, alloc: Global, names: usize) -> Result<(), AllocError>
        ensures { self.new ≡ self.old }
    {
        if self.index.is_none() {
            self.spent = self.spent.saturating_add(names.saturating_add(WALK));
            if self.spent > ENOUGH {
                self.index = Some(FieldIndex::new(alloc, self.octets)?);
            }
        }
        Ok(())
    }
}
