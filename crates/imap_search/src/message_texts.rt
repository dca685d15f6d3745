//! The texts of a message, each folded once.

ghost use Rattle.std.specs.Prelude.{◌≡◌, IfOk, OnOk, ℕ, List, Some};
ghost use Rattle.imap_search.specs.Finds.{has_field};
ghost use Rattle.imap_search.specs.Folded.{IsFoldIn};
ghost use Rattle.imap_search.specs.Within.{is_within};
ghost use Rattle.imap_text.specs.Folds.{fold};
ghost use Rattle.imap_text.specs.Sections.{text};

use crate::field_texts::FieldTexts;
use crate::needles::Needles;
use imap_text::{Folded, header_length};
use std::alloc::{AllocError, Global};
use std::marker::Model;

/// A message, and the folds of its parts that a key has looked into. Contracts see the message's octets.
#[derive(Drop)]
pub(crate) struct MessageTexts<'a> {
    octets: &'a [u8],
    whole: Option<Folded>,
    body: Option<Folded>,
    fields: FieldTexts<'a>,
}

impl<'a> Model for MessageTexts<'a> {
    ghost use Rattle.std.specs.Prelude.{◌≡◌, ℕ, List};
    ghost use Rattle.imap_search.specs.Folded.{IsFoldIn};
    ghost use Rattle.imap_text.specs.Folds.{fold};
    ghost use Rattle.imap_text.specs.Sections.{text};

    ghost Value = { List ℕ };

    ghost view = { λ t. t.octets.now };

    ghost invariant = { λ t. IsFoldIn (fold t.octets.now) t.whole
        × IsFoldIn (fold (text t.octets.now)) t.body × (t.fields ≡ t.octets.now) };
}

impl<'a> MessageTexts<'a> {
    /// Begins with nothing folded.
    pub(crate) fn new(alloc: Global, octets: &'a [u8]) -> MessageTexts<'a>
        ensures { result ≡ octets.now }
    {
        MessageTexts {
            octets,
            whole: None,
            body: None,
            fields: FieldTexts::new(alloc, octets),
        }
    }

    /// Whether the text stands in the message, header and body.
    pub(crate) fn has(
        &mut self,
        alloc: Global,
        needles: &mut Needles,
        wanted: &[u8],
    ) -> Result<bool, AllocError>
        ensures octets { self.new ≡ self.old }
        ensures found { IfOk result (λ found. found ≡ is_within (fold wanted.now) (fold self.old)) }
    {
        fill(&mut self.whole, alloc, self.octets)?;
        is_in_slot(&self.whole, alloc, needles, wanted)
    }

    /// Whether the text stands in what follows the header.
    pub(crate) fn has_in_body(
        &mut self,
        alloc: Global,
        needles: &mut Needles,
        wanted: &[u8],
    ) -> Result<bool, AllocError>
        ensures octets { self.new ≡ self.old }
        ensures found { IfOk result (λ found. found ≡ is_within (fold wanted.now) (fold (text self.old))) }
    {
        fill(&mut self.body, alloc, body_of(self.octets))?;
        is_in_slot(&self.body, alloc, needles, wanted)
    }

    /// Whether the text stands in a header field of this name. An empty text stands in each.
    pub(crate) fn has_in_field(
        &mut self,
        alloc: Global,
        needles: &mut Needles,
        name: &[u8],
        wanted: &[u8],
    ) -> Result<bool, AllocError>
        ensures octets { self.new ≡ self.old }
        ensures found { IfOk result (λ found. found ≡ has_field name.now wanted.now self.old) }
    {
        self.fields.has(alloc, needles, name, wanted)
    }
}

/// What follows the header, without copying it.
fn body_of(octets: &[u8]) -> &[u8]
    ensures { result.now ≡ text octets.now }
{
    let (_, text) = octets.split_at(header_length(octets));
    text
}

/// Folds the octets into `slot`, unless that was done before.
fn fill(slot: &mut Option<Folded>, alloc: Global, octets: &[u8]) -> Result<(), AllocError>
    requires { IsFoldIn (fold octets.now) slot.old }
    ensures kept { IsFoldIn (fold octets.now) slot.new }
    ensures ok { OnOk result (slot.new ≡ Some (fold octets.now)) }
{
    if slot.is_none() {
        *slot = Some(Folded::new(alloc, octets)?);
    }
    Ok(())
}

/// Whether the fold of `wanted` stands in the text of `slot`.
fn is_in_slot(
    slot: &Option<Folded>,
    alloc: Global,
    needles: &mut Needles,
    wanted: &[u8],
) -> Result<bool, AllocError>
    ensures { (text : List ℕ) → slot.now ≡ Some text
        → IfOk result (λ found. found ≡ is_within (fold wanted.now) text) }
{
    match slot {
        Some(text) => needles.is_in(alloc, wanted, text),
        None => Ok(false),
    }
}
