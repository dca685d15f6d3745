//! The header fields of a message, found and folded once.

ghost use Rattle.std.specs.Prelude.{◌≡◌, map, IfOk};
ghost use Rattle.std.specs.List.{list_any};
ghost use Rattle.imap_search.specs.Finds.{has_field};
ghost use Rattle.imap_search.specs.Within.{is_within};
ghost use Rattle.imap_text.specs.Fields.{field_texts};
ghost use Rattle.imap_text.specs.Folds.{fold};

use crate::needles::Needles;
use imap_text::{Folded, HeaderFields};
use std::alloc::{AllocError, Global};
use std::collections::BTreeMap;
use std::marker::Model;

/// The header fields of a message by their names. Those of a name are found and folded when the name is first asked
/// for, and not again for the next key. Contracts see the message's octets.
#[derive(Drop)]
pub(crate) struct FieldTexts<'a> {
    lookup: HeaderFields<'a>,
    named: BTreeMap<Vec<u8>, Vec<Folded>>,
}

impl<'a> Model for FieldTexts<'a> {
    ghost use Rattle.std.specs.Prelude.{ℕ, List};
    ghost use Rattle.imap_search.specs.Folded.{AreFieldFolds};

    ghost Value = { List ℕ };

    ghost view = { λ f. f.lookup };

    ghost invariant = { λ f. AreFieldFolds f.lookup f.named.entries };
}

impl<'a> FieldTexts<'a> {
    /// No field is found so far.
    pub(crate) fn new(alloc: Global, octets: &'a [u8]) -> FieldTexts<'a>
        ensures { result ≡ octets.now }
    {
        FieldTexts {
            lookup: HeaderFields::new(octets),
            named: BTreeMap::new(alloc),
        }
    }

    /// Whether the text stands in a header field of this name. An empty text stands in each.
    pub(crate) fn has(
        &mut self,
        alloc: Global,
        needles: &mut Needles,
        name: &[u8],
        wanted: &[u8],
    ) -> Result<bool, AllocError>
        ensures octets { self.new ≡ self.old }
        ensures found { IfOk result (λ found. found ≡ has_field name.now wanted.now self.old) }
    {
        match self.named.get(name) {
            Some(texts) => any_has(alloc, needles, wanted, texts.as_slice()),
            None => self.has_in_new(alloc, needles, name, wanted),
        }
    }

    /// Finds the fields of the name and folds them, and keeps that.
    fn has_in_new(
        &mut self,
        alloc: Global,
        needles: &mut Needles,
        name: &[u8],
        wanted: &[u8],
    ) -> Result<bool, AllocError>
        ensures octets { self.new ≡ self.old }
        ensures found { IfOk result (λ found. found ≡ has_field name.now wanted.now self.old) }
    {
        let key = Vec::from_slice(alloc, name)?;
        let texts = folded_fields(alloc, &mut self.lookup, name)?;
        let found = any_has(alloc, needles, wanted, texts.as_slice())?;
        self.named.insert(key, texts)?;
        Ok(found)
    }
}

/// Returns the folds of the header fields with this name.
fn folded_fields(
    alloc: Global,
    lookup: &mut HeaderFields<'_>,
    name: &[u8],
) -> Result<Vec<Folded>, AllocError>
    ensures lookup { lookup.new ≡ lookup.old }
    ensures folds { IfOk result (λ texts. texts.items ≡ map fold (field_texts name.now lookup.old)) }
{
    let fields = lookup.texts(alloc, name)?;
    let mut texts = Vec::with_capacity(alloc, fields.len())?;
    for field in fields.as_slice() {
        texts.push(Folded::new(alloc, field)?)?;
    }
    Ok(texts)
}

/// Whether the fold of `wanted` stands in one of the texts.
fn any_has(
    alloc: Global,
    needles: &mut Needles,
    wanted: &[u8],
    texts: &[Folded],
) -> Result<bool, AllocError>
    ensures { IfOk result (λ found. found ≡ list_any (is_within (fold wanted.now)) texts.now) }
{
    for text in texts {
        if needles.is_in(alloc, wanted, text)? {
            return Ok(true);
        }
    }
    Ok(false)
}
