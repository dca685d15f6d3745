//! Names of header fields (RFC 9051, section 9, `header-fld-name`).

ghost use Rattle.std.specs.Prelude.{◌≡◌, IfOk, OnErr};
ghost use Rattle.imap_syntax.specs.Reading.{ReadsIfMemory};
ghost use Rattle.imap_syntax.specs.FieldNames.{IsFieldName, field_name, field_name_read};

use crate::cursor::{Cursor, Item};
use crate::error::ReadError;
use crate::spelling::Spelling;
use crate::write_strings::{is_quotable, push_astring};
use imap_lex::Octets;
use imap_values::{Same, TryCopy};
use std::alloc::{AllocError, Global};
use std::marker::Model;

/// The name of a header field, as a client writes it: octets without NUL, CR and LF, perhaps none (RFC 9051,
/// section 9, `header-fld-name`).
///
/// A copy shares the octets.
#[derive(Drop)]
pub struct FieldName(Octets);

impl Model for FieldName {
    ghost use Rattle.std.specs.Prelude.{ℕ, List};
    ghost use Rattle.imap_syntax.specs.FieldNames.{IsFieldName};

    ghost Value = { List ℕ };

    ghost view = { λ n. n.0 };

    ghost invariant = { λ n. IsFieldName n.0 };
}

impl FieldName {
    /// Returns these octets as a name, or `None` if NUL, CR or LF is among them.
    pub fn read(alloc: Global, octets: &[u8]) -> Result<Option<FieldName>, AllocError>
        ensures name { IfOk result (λ name. name ≡ field_name_read octets.now) }
        ensures err { OnErr result (IsFieldName octets.now) }
    {
        if !is_quotable(octets) {
            return Ok(None);
        }
        Ok(Some(FieldName(Octets::from_slice(alloc, octets)?)))
    }

    /// Returns the octets.
    pub fn as_slice(&self) -> &[u8]
        ensures octets { result.now ≡ self.now }
        ensures valid { IsFieldName result.now }
    {
        self.0.as_slice()
    }

    /// Returns a copy, without copying the octets. It takes no memory from `alloc`.
    pub fn try_copy(&self, _alloc: Global) -> Result<FieldName, AllocError>
        ensures copy { IfOk result (λ copy. copy ≡ self.now) }
        ensures valid { IsFieldName self.now }
    {
        Ok(FieldName(self.0.try_copy()?))
    }
}

impl TryCopy for FieldName {
    fn try_copy(&self, alloc: Global) -> Result<FieldName, AllocError> {
        self.try_copy(alloc)
    }
}

impl Same for FieldName {
    fn is_same(&self, other: &FieldName) -> bool {
        self.0.is_same(&other.0)
    }
}

impl Spelling for FieldName {
    ghost use Rattle.imap_syntax.specs.FieldNames.{written_name};

    type Value = FieldName;

    ghost writing = { written_name };

    fn fits(name: &FieldName) -> bool {
        let _ = name.as_slice();
        true
    }

    fn push(out: &mut Vec<u8>, name: &FieldName) -> Result<(), AllocError> {
        push_astring(out, &name.0)
    }
}

impl Item for FieldName {
    ghost use Rattle.imap_syntax.specs.FieldNames.{field_name};

    type Read = FieldName;

    ghost item_read = { field_name.read };

    fn item(cursor: &mut Cursor<'_>, alloc: Global) -> Result<FieldName, ReadError> {
        cursor.field_name(alloc)
    }
}

impl Cursor<'_> {
    /// Reads `header-fld-name`.
    pub fn field_name(&mut self, alloc: Global) -> Result<FieldName, ReadError>
        ensures { ReadsIfMemory (λ n. n) result self.new (field_name.read self.old) }
    {
        let name = self.astring(alloc)?;
        if !is_quotable(name.as_slice()) {
            return Err(ReadError::Syntax);
        }
        Ok(FieldName(name))
    }
}
