//! Names (RFC 9051, section 9, `astring`).

ghost use Rattle.std.specs.Prelude.{◌≡◌, ◌++◌, OnOk, map};
ghost use Rattle.imap_print.specs.Words.{before_each};
ghost use Rattle.imap_print.specs.Strings.{is_bare, name_text};
ghost use Rattle.imap_print.specs.Fetched.{names_text};

use imap_syntax::{FieldName, is_atom_string, push_quoted};
use std::alloc::AllocError;

fn is_bare(name: &[u8]) -> bool
    ensures { result ≡ is_bare name.now }
{
    is_atom_string(name) && !name.eq_ignore_ascii_case(b"NIL")
}

/// Appends a name, in quotes if it is no atom string or reads as NIL.
pub(super) fn push_name(out: &mut Vec<u8>, name: &[u8]) -> Result<(), AllocError>
    ensures { OnOk result (out.new.items ≡ out.old.items ++ name_text name.now) }
{
    if is_bare(name) {
        out.extend_from_slice(name)
    } else {
        push_quoted(out, name)
    }
}

/// Appends the names of header fields in parentheses.
pub(super) fn push_names(out: &mut Vec<u8>, names: &[FieldName]) -> Result<(), AllocError>
    ensures { OnOk result (out.new.items ≡ out.old.items ++ names_text names.now) }
{
    out.push(b'(')?;
    if let [first, rest @ ..] = names {
        push_name(out, first.as_slice())?;
        push_further_names(out, rest)?;
    }
    out.push(b')')?;
    Ok(())
}

/// Appends names, each after a space.
fn push_further_names(out: &mut Vec<u8>, names: &[FieldName]) -> Result<(), AllocError>
    ensures { OnOk result (out.new.items ≡ out.old.items ++ before_each 32 (map name_text names.now)) }
{
    for name in names {
        out.push(b' ')?;
        push_name(out, name.as_slice())?;
    }
    Ok(())
}
