//! ENABLE (RFC 9051, section 6.3.1).

ghost use Rattle.std.specs.Prelude.{◌≡◌, ◌++◌, OnOk};
ghost use Rattle.imap_syntax.specs.Reading.{ReadsIfMemory};
ghost use Rattle.imap_syntax.specs.Writing.{separated};
ghost use Rattle.imap_syntax.specs.Written.{atom};
ghost use Rattle.imap_commands.specs.commands.Enable.{enable, enable_text};

use crate::command::Command;
use imap_syntax::{Atom, Cursor, Item, OneOrMore, ReadError, push_separated, some_fit};
use std::alloc::{AllocError, Global};

/// A word of ENABLE.
struct Capability;

impl Item for Capability {
    ghost use Rattle.imap_syntax.specs.Rule.{some_of};
    ghost use Rattle.imap_syntax.specs.Lexical.{is_atom_char};

    type Read = Atom;

    ghost item_read = { (some_of is_atom_char).read };

    fn item(cursor: &mut Cursor<'_>, alloc: Global) -> Result<Atom, ReadError> {
        cursor.atom(alloc)
    }
}

pub(crate) fn read_enable(cursor: &mut Cursor<'_>, alloc: Global) -> Result<Command, ReadError>
    ensures { ReadsIfMemory (λ c. c) result cursor.new (enable.read cursor.old) }
{
    cursor.space()?;
    let capabilities = cursor.separated::<Capability>(alloc, b' ')?;
    Ok(Command::Enable { capabilities })
}

pub(crate) fn enable_fits(capabilities: &OneOrMore<Atom>) -> bool
    ensures { result ≡ (separated 32 atom).fits capabilities.now }
{
    some_fit::<Atom>(capabilities.as_slice())
}

pub(crate) fn push_enable(
    out: &mut Vec<u8>,
    capabilities: &OneOrMore<Atom>,
) -> Result<(), AllocError>
    ensures { OnOk result (out.new.items ≡ out.old.items ++ enable_text capabilities.now) }
{
    out.push(b' ')?;
    push_separated::<Atom>(out, b' ', capabilities.as_slice())
}
