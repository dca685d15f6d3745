//! An argument, as the name of a mailbox.

ghost use Rattle.std.specs.Prelude.{◌≡◌, ◌&&◌, ◌++◌, IfErr, IfOk, OnOk};
ghost use Rattle.imap_syntax.specs.Reading.{ReadsIfMemory};
ghost use Rattle.imap_syntax.specs.Written.{string};
ghost use Rattle.imap_commands.specs.commands.Argument.{argument, argument_text};

use imap_lex::Octets;
use imap_syntax::{Cursor, ReadError, push_astring, string_fits};
use std::alloc::{AllocError, Global};

/// Reads a space and an `astring`.
pub(crate) fn read_argument(cursor: &mut Cursor<'_>, alloc: Global) -> Result<Octets, ReadError>
    ensures { ReadsIfMemory (λ o. o) result cursor.new (argument.read cursor.old) }
{
    cursor.space()?;
    cursor.astring(alloc)
}

/// Returns `front` and the value that was read after it. Fails as `read` did.
pub(crate) fn after<F: Drop, T: Drop>(
    front: F,
    read: Result<T, ReadError>,
) -> Result<(F, T), ReadError>
    ensures read { IfOk result (λ both. read ≡ Ok both.1) }
    ensures front { IfOk result (λ both. both.0 ≡ front) }
    ensures failed { IfErr result (λ error. read ≡ Err error) }
{
    let read = read?;
    Ok((front, read))
}

pub(crate) fn two_fit(first: &Octets, second: &Octets) -> bool
    ensures { result ≡ (string.fits first.now && string.fits second.now) }
{
    string_fits(first) && string_fits(second)
}

/// Appends a space and `octets` as an `astring`.
pub(crate) fn push_argument(out: &mut Vec<u8>, octets: &Octets) -> Result<(), AllocError>
    ensures { OnOk result (out.new.items ≡ out.old.items ++ argument_text octets.now) }
{
    out.push(b' ')?;
    push_astring(out, octets)
}

pub(crate) fn push_two(out: &mut Vec<u8>, first: &Octets, second: &Octets) -> Result<(), AllocError>
    ensures { OnOk result (out.new.items
        ≡ out.old.items ++ (argument_text first.now ++ argument_text second.now)) }
{
    push_argument(out, first)?;
    push_argument(out, second)
}

pub(crate) fn push_three(
    out: &mut Vec<u8>,
    first: &Octets,
    second: &Octets,
    third: &Octets,
) -> Result<(), AllocError>
    ensures { OnOk result (out.new.items
        ≡ out.old.items
        ++ (argument_text first.now ++ (argument_text second.now ++ argument_text third.now))) }
{
    push_argument(out, first)?;
    push_two(out, second, third)
}
