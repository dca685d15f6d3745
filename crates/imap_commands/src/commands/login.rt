//! The rest of a LOGIN, AUTHENTICATE or STARTTLS line, whatever it is.

ghost use Rattle.std.specs.Prelude.{◌≡◌, ℕ, Some};
ghost use Rattle.imap_lex.specs.Held.{held_size};
ghost use Rattle.imap_syntax.specs.Reading.{Reads};
ghost use Rattle.imap_commands.specs.commands.Login.{is_line_char, line_rest, announced_literal};
ghost use Rattle.imap_commands.specs.commands.Login.{lines, any_arguments};

use crate::command::Command;
use imap_lex::{OctetClass, leading, line_mark};
use imap_syntax::{Cursor, ReadError, has_nul};

/// Neither CR nor LF.
struct LineChar;

impl OctetClass for LineChar {
    ghost test = { is_line_char };

    fn has(octet: u8) -> bool {
        !matches!(octet, b'\r' | b'\n')
    }
}

/// Reads the octets before the next CR or LF.
fn read_line_rest<'a>(cursor: &mut Cursor<'a>) -> &'a [u8]
    ensures { line_rest.read cursor.old ≡ Some (result.now, cursor.new) }
{
    let len = leading::<LineChar>(cursor.rest());
    let line = &cursor.rest()[..len];
    cursor.skip(len);
    line
}

/// Reads CRLF and a literal of `size` octets without NUL.
fn read_announced_literal(cursor: &mut Cursor<'_>, size: u128) -> Result<(), ReadError>
    ensures { (announced : ℕ) → size ≡ held_size announced →
        Reads (λ _. tt) result cursor.new ((announced_literal announced).read cursor.old) }
{
    cursor.crlf()?;
    if (cursor.rest().len() as u128) < size {
        return Err(ReadError::Syntax);
    }
    let octets = cursor.counted(size as u64)?;
    if has_nul(octets) {
        return Err(ReadError::Syntax);
    }
    Ok(())
}

/// Reads lines with literals up to the last CRLF.
fn read_lines(cursor: &mut Cursor<'_>) -> Result<(), ReadError>
    ensures { Reads (λ _. tt) result cursor.new (lines.read cursor.old) }
{
    let mut left = cursor.rest().len();
    loop {
        let line = read_line_rest(cursor);
        match line_mark(line, b"\r\n") {
            None => return Ok(()),
            Some(mark) => {
                if let Err(error) = read_announced_literal(cursor, mark.size) {
                    return Err(error);
                }
            }
        }
        if left == 0 {
            return Err(ReadError::Syntax);
        }
        left -= 1;
    }
}

/// Reads a space and lines with literals, or nothing.
pub(crate) fn read_any_arguments(cursor: &mut Cursor<'_>) -> Result<Command, ReadError>
    ensures { Reads (λ c. c) result cursor.new (any_arguments.read cursor.old) }
{
    if cursor.has(b' ') {
        read_lines(cursor)?;
    }
    Ok(Command::Authenticate)
}
