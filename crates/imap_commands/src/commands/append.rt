//! APPEND (RFC 9051, section 6.3.12).

ghost use Rattle.std.specs.Prelude.{◌≡◌, ◌++◌, ◌∷◌, [], OnOk};
ghost use Rattle.imap_syntax.specs.Reading.{ReadsIfMemory, Reads};
ghost use Rattle.imap_commands.specs.commands.Append.{append_flags, append_date, message, append};
ghost use Rattle.imap_commands.specs.commands.Append.{date_fits, date_text, message_text, flags_text};
ghost use Rattle.imap_commands.specs.commands.Append.{append_fits, append_text};

use crate::command::Command;
use crate::commands::argument::{after, push_argument, read_argument};
use imap_lex::Octets;
use imap_syntax::{
    Cursor, DateTime, Flag, Flags, Items, ReadError, all_fit, date_time_fits, has_nul,
    push_date_time, push_listed, push_literal, string_fits,
};
use std::alloc::{AllocError, Global};

fn read_append_flags(cursor: &mut Cursor<'_>, alloc: Global) -> Result<Flags, ReadError>
    ensures { ReadsIfMemory (λ f. f) result cursor.new (append_flags.read cursor.old) }
{
    if !cursor.has(b'(') {
        return Ok(Items::from_vec(Vec::new(alloc)));
    }
    let flags = cursor.listed_end::<Flag>(alloc)?;
    cursor.space()?;
    Ok(flags)
}

fn read_append_date(cursor: &mut Cursor<'_>) -> Result<Option<DateTime>, ReadError>
    ensures { Reads (λ d. d) result cursor.new (append_date.read cursor.old) }
{
    if !cursor.has(b'"') {
        return Ok(None);
    }
    let date = cursor.date_time_end()?;
    cursor.space()?;
    Ok(Some(date))
}

/// Reads the message, which shares the octets of the frame.
fn read_message(cursor: &mut Cursor<'_>, alloc: Global) -> Result<Octets, ReadError>
    ensures { ReadsIfMemory (λ o. o) result cursor.new (message.read cursor.old) }
{
    cursor.has(b'~');
    let len = cursor.literal_head()?;
    cursor.shared(alloc, len)
}

pub(crate) fn read_append(cursor: &mut Cursor<'_>, alloc: Global) -> Result<Command, ReadError>
    ensures { ReadsIfMemory (λ c. c) result cursor.new (append.read cursor.old) }
{
    let mailbox = read_argument(cursor, alloc)?;
    cursor.space()?;
    let flags = read_append_flags(cursor, alloc)?;
    let (front, date) = after((mailbox, flags), read_append_date(cursor))?;
    let ((mailbox, flags), message) = after(front, read_message(cursor, alloc))?;
    Ok(Command::Append {
        mailbox,
        flags,
        date,
        message,
    })
}

fn append_date_fits(date: &Option<DateTime>) -> bool
    ensures { result ≡ date_fits date.now }
{
    match date {
        Some(date) => date_time_fits(date),
        None => true,
    }
}

/// Appends the flags in parentheses and a space, or nothing.
fn push_append_flags(out: &mut Vec<u8>, flags: &[Flag]) -> Result<(), AllocError>
    ensures { OnOk result (out.new.items ≡ out.old.items ++ flags_text flags.now) }
{
    match flags {
        [] => Ok(()),
        [_, ..] => {
            push_listed::<Flag>(out, flags)?;
            out.push(b' ')?;
            Ok(())
        }
    }
}

/// Appends `date` as a `date-time` and a space, or nothing.
fn push_append_date(out: &mut Vec<u8>, date: &Option<DateTime>) -> Result<(), AllocError>
    ensures { OnOk result (out.new.items ≡ out.old.items ++ date_text date.now) }
{
    match date {
        Some(date) => {
            push_date_time(out, date)?;
            out.push(b' ')?;
            Ok(())
        }
        None => Ok(()),
    }
}

/// Appends a `literal8` if `message` has a NUL, else a `literal` (RFC 9051, section 4.3.1).
fn push_message(out: &mut Vec<u8>, message: &[u8]) -> Result<(), AllocError>
    ensures { OnOk result (out.new.items ≡ out.old.items ++ message_text message.now) }
{
    if has_nul(message) {
        out.push(b'~')?;
    }
    push_literal(out, message)
}

pub(crate) fn append_fits(
    mailbox: &Octets,
    flags: &[Flag],
    date: &Option<DateTime>,
    message: &Octets,
) -> bool
    ensures { result ≡ append_fits mailbox.now flags.now date.now message.now }
{
    let _octets = message.as_slice();
    string_fits(mailbox) && all_fit::<Flag>(flags) && append_date_fits(date)
}

pub(crate) fn push_append(
    out: &mut Vec<u8>,
    mailbox: &Octets,
    flags: &[Flag],
    date: &Option<DateTime>,
    message: &Octets,
) -> Result<(), AllocError>
    ensures { OnOk result (out.new.items
        ≡ out.old.items ++ append_text mailbox.now flags.now date.now message.now) }
{
    push_argument(out, mailbox)?;
    out.push(b' ')?;
    push_append_flags(out, flags)?;
    push_append_date(out, date)?;
    push_message(out, message.as_slice())
}
