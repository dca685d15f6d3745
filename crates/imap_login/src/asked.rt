//! What a client that has not logged in asks for.

ghost use Rattle.std.specs.Prelude.{◌≡◌, ◌≤◌, length, IfOk};
ghost use Rattle.imap_syntax.specs.Reading.{ReadsIfMemory, Reads};
ghost use Rattle.imap_login.specs.Asked.{arguments, asked_of, asked_with, atom, authenticate, command, ended};
ghost use Rattle.imap_login.specs.Asked.{is_plain, login, response};

use crate::word::Word;
use imap_lex::{Octets, leading};
use imap_syntax::{AtomChar, Cursor, ReadError};
use std::alloc::{AllocError, Global};

/// A request (RFC 9051, sections 6.1 and 6.2).
#[derive(Drop)]
pub(crate) enum Asked {
    Capability,
    Noop,
    Logout,
    Login { name: Octets, password: Octets },
    /// AUTHENTICATE PLAIN, and its initial response (RFC 4959), in base64.
    Plain { response: Option<Octets> },
    /// AUTHENTICATE by another mechanism.
    OtherMechanism,
    /// Anything else.
    Other,
}

/// Reads CRLF, and returns `read`.
fn ended<T: Drop>(cursor: &mut Cursor<'_>, read: T) -> Result<T, ReadError>
    ensures { Reads (λ r. r) result cursor.new ((ended read).read cursor.old) }
{
    cursor.crlf()?;
    Ok(read)
}

/// Reads the arguments of LOGIN.
fn read_login(cursor: &mut Cursor<'_>, alloc: Global) -> Result<Asked, ReadError>
    ensures { ReadsIfMemory (λ a. a) result cursor.new (login.read cursor.old) }
{
    cursor.space()?;
    let name = cursor.astring(alloc)?;
    cursor.space()?;
    let password = cursor.astring(alloc)?;
    ended(cursor, Asked::Login { name, password })
}

/// Reads one character of an atom or more.
fn read_atom<'a>(cursor: &mut Cursor<'a>) -> Result<&'a [u8], ReadError>
    ensures { Reads (λ s. s.now) result cursor.new (atom.read cursor.old) }
{
    cursor.front(leading::<AtomChar>(cursor.rest()))
}

/// Reads the initial response, if there is one.
fn read_response(cursor: &mut Cursor<'_>, alloc: Global) -> Result<Option<Octets>, ReadError>
    ensures { ReadsIfMemory (λ r. r) result cursor.new (response.read cursor.old) }
{
    if cursor.has(b' ') {
        let response = read_atom(cursor)?;
        Ok(Some(Octets::from_slice(alloc, response)?))
    } else {
        Ok(None)
    }
}

/// Whether the mechanism is PLAIN, in any ASCII case.
fn is_plain(mechanism: &[u8]) -> bool
    ensures { result ≡ is_plain mechanism.now }
{
    mechanism.eq_ignore_ascii_case(b"PLAIN")
}

fn asked_with(mechanism: &[u8], response: Option<Octets>) -> Asked
    ensures { result ≡ asked_with mechanism.now response }
{
    if is_plain(mechanism) {
        Asked::Plain { response }
    } else {
        Asked::OtherMechanism
    }
}

/// Reads the arguments of AUTHENTICATE.
fn read_authenticate(cursor: &mut Cursor<'_>, alloc: Global) -> Result<Asked, ReadError>
    ensures { ReadsIfMemory (λ a. a) result cursor.new (authenticate.read cursor.old) }
{
    cursor.space()?;
    let mechanism = read_atom(cursor)?;
    let response = read_response(cursor, alloc)?;
    ended(cursor, asked_with(mechanism, response))
}

fn read_arguments(cursor: &mut Cursor<'_>, alloc: Global, word: Word) -> Result<Asked, ReadError>
    ensures { ReadsIfMemory (λ a. a) result cursor.new ((arguments word).read cursor.old) }
{
    match word {
        Word::Authenticate => read_authenticate(cursor, alloc),
        Word::Capability => ended(cursor, Asked::Capability),
        Word::Login => read_login(cursor, alloc),
        Word::Logout => ended(cursor, Asked::Logout),
        Word::Noop => ended(cursor, Asked::Noop),
    }
}

/// Reads what follows the tag of a command.
fn read_command(cursor: &mut Cursor<'_>, alloc: Global) -> Result<Asked, ReadError>
    ensures { ReadsIfMemory (λ a. a) result cursor.new (command.read cursor.old) }
{
    cursor.space()?;
    let word = cursor.keyword::<Word>()?;
    read_arguments(cursor, alloc, word)
}

/// Returns what the frame asks for, which begins with this tag.
pub(crate) fn asked_of(alloc: Global, tag: &[u8], frame: &Octets) -> Result<Asked, AllocError>
    requires { length tag.now ≤ length frame.now }
    ensures { IfOk result (λ asked. asked ≡ asked_of tag.now frame.now) }
{
    let mut cursor = Cursor::new(frame);
    cursor.skip(tag.len());
    match read_command(&mut cursor, alloc) {
        Ok(asked) => {
            if cursor.rest().is_empty() {
                return Ok(asked);
            }
            drop(asked);
            Ok(Asked::Other)
        }
        Err(ReadError::Syntax) => Ok(Asked::Other),
        Err(ReadError::Memory) => Err(AllocError),
    }
}
