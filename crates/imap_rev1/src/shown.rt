//! Replies with names in modified UTF-7 (RFC 3501, section 5.1.3).

ghost use Rattle.std.specs.Prelude.{◌≡◌, IfOk, option_copied};
ghost use Rattle.std.specs.List.{list_all};
ghost use Rattle.imap_utf7.specs.Laws.{is_plain};
ghost use Rattle.imap_rev1_frames.specs.Rewritten.{instead_octets};
ghost use Rattle.imap_rev1.specs.Shown.{instead_reply, name_in, other_shown, shown_reply, shown_with};
ghost use Rattle.imap_rev1.specs.Shown.{with_name};

use imap_lex::Octets;
use imap_print::Response;
use imap_utf7::encode;
use imap_values::TryCopy;
use std::alloc::{AllocError, Global};
use std::str;

fn is_plain(octet: u8) -> bool
    ensures { result ≡ is_plain octet }
{
    matches!(octet, b' '..=b'~') && octet != b'&'
}

fn are_plain(name: &[u8]) -> bool
    ensures { result ≡ list_all is_plain name.now }
{
    name.iter().all(|octet| is_plain(*octet))
}

/// Returns the spelling of the name, or `None` if it is the name.
fn other_shown(alloc: Global, name: &[u8]) -> Result<Option<Octets>, AllocError>
    ensures { IfOk result (λ other. other ≡ other_shown name.now) }
{
    if are_plain(name) {
        return Ok(None);
    }
    match str::from_utf8(name) {
        Ok(text) => Ok(Some(Octets::from_vec(encode(alloc, text)?.into_bytes())?)),
        Err(_) => Ok(None),
    }
}

/// Returns the name in the reply.
fn name_in(reply: &Response) -> Option<&Octets>
    ensures { option_copied result ≡ name_in reply.now }
{
    match reply {
        Response::List { mailbox, .. }
        | Response::Status { mailbox, .. }
        | Response::Acl { mailbox, .. }
        | Response::MyRights { mailbox, .. }
        | Response::ListRights { mailbox, .. } => Some(mailbox),
        _ => None,
    }
}

/// Puts another name in place of the reply's.
fn set_name(reply: &mut Response, name: Octets)
    ensures { reply.new ≡ with_name name reply.old }
{
    match reply {
        Response::List { mailbox, .. } => *mailbox = name,
        Response::Status { mailbox, .. } => *mailbox = name,
        Response::Acl { mailbox, .. } => *mailbox = name,
        Response::MyRights { mailbox, .. } => *mailbox = name,
        Response::ListRights { mailbox, .. } => *mailbox = name,
        _ => {}
    }
}

/// Returns a copy of the reply with this name.
fn named_copy(alloc: Global, reply: &Response, name: Octets) -> Result<Response, AllocError>
    ensures { IfOk result (λ other. other ≡ with_name name reply.now) }
{
    let mut copy = reply.try_copy(alloc)?;
    set_name(&mut copy, name);
    Ok(copy)
}

fn shown_with(
    alloc: Global,
    reply: &Response,
    name: &Octets,
) -> Result<Option<Response>, AllocError>
    ensures { IfOk result (λ other. instead_reply other reply.now ≡ shown_with reply.now name.now) }
{
    match other_shown(alloc, name.as_slice())? {
        Some(shown) => Ok(Some(named_copy(alloc, reply, shown)?)),
        None => Ok(None),
    }
}

/// Returns the reply with its name in modified UTF-7, or `None` if it is the same.
pub(crate) fn shown_reply(alloc: Global, reply: &Response) -> Result<Option<Response>, AllocError>
    ensures { IfOk result (λ other. instead_reply other reply.now ≡ shown_reply reply.now) }
{
    match name_in(reply) {
        Some(name) => shown_with(alloc, reply, name),
        None => Ok(None),
    }
}
