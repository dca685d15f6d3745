//! Requests, written.

ghost use Rattle.std.specs.Prelude.{◌≡◌, ◌++◌, ℕ, List, OnOk, IfOk, IfSome, IfNone, option_map};
ghost use Rattle.imap_lex.specs.CommandTag.{is_tag};
ghost use Rattle.imap_commands.specs.Spells.{Spells, request_read};
ghost use Rattle.imap_commands.specs.Writing.{arguments_fit, arguments_text, command_text};
ghost use Rattle.imap_commands.specs.Writing.{request_fits, request_text, written};

use crate::command::Command;
use crate::commands::append::{append_fits, push_append};
use crate::commands::enable::{enable_fits, push_enable};
use crate::commands::list::{list_fits, push_list};
use crate::commands::mailboxes::{mailbox_fits, push_mailbox_command};
use crate::commands::select::{push_selecting, selecting_fits};
use crate::request::Request;
use crate::verb::verb_of;
use imap_lex::Tag;
use imap_syntax::Keyword;
use std::alloc::{AllocError, Global};

/// Writes a frame that spells `request`, or returns `None` if no frame does.
pub fn write_command(alloc: Global, request: &Request) -> Result<Option<Vec<u8>>, AllocError>
    ensures spelt { IfOk result (λ o. IfSome o (λ frame. Spells frame.items request.now)) }
    ensures none { IfOk result (λ o. IfNone o ((frame : List ℕ) → Spells frame request.now → ⊥)) }
    ensures read { IfOk result (λ o. IfSome o (λ frame. request_read frame.items ≡ request.now)) }
    ensures exact { IfOk result (λ o. option_map (λ frame. frame.items) o ≡ written request.now) }
{
    write_request(alloc, request)
}

#[tactic(auto, unfolding(crate::specs::Writing::written))]
fn write_request(alloc: Global, request: &Request) -> Result<Option<Vec<u8>>, AllocError>
    ensures { IfOk result (λ o. option_map (λ frame. frame.items) o ≡ written request.now) }
{
    if !request_fits(request) {
        return Ok(None);
    }
    let mut out = Vec::new(alloc);
    push_request(&mut out, request)?;
    Ok(Some(out))
}

fn request_fits(request: &Request) -> bool
    ensures { result ≡ request_fits request.now }
{
    match request {
        Request::Command { tag, body } => is_tag(tag) && arguments_fit(body),
        Request::Malformed { tag: Some(tag) } => is_tag(tag),
        Request::Malformed { tag: None } => true,
        Request::TooBig { tag: _ } => false,
    }
}

/// True, since a `Tag` keeps that it is a tag.
fn is_tag(tag: &Tag) -> bool
    ensures { result ≡ is_tag tag.now }
{
    let _octets = tag.as_slice();
    true
}

fn arguments_fit(command: &Command) -> bool
    ensures { result ≡ arguments_fit command.now }
{
    match command {
        Command::Enable { capabilities } => enable_fits(capabilities),
        Command::Select {
            mailbox,
            parameters,
        }
        | Command::Examine {
            mailbox,
            parameters,
        } => selecting_fits(mailbox, parameters),
        Command::List {
            selection,
            reference,
            patterns,
            returns,
        } => list_fits(selection, reference, patterns, returns),
        Command::Append {
            mailbox,
            flags,
            date,
            message,
        } => append_fits(mailbox, flags.as_slice(), date, message),
        _ => mailbox_fits(command),
    }
}

fn push_request(out: &mut Vec<u8>, request: &Request) -> Result<(), AllocError>
    ensures { OnOk result (out.new.items ≡ out.old.items ++ request_text request.now) }
{
    match request {
        Request::Command { tag, body } => push_command(out, tag, body),
        Request::Malformed { tag: Some(tag) } => {
            out.extend_from_slice(tag.as_slice())?;
            out.extend_from_slice(b"\r\n")
        }
        Request::Malformed { tag: None } => out.extend_from_slice(b"\r\n"),
        Request::TooBig { tag: _ } => Ok(()),
    }
}

fn push_command(out: &mut Vec<u8>, tag: &Tag, command: &Command) -> Result<(), AllocError>
    ensures { OnOk result (out.new.items ≡ out.old.items ++ command_text tag.now command.now) }
{
    out.extend_from_slice(tag.as_slice())?;
    out.push(b' ')?;
    out.extend_from_slice(verb_of(command).name())?;
    push_arguments(out, command)?;
    out.extend_from_slice(b"\r\n")
}

/// Appends all that stands between the first word of `command` and its last CRLF.
fn push_arguments(out: &mut Vec<u8>, command: &Command) -> Result<(), AllocError>
    ensures { OnOk result (out.new.items ≡ out.old.items ++ arguments_text command.now) }
{
    match command {
        Command::Enable { capabilities } => push_enable(out, capabilities),
        Command::Select {
            mailbox,
            parameters,
        }
        | Command::Examine {
            mailbox,
            parameters,
        } => push_selecting(out, mailbox, parameters),
        Command::List {
            selection,
            reference,
            patterns,
            returns,
        } => push_list(out, selection, reference, patterns, returns),
        Command::Append {
            mailbox,
            flags,
            date,
            message,
        } => push_append(out, mailbox, flags.as_slice(), date, message),
        _ => push_mailbox_command(out, command),
    }
}
