//! Commands on mailboxes and their access control lists (RFC 9051, section 6.3; RFC 4314, section 3).

ghost use Rattle.std.specs.Prelude.{◌≡◌, ◌&&◌, ◌++◌, OnOk};
ghost use Rattle.imap_syntax.specs.Reading.{ReadsIfMemory};
ghost use Rattle.imap_commands.specs.commands.Mailboxes.{command_on, one_mailbox};
ghost use Rattle.imap_commands.specs.commands.Mailboxes.{status, status_fits, status_text};
ghost use Rattle.imap_commands.specs.commands.Mailboxes.{mailbox_fits, mailbox_text};
ghost use Rattle.imap_commands.specs.Reading.{arguments};

use crate::command::Command;
use crate::commands::argument::{
    after, push_argument, push_three, push_two, read_argument, two_fit,
};
use crate::commands::messages::{messages_fit, push_messages};
use crate::commands::select::read_parameters;
use crate::verb::Verb;
use imap_lex::Octets;
use imap_query::StatusItem;
use imap_syntax::{Cursor, ReadError, Word, WordOf, push_listed, some_fit, string_fits};
use std::alloc::{AllocError, Global};

/// A command whose one argument is the name of a mailbox.
#[derive(Clone, Copy)]
pub(crate) enum OneMailbox {
    Create,
    Delete,
    GetAcl,
    MyRights,
    Subscribe,
    Unsubscribe,
}

/// Returns the command `verb` on `mailbox`.
fn command_on(verb: OneMailbox, mailbox: Octets) -> Command
    ensures { result ≡ command_on verb mailbox }
{
    match verb {
        OneMailbox::Create => Command::Create { mailbox },
        OneMailbox::Delete => Command::Delete { mailbox },
        OneMailbox::GetAcl => Command::GetAcl { mailbox },
        OneMailbox::MyRights => Command::MyRights { mailbox },
        OneMailbox::Subscribe => Command::Subscribe { mailbox },
        OneMailbox::Unsubscribe => Command::Unsubscribe { mailbox },
    }
}

/// Reads the name of a mailbox, for the command `verb` on it.
pub(crate) fn read_one_mailbox(
    cursor: &mut Cursor<'_>,
    alloc: Global,
    verb: OneMailbox,
) -> Result<Command, ReadError>
    ensures { ReadsIfMemory (λ c. c) result cursor.new ((one_mailbox verb).read cursor.old) }
{
    let mailbox = read_argument(cursor, alloc)?;
    Ok(command_on(verb, mailbox))
}

pub(crate) fn read_rename(cursor: &mut Cursor<'_>, alloc: Global) -> Result<Command, ReadError>
    ensures { ReadsIfMemory (λ c. c) result cursor.new ((arguments Verb.Rename).read cursor.old) }
{
    let from = read_argument(cursor, alloc)?;
    let to = read_argument(cursor, alloc)?;
    Ok(Command::Rename { from, to })
}

pub(crate) fn read_select(cursor: &mut Cursor<'_>, alloc: Global) -> Result<Command, ReadError>
    ensures { ReadsIfMemory (λ c. c) result cursor.new ((arguments Verb.Select).read cursor.old) }
{
    let mailbox = read_argument(cursor, alloc)?;
    let parameters = read_parameters(cursor, alloc)?;
    Ok(Command::Select {
        mailbox,
        parameters,
    })
}

pub(crate) fn read_examine(cursor: &mut Cursor<'_>, alloc: Global) -> Result<Command, ReadError>
    ensures { ReadsIfMemory (λ c. c) result cursor.new ((arguments Verb.Examine).read cursor.old) }
{
    let mailbox = read_argument(cursor, alloc)?;
    let parameters = read_parameters(cursor, alloc)?;
    Ok(Command::Examine {
        mailbox,
        parameters,
    })
}

pub(crate) fn read_status(cursor: &mut Cursor<'_>, alloc: Global) -> Result<Command, ReadError>
    ensures { ReadsIfMemory (λ c. c) result cursor.new (status.read cursor.old) }
{
    let mailbox = read_argument(cursor, alloc)?;
    cursor.space()?;
    let items = cursor.listed::<WordOf<StatusItem>>(alloc)?;
    Ok(Command::Status { mailbox, items })
}

pub(crate) fn read_set_acl(cursor: &mut Cursor<'_>, alloc: Global) -> Result<Command, ReadError>
    ensures { ReadsIfMemory (λ c. c) result cursor.new ((arguments Verb.SetAcl).read cursor.old) }
{
    let mailbox = read_argument(cursor, alloc)?;
    let front = after(mailbox, read_argument(cursor, alloc))?;
    let ((mailbox, identifier), rights) = after(front, read_argument(cursor, alloc))?;
    Ok(Command::SetAcl {
        mailbox,
        identifier,
        rights,
    })
}

pub(crate) fn read_delete_acl(cursor: &mut Cursor<'_>, alloc: Global) -> Result<Command, ReadError>
    ensures { ReadsIfMemory (λ c. c) result cursor.new ((arguments Verb.DeleteAcl).read cursor.old) }
{
    let mailbox = read_argument(cursor, alloc)?;
    let identifier = read_argument(cursor, alloc)?;
    Ok(Command::DeleteAcl {
        mailbox,
        identifier,
    })
}

pub(crate) fn read_list_rights(cursor: &mut Cursor<'_>, alloc: Global) -> Result<Command, ReadError>
    ensures { ReadsIfMemory (λ c. c) result cursor.new ((arguments Verb.ListRights).read cursor.old) }
{
    let mailbox = read_argument(cursor, alloc)?;
    let identifier = read_argument(cursor, alloc)?;
    Ok(Command::ListRights {
        mailbox,
        identifier,
    })
}

fn status_fits(mailbox: &Octets, items: &[StatusItem]) -> bool
    ensures { result ≡ status_fits mailbox.now items.now }
{
    string_fits(mailbox) && some_fit::<Word<StatusItem>>(items)
}

/// Whether the arguments of a command on mailboxes, or of one on messages, can be written.
pub(crate) fn mailbox_fits(command: &Command) -> bool
    ensures { result ≡ mailbox_fits command.now }
{
    match command {
        Command::Create { mailbox }
        | Command::Delete { mailbox }
        | Command::Subscribe { mailbox }
        | Command::Unsubscribe { mailbox }
        | Command::GetAcl { mailbox }
        | Command::MyRights { mailbox } => string_fits(mailbox),
        Command::Rename { from, to } => two_fit(from, to),
        Command::Status { mailbox, items } => status_fits(mailbox, items.as_slice()),
        Command::SetAcl {
            mailbox,
            identifier,
            rights,
        } => string_fits(mailbox) && two_fit(identifier, rights),
        Command::DeleteAcl {
            mailbox,
            identifier,
        }
        | Command::ListRights {
            mailbox,
            identifier,
        } => two_fit(mailbox, identifier),
        _ => messages_fit(command),
    }
}

/// Appends the arguments of a command on mailboxes, or of one on messages.
pub(crate) fn push_mailbox_command(out: &mut Vec<u8>, command: &Command) -> Result<(), AllocError>
    ensures { OnOk result (out.new.items ≡ out.old.items ++ mailbox_text command.now) }
{
    match command {
        Command::Create { mailbox }
        | Command::Delete { mailbox }
        | Command::Subscribe { mailbox }
        | Command::Unsubscribe { mailbox }
        | Command::GetAcl { mailbox }
        | Command::MyRights { mailbox } => push_argument(out, mailbox),
        Command::Rename { from, to } => push_two(out, from, to),
        Command::DeleteAcl {
            mailbox,
            identifier,
        }
        | Command::ListRights {
            mailbox,
            identifier,
        } => push_two(out, mailbox, identifier),
        Command::SetAcl {
            mailbox,
            identifier,
            rights,
        } => push_three(out, mailbox, identifier, rights),
        Command::Status { mailbox, items } => push_status(out, mailbox, items.as_slice()),
        _ => push_messages(out, command),
    }
}

fn push_status(out: &mut Vec<u8>, mailbox: &Octets, items: &[StatusItem]) -> Result<(), AllocError>
    ensures { OnOk result (out.new.items ≡ out.old.items ++ status_text mailbox.now items.now) }
{
    push_argument(out, mailbox)?;
    out.push(b' ')?;
    push_listed::<Word<StatusItem>>(out, items)
}
