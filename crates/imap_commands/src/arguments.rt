//! The arguments of a command, read by its first word.

ghost use Rattle.imap_syntax.specs.Reading.{ReadsIfMemory};
ghost use Rattle.imap_commands.specs.Reading.{arguments};

use crate::command::Command;
use crate::commands::append::read_append;
use crate::commands::enable::read_enable;
use crate::commands::list::read_list;
use crate::commands::login::read_any_arguments;
use crate::commands::mailboxes::{
    OneMailbox, read_delete_acl, read_examine, read_list_rights, read_one_mailbox, read_rename,
    read_select, read_set_acl, read_status,
};
use crate::commands::messages::{
    read_copy, read_fetch, read_move, read_search, read_store, read_uid_command,
};
use crate::verb::Verb;
use imap_syntax::{Cursor, Numbering, ReadError};
use std::alloc::Global;

/// Reads the arguments of the command with the first word `verb`.
pub fn read_arguments(
    cursor: &mut Cursor<'_>,
    alloc: Global,
    verb: Verb,
) -> Result<Command, ReadError>
    ensures { ReadsIfMemory (λ c. c) result cursor.new ((arguments verb).read cursor.old) }
{
    match verb {
        Verb::Append => read_append(cursor, alloc),
        Verb::Authenticate | Verb::Login | Verb::StartTls => read_any_arguments(cursor),
        Verb::Capability => Ok(Command::Capability),
        Verb::Close => Ok(Command::Close),
        Verb::Copy => read_copy(cursor, alloc, Numbering::Sequence),
        Verb::Create => read_one_mailbox(cursor, alloc, OneMailbox::Create),
        Verb::Delete => read_one_mailbox(cursor, alloc, OneMailbox::Delete),
        Verb::DeleteAcl => read_delete_acl(cursor, alloc),
        Verb::Enable => read_enable(cursor, alloc),
        Verb::Examine => read_examine(cursor, alloc),
        Verb::Expunge => Ok(Command::Expunge),
        Verb::Fetch => read_fetch(cursor, alloc, Numbering::Sequence),
        Verb::GetAcl => read_one_mailbox(cursor, alloc, OneMailbox::GetAcl),
        Verb::Idle => Ok(Command::Idle),
        Verb::List => read_list(cursor, alloc),
        Verb::ListRights => read_list_rights(cursor, alloc),
        Verb::Logout => Ok(Command::Logout),
        Verb::Move => read_move(cursor, alloc, Numbering::Sequence),
        Verb::MyRights => read_one_mailbox(cursor, alloc, OneMailbox::MyRights),
        Verb::Namespace => Ok(Command::Namespace),
        Verb::Noop => Ok(Command::Noop),
        Verb::Rename => read_rename(cursor, alloc),
        Verb::Search => read_search(cursor, alloc, Numbering::Sequence),
        Verb::Select => read_select(cursor, alloc),
        Verb::SetAcl => read_set_acl(cursor, alloc),
        Verb::Status => read_status(cursor, alloc),
        Verb::Store => read_store(cursor, alloc, Numbering::Sequence),
        Verb::Subscribe => read_one_mailbox(cursor, alloc, OneMailbox::Subscribe),
        Verb::Uid => read_uid_command(cursor, alloc),
        Verb::Unselect => Ok(Command::Unselect),
        Verb::Unsubscribe => read_one_mailbox(cursor, alloc, OneMailbox::Unsubscribe),
    }
}
