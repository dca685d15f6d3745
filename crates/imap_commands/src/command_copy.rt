//! Copies of commands.

ghost use Rattle.std.specs.Prelude.{◌≡◌, IfOk};

use crate::command::Command;
use imap_values::{TryCopy, beside, copy_two};
use std::alloc::{AllocError, Global};

// One long match, as each arm only copies its fields.
impl TryCopy for Command {
    /// Returns an equal copy. It shares the octets of strings and of messages.
    fn try_copy(&self, alloc: Global) -> Result<Command, AllocError> {
        match self {
            Command::Capability => Ok(Command::Capability),
            Command::Noop => Ok(Command::Noop),
            Command::Logout => Ok(Command::Logout),
            Command::Namespace => Ok(Command::Namespace),
            Command::Idle => Ok(Command::Idle),
            Command::Close => Ok(Command::Close),
            Command::Unselect => Ok(Command::Unselect),
            Command::Authenticate => Ok(Command::Authenticate),
            Command::Enable { capabilities } => {
                let capabilities = capabilities.try_copy(alloc)?;
                Ok(Command::Enable { capabilities })
            }
            Command::Select {
                mailbox,
                parameters,
            } => {
                let (mailbox, parameters) = copy_two(mailbox, parameters, alloc)?;
                Ok(Command::Select {
                    mailbox,
                    parameters,
                })
            }
            Command::Examine {
                mailbox,
                parameters,
            } => {
                let (mailbox, parameters) = copy_two(mailbox, parameters, alloc)?;
                Ok(Command::Examine {
                    mailbox,
                    parameters,
                })
            }
            Command::Create { mailbox } => {
                let mailbox = mailbox.try_copy()?;
                Ok(Command::Create { mailbox })
            }
            Command::Delete { mailbox } => {
                let mailbox = mailbox.try_copy()?;
                Ok(Command::Delete { mailbox })
            }
            Command::Rename { from, to } => {
                let (from, to) = copy_two(from, to, alloc)?;
                Ok(Command::Rename { from, to })
            }
            Command::Subscribe { mailbox } => {
                let mailbox = mailbox.try_copy()?;
                Ok(Command::Subscribe { mailbox })
            }
            Command::Unsubscribe { mailbox } => {
                let mailbox = mailbox.try_copy()?;
                Ok(Command::Unsubscribe { mailbox })
            }
            Command::List {
                selection,
                reference,
                patterns,
                returns,
            } => {
                let front = copy_two(selection, reference, alloc)?;
                let back = copy_two(patterns, returns, alloc);
                let ((patterns, returns), (selection, reference)) = beside(back, front)?;
                Ok(Command::List {
                    selection,
                    reference,
                    patterns,
                    returns,
                })
            }
            Command::Status { mailbox, items } => {
                let (mailbox, items) = copy_two(mailbox, items, alloc)?;
                Ok(Command::Status { mailbox, items })
            }
            Command::Append {
                mailbox,
                flags,
                date,
                message,
            } => {
                let (mailbox, flags, message) = copy_three(mailbox, flags, message, alloc)?;
                Ok(Command::Append {
                    mailbox,
                    flags,
                    date: *date,
                    message,
                })
            }
            Command::SetAcl {
                mailbox,
                identifier,
                rights,
            } => {
                let (mailbox, identifier, rights) = copy_three(mailbox, identifier, rights, alloc)?;
                Ok(Command::SetAcl {
                    mailbox,
                    identifier,
                    rights,
                })
            }
            Command::DeleteAcl {
                mailbox,
                identifier,
            } => {
                let (mailbox, identifier) = copy_two(mailbox, identifier, alloc)?;
                Ok(Command::DeleteAcl {
                    mailbox,
                    identifier,
                })
            }
            Command::GetAcl { mailbox } => {
                let mailbox = mailbox.try_copy()?;
                Ok(Command::GetAcl { mailbox })
            }
            Command::ListRights {
                mailbox,
                identifier,
            } => {
                let (mailbox, identifier) = copy_two(mailbox, identifier, alloc)?;
                Ok(Command::ListRights {
                    mailbox,
                    identifier,
                })
            }
            Command::MyRights { mailbox } => {
                let mailbox = mailbox.try_copy()?;
                Ok(Command::MyRights { mailbox })
            }
            Command::Expunge => Ok(Command::Expunge),
            Command::UidExpunge { messages } => {
                let messages = messages.try_copy(alloc)?;
                Ok(Command::UidExpunge { messages })
            }
            Command::Search {
                numbering,
                returns,
                charset,
                keys,
            } => {
                let (returns, charset, keys) = copy_three(returns, charset, keys, alloc)?;
                Ok(Command::Search {
                    numbering: *numbering,
                    returns,
                    charset,
                    keys,
                })
            }
            Command::Fetch {
                numbering,
                messages,
                items,
                changed_since,
                vanished,
            } => {
                let (messages, items) = copy_two(messages, items, alloc)?;
                Ok(Command::Fetch {
                    numbering: *numbering,
                    messages,
                    items,
                    changed_since: *changed_since,
                    vanished: *vanished,
                })
            }
            Command::Store {
                numbering,
                messages,
                store,
            } => {
                let (messages, store) = copy_two(messages, store, alloc)?;
                Ok(Command::Store {
                    numbering: *numbering,
                    messages,
                    store,
                })
            }
            Command::Copy {
                numbering,
                messages,
                mailbox,
            } => {
                let (messages, mailbox) = copy_two(messages, mailbox, alloc)?;
                Ok(Command::Copy {
                    numbering: *numbering,
                    messages,
                    mailbox,
                })
            }
            Command::Move {
                numbering,
                messages,
                mailbox,
            } => {
                let (messages, mailbox) = copy_two(messages, mailbox, alloc)?;
                Ok(Command::Move {
                    numbering: *numbering,
                    messages,
                    mailbox,
                })
            }
        }
    }
}

fn copy_three<A: TryCopy + Drop, B: TryCopy + Drop, C: TryCopy + Drop>(
    first: &A,
    second: &B,
    third: &C,
    alloc: Global,
) -> Result<(A, B, C), AllocError>
    ensures { IfOk result (λ copies. copies ≡ (first.now, second.now, third.now)) }
{
    let first = first.try_copy(alloc)?;
    let second = second.try_copy(alloc)?;
    let third = third.try_copy(alloc)?;
    Ok((first, second, third))
}
