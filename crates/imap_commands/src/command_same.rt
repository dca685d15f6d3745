//! Equality of commands.

use crate::command::Command;
use imap_values::{Same, same_five, same_four, same_three, same_two};

// One long match, as each arm is a call and nothing else: a function for each variant takes as long to prove.
impl Same for Command {
    fn is_same(&self, other: &Command) -> bool {
        match (self, other) {
            (Command::Capability, Command::Capability)
            | (Command::Noop, Command::Noop)
            | (Command::Logout, Command::Logout)
            | (Command::Namespace, Command::Namespace)
            | (Command::Idle, Command::Idle)
            | (Command::Close, Command::Close)
            | (Command::Unselect, Command::Unselect)
            | (Command::Authenticate, Command::Authenticate)
            | (Command::Expunge, Command::Expunge) => true,
            (Command::Create { mailbox }, Command::Create { mailbox: other })
            | (Command::Delete { mailbox }, Command::Delete { mailbox: other })
            | (Command::Subscribe { mailbox }, Command::Subscribe { mailbox: other })
            | (Command::Unsubscribe { mailbox }, Command::Unsubscribe { mailbox: other })
            | (Command::GetAcl { mailbox }, Command::GetAcl { mailbox: other })
            | (Command::MyRights { mailbox }, Command::MyRights { mailbox: other }) => {
                mailbox.is_same(other)
            }
            (
                Command::Enable { capabilities },
                Command::Enable {
                    capabilities: other_capabilities,
                },
            ) => capabilities.is_same(other_capabilities),
            (
                Command::UidExpunge { messages },
                Command::UidExpunge {
                    messages: other_messages,
                },
            ) => messages.is_same(other_messages),
            (
                Command::Rename { from, to },
                Command::Rename {
                    from: other_from,
                    to: other_to,
                },
            ) => same_two(from, other_from, to, other_to),
            (
                Command::Select {
                    mailbox,
                    parameters,
                },
                Command::Select {
                    mailbox: other_mailbox,
                    parameters: other_parameters,
                },
            )
            | (
                Command::Examine {
                    mailbox,
                    parameters,
                },
                Command::Examine {
                    mailbox: other_mailbox,
                    parameters: other_parameters,
                },
            ) => same_two(mailbox, other_mailbox, parameters, other_parameters),
            (
                Command::Status { mailbox, items },
                Command::Status {
                    mailbox: other_mailbox,
                    items: other_items,
                },
            ) => same_two(mailbox, other_mailbox, items, other_items),
            (
                Command::DeleteAcl {
                    mailbox,
                    identifier,
                },
                Command::DeleteAcl {
                    mailbox: other_mailbox,
                    identifier: other_identifier,
                },
            )
            | (
                Command::ListRights {
                    mailbox,
                    identifier,
                },
                Command::ListRights {
                    mailbox: other_mailbox,
                    identifier: other_identifier,
                },
            ) => same_two(mailbox, other_mailbox, identifier, other_identifier),
            (
                Command::SetAcl {
                    mailbox,
                    identifier,
                    rights,
                },
                Command::SetAcl {
                    mailbox: other_mailbox,
                    identifier: other_identifier,
                    rights: other_rights,
                },
            ) => same_three(
                mailbox,
                other_mailbox,
                identifier,
                other_identifier,
                rights,
                other_rights,
            ),
            (
                Command::Copy {
                    numbering,
                    messages,
                    mailbox,
                },
                Command::Copy {
                    numbering: other_numbering,
                    messages: other_messages,
                    mailbox: other_mailbox,
                },
            )
            | (
                Command::Move {
                    numbering,
                    messages,
                    mailbox,
                },
                Command::Move {
                    numbering: other_numbering,
                    messages: other_messages,
                    mailbox: other_mailbox,
                },
            ) => same_three(
                numbering,
                other_numbering,
                messages,
                other_messages,
                mailbox,
                other_mailbox,
            ),
            (
                Command::Store {
                    numbering,
                    messages,
                    store,
                },
                Command::Store {
                    numbering: other_numbering,
                    messages: other_messages,
                    store: other_store,
                },
            ) => same_three(
                numbering,
                other_numbering,
                messages,
                other_messages,
                store,
                other_store,
            ),
            (
                Command::List {
                    selection,
                    reference,
                    patterns,
                    returns,
                },
                Command::List {
                    selection: other_selection,
                    reference: other_reference,
                    patterns: other_patterns,
                    returns: other_returns,
                },
            ) => same_four(
                selection,
                other_selection,
                reference,
                other_reference,
                patterns,
                other_patterns,
                returns,
                other_returns,
            ),
            (
                Command::Append {
                    mailbox,
                    flags,
                    date,
                    message,
                },
                Command::Append {
                    mailbox: other_mailbox,
                    flags: other_flags,
                    date: other_date,
                    message: other_message,
                },
            ) => same_four(
                mailbox,
                other_mailbox,
                flags,
                other_flags,
                date,
                other_date,
                message,
                other_message,
            ),
            (
                Command::Search {
                    numbering,
                    returns,
                    charset,
                    keys,
                },
                Command::Search {
                    numbering: other_numbering,
                    returns: other_returns,
                    charset: other_charset,
                    keys: other_keys,
                },
            ) => same_four(
                numbering,
                other_numbering,
                returns,
                other_returns,
                charset,
                other_charset,
                keys,
                other_keys,
            ),
            (
                Command::Fetch {
                    numbering,
                    messages,
                    items,
                    changed_since,
                    vanished,
                },
                Command::Fetch {
                    numbering: other_numbering,
                    messages: other_messages,
                    items: other_items,
                    changed_since: other_changed_since,
                    vanished: other_vanished,
                },
            ) => same_five(
                numbering,
                other_numbering,
                messages,
                other_messages,
                items,
                other_items,
                changed_since,
                other_changed_since,
                vanished,
                other_vanished,
            ),
            _ => false,
        }
    }
}
