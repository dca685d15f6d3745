//! What each command is answered that ends no session and selects no mailbox.

ghost use Rattle.std.specs.Prelude.{◌≡◌, IfOk};
ghost use Rattle.imap_core.specs.Answers as specs;
ghost use Rattle.imap_session.specs.State.{state_of};

use super::session::{capability_answer, enable_answer};
use imap_answer::{Answer, CommandContext};
use imap_changes::{
    StoreArguments, TransferArguments, TransferKind, expunge_answer, store_answer, transfer_answer,
    uid_expunge_answer,
};
use imap_grammar::Command;
use imap_lex::Octets;
use imap_list::{
    ListArguments, list_answer, namespace_answer, status_answer, subscribe_answer,
    unsubscribe_answer,
};
use imap_messages::{AppendArguments, FetchArguments, append_answer, fetch_answer};
use imap_print::Refusal;
use imap_search::{SearchArguments, search_answer};
use imap_session::Session;
use imap_syntax::{MessageSet, Numbering};
use imap_tree::{
    create_answer, delete_acl_answer, delete_answer, get_acl_answer, list_rights_answer,
    my_rights_answer, rename_answer, set_acl_answer,
};
use std::alloc::AllocError;

/// Answers a command, but for those that end the session or select a mailbox.
pub(super) fn command_answer(
    context: &CommandContext<'_>,
    session: &Session,
    command: &Command,
) -> Result<Answer, AllocError>
    ensures { let own = state_of session.now in
        let answer = specs.command_answer context.now.view own context.now.tag context.now.at in
        IfOk result (λ given. given ≡ answer command.now) }
{
    match command {
        Command::Capability => capability_answer(context),
        Command::Noop => context.done(),
        Command::Authenticate => context.refuse(Refusal::WrongState),
        Command::Namespace => namespace_answer(context),
        Command::List {
            selection,
            reference,
            patterns,
            returns,
        } => {
            let arguments = ListArguments {
                selection,
                reference,
                patterns,
                returns,
            };
            list_answer(context, &arguments)
        }
        Command::Subscribe { mailbox } => subscribe_answer(context, mailbox),
        Command::Unsubscribe { mailbox } => unsubscribe_answer(context, mailbox),
        Command::Create { mailbox } => create_answer(context, mailbox),
        Command::Delete { mailbox } => delete_answer(context, session.selected_name(), mailbox),
        Command::Rename { from, to } => rename_answer(context, session.selected_name(), from, to),
        Command::Enable { capabilities } => {
            enable_answer(context, session.enabled, capabilities.as_slice())
        }
        Command::Status { mailbox, items } => status_answer(context, mailbox, items),
        _ => acl_answer(context, session, command),
    }
}

/// Answers a command on access control lists (RFC 4314), or on messages.
fn acl_answer(
    context: &CommandContext<'_>,
    session: &Session,
    command: &Command,
) -> Result<Answer, AllocError>
    ensures { let own = state_of session.now in
        let answer = specs.acl_answer context.now.view own context.now.tag context.now.at in
        IfOk result (λ given. given ≡ answer command.now) }
{
    match command {
        Command::SetAcl {
            mailbox,
            identifier,
            rights,
        } => set_acl_answer(context, mailbox, identifier, rights),
        Command::DeleteAcl {
            mailbox,
            identifier,
        } => delete_acl_answer(context, mailbox, identifier),
        Command::GetAcl { mailbox } => get_acl_answer(context, mailbox),
        Command::ListRights {
            mailbox,
            identifier,
        } => list_rights_answer(context, mailbox, identifier),
        Command::MyRights { mailbox } => my_rights_answer(context, mailbox),
        _ => message_answer(context, session, command),
    }
}

/// Answers a command on messages.
fn message_answer(
    context: &CommandContext<'_>,
    session: &Session,
    command: &Command,
) -> Result<Answer, AllocError>
    ensures { let own = state_of session.now in
        let answer = specs.message_answer context.now.view own context.now.tag context.now.at in
        IfOk result (λ given. given ≡ answer command.now) }
{
    match command {
        Command::Append {
            mailbox,
            flags,
            date,
            message,
        } => {
            let arguments = AppendArguments {
                mailbox,
                flags,
                date: *date,
                message,
            };
            append_answer(context, &arguments)
        }
        Command::Fetch {
            numbering,
            messages,
            items,
            changed_since,
            vanished,
        } => {
            let arguments = FetchArguments {
                numbering: *numbering,
                messages,
                items,
                changed_since: *changed_since,
                vanished: *vanished,
            };
            fetch_answer(context, session, &arguments)
        }
        Command::Search {
            numbering,
            returns,
            charset,
            keys,
        } => {
            let arguments = SearchArguments {
                numbering: *numbering,
                returns,
                charset,
                keys,
            };
            search_answer(context, session, &arguments)
        }
        _ => change_answer(context, session, command),
    }
}

/// Answers a command that changes messages.
fn change_answer(
    context: &CommandContext<'_>,
    session: &Session,
    command: &Command,
) -> Result<Answer, AllocError>
    ensures { let answer = specs.change_answer context.now.view (state_of session.now) context.now.tag in
        IfOk result (λ given. given ≡ answer command.now) }
{
    match command {
        Command::Expunge => expunge_answer(context, session),
        Command::UidExpunge { messages } => uid_expunge_answer(context, session, messages),
        Command::Store {
            numbering,
            messages,
            store,
        } => {
            let arguments = StoreArguments {
                numbering: *numbering,
                messages,
                spec: store,
            };
            store_answer(context, session, &arguments)
        }
        _ => transfer_command(context, session, command),
    }
}

/// Answers COPY and MOVE. No other command comes here. Each is named, so that a new one can't be forgotten.
fn transfer_command(
    context: &CommandContext<'_>,
    session: &Session,
    command: &Command,
) -> Result<Answer, AllocError>
    ensures { let answer = specs.transfer_command context.now.view (state_of session.now) context.now.tag in
        IfOk result (λ given. given ≡ answer command.now) }
{
    match command {
        Command::Copy {
            numbering,
            messages,
            mailbox,
        } => {
            let kind = TransferKind::Copy;
            transfer(context, session, kind, *numbering, messages, mailbox)
        }
        Command::Move {
            numbering,
            messages,
            mailbox,
        } => {
            let kind = TransferKind::Move;
            transfer(context, session, kind, *numbering, messages, mailbox)
        }
        // The functions above answer these, or `command_pending` has an outcome of its own for them.
        Command::Capability
        | Command::Noop
        | Command::Logout
        | Command::Authenticate
        | Command::Namespace
        | Command::Idle => context.refuse(Refusal::Cannot),
        Command::Enable { .. }
        | Command::Select { .. }
        | Command::Examine { .. }
        | Command::Close
        | Command::Unselect => context.refuse(Refusal::Cannot),
        Command::Create { .. }
        | Command::Delete { .. }
        | Command::Rename { .. }
        | Command::Subscribe { .. }
        | Command::Unsubscribe { .. }
        | Command::List { .. } => context.refuse(Refusal::Cannot),
        Command::Status { .. }
        | Command::SetAcl { .. }
        | Command::DeleteAcl { .. }
        | Command::GetAcl { .. }
        | Command::ListRights { .. }
        | Command::MyRights { .. } => context.refuse(Refusal::Cannot),
        Command::Append { .. }
        | Command::Fetch { .. }
        | Command::Search { .. }
        | Command::Store { .. }
        | Command::Expunge
        | Command::UidExpunge { .. } => context.refuse(Refusal::Cannot),
    }
}

fn transfer(
    context: &CommandContext<'_>,
    session: &Session,
    kind: TransferKind,
    numbering: Numbering,
    messages: &MessageSet,
    mailbox: &Octets,
) -> Result<Answer, AllocError>
    ensures { let answer = specs.transfer context.now.view (state_of session.now) context.now.tag kind in
        IfOk result (λ given. given ≡ answer numbering messages.now mailbox.now) }
{
    let arguments = TransferArguments {
        kind,
        numbering,
        messages,
        mailbox,
    };
    transfer_answer(context, session, &arguments)
}
