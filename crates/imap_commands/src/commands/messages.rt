//! Commands on messages (RFC 9051, section 6.4).

ghost use Rattle.std.specs.Prelude.{◌≡◌, ◌++◌, OnOk};
ghost use Rattle.imap_syntax.specs.Reading.{ReadsIfMemory};
ghost use Rattle.imap_commands.specs.commands.Messages.{copy, move, uid_expunge, store, fetch, search};
ghost use Rattle.imap_commands.specs.commands.Messages.{uid_command, copy_text, fetch_text, search_text};
ghost use Rattle.imap_commands.specs.commands.Messages.{store_text, messages_fit, messages_text};

use crate::command::Command;
use crate::commands::argument::{after, push_argument, read_argument};
use crate::commands::store::{StoreSpec, push_store_spec, read_store_spec, store_spec_fits};
use crate::verb::{UidVerb, push_uid_verb};
use imap_lex::Octets;
use imap_query::{
    FetchItem, SearchKeys, SearchReturn, changed_fits, charset_fits, items_fit, push_charset,
    push_items, push_modifiers, push_returns, push_search_keys, read_fetch_items, read_modifiers,
    read_search_charset, read_search_keys, read_search_returns, search_keys_fit,
};
use imap_syntax::{Cursor, MessageSet, Numbering, ReadError, push_set, set_fits, string_fits};
use std::alloc::{AllocError, Global};

pub(crate) fn read_copy(
    cursor: &mut Cursor<'_>,
    alloc: Global,
    numbering: Numbering,
) -> Result<Command, ReadError>
    ensures { ReadsIfMemory (λ c. c) result cursor.new ((copy numbering).read cursor.old) }
{
    cursor.space()?;
    let messages = cursor.message_set(alloc)?;
    let mailbox = read_argument(cursor, alloc)?;
    Ok(Command::Copy {
        numbering,
        messages,
        mailbox,
    })
}

pub(crate) fn read_move(
    cursor: &mut Cursor<'_>,
    alloc: Global,
    numbering: Numbering,
) -> Result<Command, ReadError>
    ensures { ReadsIfMemory (λ c. c) result cursor.new ((move numbering).read cursor.old) }
{
    cursor.space()?;
    let messages = cursor.message_set(alloc)?;
    let mailbox = read_argument(cursor, alloc)?;
    Ok(Command::Move {
        numbering,
        messages,
        mailbox,
    })
}

pub(crate) fn read_uid_expunge(cursor: &mut Cursor<'_>, alloc: Global) -> Result<Command, ReadError>
    ensures { ReadsIfMemory (λ c. c) result cursor.new (uid_expunge.read cursor.old) }
{
    cursor.space()?;
    let messages = cursor.message_set(alloc)?;
    Ok(Command::UidExpunge { messages })
}

pub(crate) fn read_store(
    cursor: &mut Cursor<'_>,
    alloc: Global,
    numbering: Numbering,
) -> Result<Command, ReadError>
    ensures { ReadsIfMemory (λ c. c) result cursor.new ((store numbering).read cursor.old) }
{
    cursor.space()?;
    let messages = cursor.message_set(alloc)?;
    cursor.space()?;
    let store = read_store_spec(cursor, alloc)?;
    Ok(Command::Store {
        numbering,
        messages,
        store,
    })
}

pub(crate) fn read_fetch(
    cursor: &mut Cursor<'_>,
    alloc: Global,
    numbering: Numbering,
) -> Result<Command, ReadError>
    ensures { ReadsIfMemory (λ c. c) result cursor.new ((fetch numbering).read cursor.old) }
{
    cursor.space()?;
    let messages = cursor.message_set(alloc)?;
    cursor.space()?;
    let items = read_fetch_items(cursor, alloc)?;
    let ((messages, items), modifiers) = after((messages, items), read_modifiers(cursor))?;
    Ok(Command::Fetch {
        numbering,
        messages,
        items,
        changed_since: modifiers.changed_since,
        vanished: modifiers.vanished,
    })
}

pub(crate) fn read_search(
    cursor: &mut Cursor<'_>,
    alloc: Global,
    numbering: Numbering,
) -> Result<Command, ReadError>
    ensures { ReadsIfMemory (λ c. c) result cursor.new ((search numbering).read cursor.old) }
{
    cursor.space()?;
    let returns = read_search_returns(cursor, alloc)?;
    let charset = read_search_charset(cursor, alloc)?;
    let ((returns, charset), keys) = after((returns, charset), read_search_keys(cursor, alloc))?;
    Ok(Command::Search {
        numbering,
        returns,
        charset,
        keys,
    })
}

/// Reads the command after UID.
pub(crate) fn read_uid_command(cursor: &mut Cursor<'_>, alloc: Global) -> Result<Command, ReadError>
    ensures { ReadsIfMemory (λ c. c) result cursor.new (uid_command.read cursor.old) }
{
    cursor.space()?;
    match cursor.keyword::<UidVerb>()? {
        UidVerb::Copy => read_copy(cursor, alloc, Numbering::Uid),
        UidVerb::Expunge => read_uid_expunge(cursor, alloc),
        UidVerb::Move => read_move(cursor, alloc, Numbering::Uid),
        UidVerb::Store => read_store(cursor, alloc, Numbering::Uid),
        UidVerb::Fetch => read_fetch(cursor, alloc, Numbering::Uid),
        UidVerb::Search => read_search(cursor, alloc, Numbering::Uid),
    }
}

/// Whether the arguments of a command on messages can be written.
pub(crate) fn messages_fit(command: &Command) -> bool
    ensures { result ≡ messages_fit command.now }
{
    match command {
        Command::UidExpunge { messages } => set_fits(messages),
        Command::Search { charset, keys, .. } => charset_fits(charset) && search_keys_fit(keys),
        Command::Fetch {
            messages,
            items,
            changed_since,
            ..
        } => { set_fits(messages) && items_fit(items.as_slice()) && changed_fits(*changed_since) }
        Command::Store {
            messages,
            store,
            ..
        } => set_fits(messages) && store_spec_fits(store),
        Command::Copy {
            messages,
            mailbox,
            ..
        }
        | Command::Move {
            messages,
            mailbox,
            ..
        } => set_fits(messages) && string_fits(mailbox),
        _ => true,
    }
}

/// Appends the arguments of a command on messages.
pub(crate) fn push_messages(out: &mut Vec<u8>, command: &Command) -> Result<(), AllocError>
    ensures { OnOk result (out.new.items ≡ out.old.items ++ messages_text command.now) }
{
    match command {
        Command::UidExpunge { messages } => {
            push_uid_verb(out, Numbering::Uid, UidVerb::Expunge)?;
            out.push(b' ')?;
            push_set(out, messages)
        }
        Command::Fetch {
            numbering,
            messages,
            items,
            changed_since,
            vanished,
        } => {
            push_uid_verb(out, *numbering, UidVerb::Fetch)?;
            push_fetch(out, messages, items.as_slice(), *changed_since, *vanished)
        }
        Command::Search {
            numbering,
            returns,
            charset,
            keys,
        } => {
            push_uid_verb(out, *numbering, UidVerb::Search)?;
            push_search(out, returns.as_slice(), charset, keys)
        }
        Command::Copy {
            numbering,
            messages,
            mailbox,
        } => {
            push_uid_verb(out, *numbering, UidVerb::Copy)?;
            push_copy(out, messages, mailbox)
        }
        Command::Move {
            numbering,
            messages,
            mailbox,
        } => {
            push_uid_verb(out, *numbering, UidVerb::Move)?;
            push_copy(out, messages, mailbox)
        }
        Command::Store {
            numbering,
            messages,
            store,
        } => {
            push_uid_verb(out, *numbering, UidVerb::Store)?;
            push_store(out, messages, store)
        }
        _ => Ok(()),
    }
}

fn push_fetch(
    out: &mut Vec<u8>,
    messages: &MessageSet,
    items: &[FetchItem],
    changed_since: Option<u64>,
    vanished: bool,
) -> Result<(), AllocError>
    ensures { OnOk result (out.new.items
        ≡ out.old.items ++ fetch_text messages.now items.now changed_since vanished) }
{
    out.push(b' ')?;
    push_set(out, messages)?;
    out.push(b' ')?;
    push_items(out, items)?;
    push_modifiers(out, changed_since, vanished)
}

fn push_search(
    out: &mut Vec<u8>,
    returns: &[SearchReturn],
    charset: &Option<Octets>,
    keys: &SearchKeys,
) -> Result<(), AllocError>
    ensures { OnOk result (out.new.items ≡ out.old.items ++ search_text returns.now charset.now keys.now) }
{
    out.push(b' ')?;
    push_returns(out, returns)?;
    push_charset(out, charset)?;
    push_search_keys(out, keys)
}

fn push_store(out: &mut Vec<u8>, messages: &MessageSet, store: &StoreSpec) -> Result<(), AllocError>
    ensures { OnOk result (out.new.items ≡ out.old.items ++ store_text messages.now store.now) }
{
    out.push(b' ')?;
    push_set(out, messages)?;
    out.push(b' ')?;
    push_store_spec(out, store)
}

fn push_copy(out: &mut Vec<u8>, messages: &MessageSet, mailbox: &Octets) -> Result<(), AllocError>
    ensures { OnOk result (out.new.items ≡ out.old.items ++ copy_text messages.now mailbox.now) }
{
    out.push(b' ')?;
    push_set(out, messages)?;
    push_argument(out, mailbox)
}
