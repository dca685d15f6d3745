//! Commands.

use crate::commands::list::{ListReturn, Patterns, Selection};
use crate::commands::select::SelectParameters;
use crate::commands::store::StoreSpec;
use imap_lex::Octets;
use imap_query::{FetchItem, SearchKeys, SearchReturn, StatusItem};
use imap_syntax::{Atom, DateTime, Flags, Items, MessageSet, Numbering, OneOrMore};

/// A command without its tag. Names of mailboxes, identifiers and rights are as the client sent them, without
/// their quotes and escapes.
pub enum Command {
    /// RFC 9051, section 6.1.1.
    Capability,
    /// RFC 9051, section 6.1.2.
    Noop,
    /// RFC 9051, section 6.1.3.
    Logout,
    /// RFC 9051, section 6.3.10.
    Namespace,
    /// RFC 9051, section 6.3.13.
    Idle,
    /// RFC 9051, section 6.4.1.
    Close,
    /// RFC 9051, section 6.4.2.
    Unselect,
    /// LOGIN, AUTHENTICATE or STARTTLS (RFC 9051, section 6.2), with any arguments: sessions are
    /// authenticated when they begin.
    Authenticate,
    /// RFC 9051, section 6.3.1.
    Enable {
        capabilities: OneOrMore<Atom>,
    },
    /// RFC 9051, section 6.3.2.
    Select {
        mailbox: Octets,
        parameters: SelectParameters,
    },
    /// RFC 9051, section 6.3.3.
    Examine {
        mailbox: Octets,
        parameters: SelectParameters,
    },
    /// RFC 9051, section 6.3.4.
    Create {
        mailbox: Octets,
    },
    /// RFC 9051, section 6.3.5.
    Delete {
        mailbox: Octets,
    },
    /// RFC 9051, section 6.3.6.
    Rename {
        from: Octets,
        to: Octets,
    },
    /// RFC 9051, section 6.3.7.
    Subscribe {
        mailbox: Octets,
    },
    /// RFC 9051, section 6.3.8.
    Unsubscribe {
        mailbox: Octets,
    },
    /// RFC 9051, section 6.3.9.
    List {
        selection: Option<Items<Selection>>,
        reference: Octets,
        patterns: Patterns,
        returns: Option<Items<ListReturn>>,
    },
    /// RFC 9051, section 6.3.11.
    Status {
        mailbox: Octets,
        items: Items<StatusItem>,
    },
    /// RFC 9051, section 6.3.12.
    Append {
        mailbox: Octets,
        flags: Flags,
        date: Option<DateTime>,
        message: Octets,
    },
    /// RFC 4314, section 3.1.
    SetAcl {
        mailbox: Octets,
        identifier: Octets,
        rights: Octets,
    },
    /// RFC 4314, section 3.2.
    DeleteAcl {
        mailbox: Octets,
        identifier: Octets,
    },
    /// RFC 4314, section 3.3.
    GetAcl {
        mailbox: Octets,
    },
    /// RFC 4314, section 3.4.
    ListRights {
        mailbox: Octets,
        identifier: Octets,
    },
    /// RFC 4314, section 3.5.
    MyRights {
        mailbox: Octets,
    },
    /// RFC 9051, section 6.4.3.
    Expunge,
    /// RFC 9051, section 6.4.9.
    UidExpunge {
        messages: MessageSet,
    },
    /// RFC 9051, section 6.4.4. Without RETURN or with `RETURN ()`, `returns` is empty.
    Search {
        numbering: Numbering,
        returns: Items<SearchReturn>,
        charset: Option<Octets>,
        keys: SearchKeys,
    },
    /// RFC 9051, section 6.4.5; RFC 7162, sections 3.1.4.1 and 3.2.6 for the modifiers.
    Fetch {
        numbering: Numbering,
        messages: MessageSet,
        items: Items<FetchItem>,
        changed_since: Option<u64>,
        vanished: bool,
    },
    /// RFC 9051, section 6.4.6.
    Store {
        numbering: Numbering,
        messages: MessageSet,
        store: StoreSpec,
    },
    /// RFC 9051, section 6.4.7.
    Copy {
        numbering: Numbering,
        messages: MessageSet,
        mailbox: Octets,
    },
    /// RFC 9051, section 6.4.8.
    Move {
        numbering: Numbering,
        messages: MessageSet,
        mailbox: Octets,
    },
}

// Not derived: a derived one is proved anew in each crate that lets go of one.
impl Drop for Command {
    fn drop(self) {
        match self {
            Command::Enable { capabilities } => drop(capabilities),
            Command::Select {
                mailbox,
                parameters,
            } => drop((mailbox, parameters)),
            Command::Examine {
                mailbox,
                parameters,
            } => drop((mailbox, parameters)),
            Command::Create { mailbox } => drop(mailbox),
            Command::Delete { mailbox } => drop(mailbox),
            Command::Rename { from, to } => drop((from, to)),
            Command::Subscribe { mailbox } => drop(mailbox),
            Command::Unsubscribe { mailbox } => drop(mailbox),
            Command::List {
                selection,
                reference,
                patterns,
                returns,
            } => drop((selection, reference, patterns, returns)),
            Command::Status { mailbox, items } => drop((mailbox, items)),
            Command::Append {
                mailbox,
                flags,
                date: _,
                message,
            } => drop((mailbox, flags, message)),
            Command::SetAcl {
                mailbox,
                identifier,
                rights,
            } => drop((mailbox, identifier, rights)),
            Command::DeleteAcl {
                mailbox,
                identifier,
            } => drop((mailbox, identifier)),
            Command::GetAcl { mailbox } => drop(mailbox),
            Command::ListRights {
                mailbox,
                identifier,
            } => drop((mailbox, identifier)),
            Command::MyRights { mailbox } => drop(mailbox),
            Command::UidExpunge { messages } => drop(messages),
            Command::Search {
                numbering: _,
                returns,
                charset,
                keys,
            } => drop((returns, charset, keys)),
            Command::Fetch {
                numbering: _,
                messages,
                items,
                changed_since: _,
                vanished: _,
            } => drop((messages, items)),
            Command::Store {
                numbering: _,
                messages,
                store,
            } => drop((messages, store)),
            Command::Copy {
                numbering: _,
                messages,
                mailbox,
            } => drop((messages, mailbox)),
            Command::Move {
                numbering: _,
                messages,
                mailbox,
            } => drop((messages, mailbox)),
            Command::Capability
            | Command::Noop
            | Command::Logout
            | Command::Namespace
            | Command::Idle
            | Command::Close
            | Command::Unselect
            | Command::Authenticate
            | Command::Expunge => {}
        }
    }
}
