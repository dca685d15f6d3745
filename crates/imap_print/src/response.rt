//! The responses of the server.

use crate::acl::AclEntry;
use crate::copied::CopiedUids;
use crate::enabled::EnabledCapabilities;
use crate::fetch::FetchedItems;
use crate::flag::FlagSet;
use crate::list::ListAttributes;
use crate::numbering::NumberSet;
use crate::search::SearchResults;
use crate::status::StatusValue;
use imap_lex::{Octets, Tag};
use imap_rights::Rights;
use imap_syntax::{Items, Keywords};

/// One line to a client (RFC 9051, section 7). A mailbox is named as the client's user sees it.
pub enum Response {
    /// The first line of a session, whose user is known from the connection (section 7.1.4).
    Greeting,
    /// The capabilities (section 7.2.2).
    Capability,
    /// The last line of a session (section 7.1.5).
    Bye(Farewell),
    /// A command was carried out (section 7.1.1).
    Done {
        tag: Tag,
        code: Option<Code>,
    },
    /// A command was not carried out. It has no tag if none could be read.
    Refused {
        tag: Option<Tag>,
        refusal: Refusal,
    },
    /// The client may send the octets of a literal (section 7.6).
    Ready,
    /// The session idles (section 6.3.13).
    Idling,
    /// The prefixes of the user's own, other users' and shared names (section 6.3.10).
    Namespace,
    /// The capabilities that were enabled (section 7.2.1).
    Enabled(EnabledCapabilities),
    /// A mailbox name (section 7.3.1).
    List {
        attributes: ListAttributes,
        mailbox: Octets,
    },
    /// The hierarchy delimiter and the name of the root (section 6.3.9, of an empty pattern).
    ListRoot,
    /// Numbers of a mailbox (section 7.3.4).
    Status {
        mailbox: Octets,
        items: Items<StatusValue>,
    },
    /// An access control list (RFC 4314, section 3.6).
    Acl {
        mailbox: Octets,
        entries: Items<AclEntry>,
    },
    /// The user's rights on a mailbox (RFC 4314, section 3.8).
    MyRights {
        mailbox: Octets,
        rights: Rights,
    },
    /// The rights that an identifier always has, and those that it may be given (RFC 4314, section 3.7).
    ListRights {
        mailbox: Octets,
        identifier: Octets,
        /// It is the identifier of the mailbox's owner.
        owner: bool,
    },
    /// The flags of the selected mailbox (section 7.3.5).
    Flags {
        keywords: Keywords,
    },
    /// The flags that may be changed (section 7.1).
    PermanentFlags {
        flags: FlagSet,
        /// Further keywords may be made.
        any: bool,
    },
    /// The number of messages (section 7.4.1).
    Exists(u32),
    /// The message of this number is gone (section 7.5.1).
    Expunge(u32),
    /// The messages of these UIDs are gone (RFC 7162, section 3.2.10).
    Vanished {
        /// They were gone before the mailbox was selected, or are sent once more.
        earlier: bool,
        uids: NumberSet,
    },
    /// The mailbox that was selected before is closed (section 7.1).
    Closed,
    /// The UIDVALIDITY of the mailbox (section 7.1).
    UidValidity(u32),
    /// The next message's UID, at the least (section 7.1).
    UidNext(u32),
    /// The highest mod-sequence of the mailbox (RFC 7162, section 3.1.2.1).
    HighestModSeq(u64),
    /// The UIDs of messages that were moved (section 7.1, of COPYUID).
    Moved(CopiedUids),
    /// Items of the message of this number: those that a command requested, or those that changed (section
    /// 7.5.2).
    Fetch {
        number: u32,
        items: FetchedItems,
    },
    /// The results of a search (section 7.3.4, of ESEARCH).
    Search {
        tag: Tag,
        /// The numbers are UIDs.
        uid: bool,
        results: SearchResults,
    },
}

// Not derived: a derived one is proved anew in each crate that lets go of one.
impl Drop for Response {
    fn drop(self) {
        match self {
            Response::Bye(_) => {}
            Response::Done { tag, code } => drop((tag, code)),
            Response::Refused { tag, refusal: _ } => drop(tag),
            Response::Enabled(_) => {}
            Response::List {
                attributes: _,
                mailbox,
            } => drop(mailbox),
            Response::Status { mailbox, items } => drop((mailbox, items)),
            Response::Acl { mailbox, entries } => drop((mailbox, entries)),
            Response::MyRights { mailbox, rights: _ } => drop(mailbox),
            Response::ListRights {
                mailbox,
                identifier,
                owner: _,
            } => drop((mailbox, identifier)),
            Response::Flags { keywords } => drop(keywords),
            Response::PermanentFlags { flags, any: _ } => drop(flags),
            Response::Exists(_) => {}
            Response::Expunge(_) => {}
            Response::Vanished { earlier: _, uids } => drop(uids),
            Response::UidValidity(_) => {}
            Response::UidNext(_) => {}
            Response::HighestModSeq(_) => {}
            Response::Moved(value) => drop(value),
            Response::Fetch { number: _, items } => drop(items),
            Response::Search {
                tag,
                uid: _,
                results,
            } => drop((tag, results)),
            Response::Greeting
            | Response::Capability
            | Response::Ready
            | Response::Idling
            | Response::Namespace
            | Response::ListRoot
            | Response::Closed => {}
        }
    }
}

/// The response code of a command that was carried out (RFC 9051, section 7.1, and RFC 7162).
pub enum Code {
    /// The mailbox is selected, and may be changed.
    ReadWrite,
    /// The mailbox is selected, and may not be changed.
    ReadOnly,
    /// The UIDVALIDITY of the mailbox and the UID that the message was given there.
    AppendUid { validity: u32, uid: u32 },
    /// The UIDs of the messages and of their copies.
    CopyUid(CopiedUids),
    /// The highest mod-sequence of the mailbox (RFC 7162, section 3.2.7).
    HighestModSeq(u64),
    /// The messages that were not changed, as their mod-sequences were too high (RFC 7162, section 3.1.3).
    Modified(NumberSet),
}

// Not derived: a derived one is proved anew in each crate that lets go of one.
impl Drop for Code {
    fn drop(self) {
        match self {
            Code::AppendUid {
                validity: _,
                uid: _,
            } => {}
            Code::CopyUid(value) => drop(value),
            Code::HighestModSeq(_) => {}
            Code::Modified(value) => drop(value),
            Code::ReadWrite | Code::ReadOnly => {}
        }
    }
}

/// Why a session ends.
#[derive(Clone, Copy, PartialEq, Eq)]
pub enum Farewell {
    /// The client logs out.
    LoggingOut,
    /// The user has too many sessions open, or a line was too long.
    LimitReached,
    /// The client sent nothing for too long (RFC 9051, section 5.4).
    IdleTooLong,
    /// The selected mailbox is gone, or the user may not read it any more.
    MailboxUnavailable,
}

/// Why a command is not carried out, by the response codes of RFC 5530.
#[derive(Clone, Copy, PartialEq, Eq)]
pub enum Refusal {
    /// The user sees no such mailbox.
    NonExistent,
    /// The user sees the mailbox, and lacks the right.
    NoPerm,
    /// The name is in use.
    AlreadyExists,
    /// There are names below this one (RFC 9051, section 7.1).
    HasChildren,
    /// The server never does this.
    Cannot,
    /// A limit of this server is reached.
    Limit,
    /// The mailbox has no room for more messages.
    OverQuota,
    /// There is no such mailbox, and the user may make it (RFC 9051, section 7.1).
    TryCreate,
    /// Some of the messages are gone.
    ExpungeIssued,
    /// The mailbox is selected in this session.
    InUse,
    /// The store did not take the change.
    Unavailable,
    /// SEARCH names a charset that is not known (RFC 9051, section 7.1).
    BadCharset,
    /// The octets spell no command.
    Malformed,
    /// The command is not allowed in this state (RFC 9051, section 3).
    WrongState,
}
