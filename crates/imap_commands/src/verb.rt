//! The names of commands.

ghost use Rattle.std.specs.Prelude.{◌≡◌, ◌++◌, OnOk};
ghost use Rattle.imap_commands.specs.Verb.{verb_of, by_numbering, uid_text};

use crate::command::Command;
use imap_lex::AstringChar;
use imap_syntax::{Keyword, Numbering};
use std::alloc::AllocError;

/// The first word of a command.
#[derive(Clone, Copy)]
pub enum Verb {
    Append,
    Authenticate,
    Capability,
    Close,
    Copy,
    Create,
    Delete,
    DeleteAcl,
    Enable,
    Examine,
    Expunge,
    Fetch,
    GetAcl,
    Idle,
    List,
    ListRights,
    Login,
    Logout,
    Move,
    MyRights,
    Namespace,
    Noop,
    Rename,
    Search,
    Select,
    SetAcl,
    StartTls,
    Status,
    Store,
    Subscribe,
    Uid,
    Unselect,
    Unsubscribe,
}

pub(crate) const VERBS: [Verb; 33] = [
    Verb::Append,
    Verb::Authenticate,
    Verb::Capability,
    Verb::Close,
    Verb::Copy,
    Verb::Create,
    Verb::Delete,
    Verb::DeleteAcl,
    Verb::Enable,
    Verb::Examine,
    Verb::Expunge,
    Verb::Fetch,
    Verb::GetAcl,
    Verb::Idle,
    Verb::List,
    Verb::ListRights,
    Verb::Login,
    Verb::Logout,
    Verb::Move,
    Verb::MyRights,
    Verb::Namespace,
    Verb::Noop,
    Verb::Rename,
    Verb::Search,
    Verb::Select,
    Verb::SetAcl,
    Verb::StartTls,
    Verb::Status,
    Verb::Store,
    Verb::Subscribe,
    Verb::Uid,
    Verb::Unselect,
    Verb::Unsubscribe,
];

impl Keyword for Verb {
    ghost use Rattle.imap_commands.specs.Verb.{verb_name};
    ghost use Rattle.imap_commands.specs.declared.verb.TheConstants.{VERBS};

    type Class = AstringChar;

    ghost name_of = { verb_name };

    ghost table = { VERBS };

    fn name(self) -> &'static [u8] {
        match self {
            Verb::Append => b"APPEND",
            Verb::Authenticate => b"AUTHENTICATE",
            Verb::Capability => b"CAPABILITY",
            Verb::Close => b"CLOSE",
            Verb::Copy => b"COPY",
            Verb::Create => b"CREATE",
            Verb::Delete => b"DELETE",
            Verb::DeleteAcl => b"DELETEACL",
            Verb::Enable => b"ENABLE",
            Verb::Examine => b"EXAMINE",
            Verb::Expunge => b"EXPUNGE",
            Verb::Fetch => b"FETCH",
            Verb::GetAcl => b"GETACL",
            Verb::Idle => b"IDLE",
            Verb::List => b"LIST",
            Verb::ListRights => b"LISTRIGHTS",
            Verb::Login => b"LOGIN",
            Verb::Logout => b"LOGOUT",
            Verb::Move => b"MOVE",
            Verb::MyRights => b"MYRIGHTS",
            Verb::Namespace => b"NAMESPACE",
            Verb::Noop => b"NOOP",
            Verb::Rename => b"RENAME",
            Verb::Search => b"SEARCH",
            Verb::Select => b"SELECT",
            Verb::SetAcl => b"SETACL",
            Verb::StartTls => b"STARTTLS",
            Verb::Status => b"STATUS",
            Verb::Store => b"STORE",
            Verb::Subscribe => b"SUBSCRIBE",
            Verb::Uid => b"UID",
            Verb::Unselect => b"UNSELECT",
            Verb::Unsubscribe => b"UNSUBSCRIBE",
        }
    }

    fn all() -> &'static [Verb] {
        &VERBS
    }
}

/// The word after UID.
#[derive(Clone, Copy)]
pub(crate) enum UidVerb {
    Copy,
    Expunge,
    Fetch,
    Move,
    Search,
    Store,
}

pub(crate) const UID_VERBS: [UidVerb; 6] = [
    UidVerb::Copy,
    UidVerb::Expunge,
    UidVerb::Fetch,
    UidVerb::Move,
    UidVerb::Search,
    UidVerb::Store,
];

impl Keyword for UidVerb {
    ghost use Rattle.imap_commands.specs.Verb.{uid_verb_name};
    ghost use Rattle.imap_commands.specs.declared.verb.TheConstants.{UID_VERBS};

    type Class = AstringChar;

    ghost name_of = { uid_verb_name };

    ghost table = { UID_VERBS };

    fn name(self) -> &'static [u8] {
        match self {
            UidVerb::Copy => b"COPY",
            UidVerb::Expunge => b"EXPUNGE",
            UidVerb::Fetch => b"FETCH",
            UidVerb::Move => b"MOVE",
            UidVerb::Search => b"SEARCH",
            UidVerb::Store => b"STORE",
        }
    }

    fn all() -> &'static [UidVerb] {
        &UID_VERBS
    }
}

/// The first word of `command`. LOGIN stands for each of the commands with any arguments.
pub(crate) fn verb_of(command: &Command) -> Verb
    ensures { result ≡ verb_of command.now }
{
    match command {
        Command::Capability => Verb::Capability,
        Command::Authenticate => Verb::Login,
        Command::Select { .. } => Verb::Select,
        Command::Examine { .. } => Verb::Examine,
        Command::List { .. } => Verb::List,
        Command::Append { .. } => Verb::Append,
        Command::Fetch { numbering, .. } => by_numbering(*numbering, Verb::Fetch),
        Command::Search { numbering, .. } => by_numbering(*numbering, Verb::Search),
        Command::Noop => Verb::Noop,
        Command::Logout => Verb::Logout,
        Command::Namespace => Verb::Namespace,
        Command::Idle => Verb::Idle,
        Command::Close => Verb::Close,
        Command::Unselect => Verb::Unselect,
        Command::Enable { .. } => Verb::Enable,
        Command::Create { .. } => Verb::Create,
        Command::Delete { .. } => Verb::Delete,
        Command::Rename { .. } => Verb::Rename,
        Command::Subscribe { .. } => Verb::Subscribe,
        Command::Unsubscribe { .. } => Verb::Unsubscribe,
        Command::Status { .. } => Verb::Status,
        Command::SetAcl { .. } => Verb::SetAcl,
        Command::DeleteAcl { .. } => Verb::DeleteAcl,
        Command::GetAcl { .. } => Verb::GetAcl,
        Command::ListRights { .. } => Verb::ListRights,
        Command::MyRights { .. } => Verb::MyRights,
        Command::Expunge => Verb::Expunge,
        Command::UidExpunge { .. } => Verb::Uid,
        Command::Store { numbering, .. } => by_numbering(*numbering, Verb::Store),
        Command::Copy { numbering, .. } => by_numbering(*numbering, Verb::Copy),
        Command::Move { numbering, .. } => by_numbering(*numbering, Verb::Move),
    }
}

/// `verb`, or UID for a command by UIDs.
fn by_numbering(numbering: Numbering, verb: Verb) -> Verb
    ensures { result ≡ by_numbering numbering verb }
{
    match numbering {
        Numbering::Sequence => verb,
        Numbering::Uid => Verb::Uid,
    }
}

/// Appends a space and `verb` for a command by UIDs, else nothing.
pub(crate) fn push_uid_verb(
    out: &mut Vec<u8>,
    numbering: Numbering,
    verb: UidVerb,
) -> Result<(), AllocError>
    ensures { OnOk result (out.new.items ≡ out.old.items ++ uid_text numbering verb) }
{
    match numbering {
        Numbering::Sequence => Ok(()),
        Numbering::Uid => {
            out.push(b' ')?;
            out.extend_from_slice(verb.name())
        }
    }
}
