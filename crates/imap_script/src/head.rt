//! The head of a script: the users and their groups, the limits, and the mailboxes at the start.

use crate::error::ScriptError;
use crate::line::LineError;
use crate::mailboxes::Mailboxes;
use crate::members::Members;
use crate::owned::with_made;
use imap_hall::Hall;
use imap_keeper::Keeper;
use imap_limits::{DEFAULT_LIMITS, read_max_messages, read_max_octets};
use imap_names::{Name, UserName, read_full};
use imap_rights::{Groups, Identifier, read_rights};
use imap_values::beside;
use imap_world::{Limits, World};
use std::alloc::{AllocError, Global};
use std::collections::HashSet;

/// The first word of a head line.
#[derive(Clone, Copy, PartialEq, Eq)]
pub(crate) enum HeadWord {
    Admin,
    User,
    Member,
    Limit,
    Mailbox,
    Acl,
}

impl HeadWord {
    pub(crate) fn read(word: &str) -> Option<HeadWord> {
        match word {
            "admin" => Some(HeadWord::Admin),
            "user" => Some(HeadWord::User),
            "member" => Some(HeadWord::Member),
            "limit" => Some(HeadWord::Limit),
            "mailbox" => Some(HeadWord::Mailbox),
            "acl" => Some(HeadWord::Acl),
            _ => None,
        }
    }
}

/// The users, groups and limits with which a hall is opened.
#[derive(Drop)]
pub(crate) struct Start {
    administrator: UserName,
    /// The other users, each once.
    users: Vec<UserName>,
    members: Members,
    limits: Limits,
}

impl Start {
    pub(crate) fn max_octets(&self) -> u64 {
        self.limits.max_octets
    }

    /// Opens the hall over what the keeper keeps. A refusal returns the keeper.
    pub(crate) fn open<K: Keeper>(
        &self,
        alloc: Global,
        keeper: K,
    ) -> Result<Hall<K>, (ScriptError, K)> {
        let Ok((groups, administrator)) = self.owners(alloc) else {
            return Err((ScriptError::Memory, keeper));
        };
        match Hall::open(
            alloc,
            keeper,
            administrator,
            self.users.as_slice(),
            groups,
            self.limits,
        ) {
            Ok(hall) => Ok(hall),
            Err((error, keeper)) => Err((ScriptError::from(error), keeper)),
        }
    }

    /// The groups, and the administrator.
    fn owners(&self, alloc: Global) -> Result<(Groups, UserName), AllocError> {
        let administrator = self.administrator.try_copy()?;
        beside(self.members.groups(alloc), administrator)
    }
}

/// The head lines that have been read.
#[derive(Drop)]
pub(crate) struct Head {
    start: Start,
    mailboxes: Mailboxes,
    /// The names of all users, the administrator among them.
    known: HashSet<String>,
}

impl Head {
    /// The head whose first line names the administrator.
    pub(crate) fn begin(alloc: Global, administrator: &str) -> Result<Head, LineError> {
        let administrator = read_user(alloc, administrator)?;
        let (known, administrator) = beside(known(alloc, administrator.as_str()), administrator)?;
        let start = Start {
            administrator,
            users: Vec::new(alloc),
            members: Members::new(alloc),
            limits: DEFAULT_LIMITS,
        };
        Ok(Head {
            start,
            mailboxes: Mailboxes::new(alloc),
            known,
        })
    }

    /// Takes a further line: its first word, and the rest after one space. After an error the head is of no use.
    pub(crate) fn take_line(
        &mut self,
        alloc: Global,
        word: HeadWord,
        rest: &str,
    ) -> Result<(), LineError> {
        match word {
            HeadWord::Admin => Err(LineError::Bad),
            HeadWord::User => self.add_user(alloc, rest),
            HeadWord::Member => self.add_member(alloc, rest),
            HeadWord::Limit => self.set_limit(rest),
            HeadWord::Mailbox => self.choose_mailbox(alloc, rest),
            HeadWord::Acl => self.set_entry(alloc, rest),
        }
    }

    /// Returns what the lines say: the users, groups and limits, and the mailboxes at the start.
    pub(crate) fn finish(self, alloc: Global) -> Result<(Start, World), LineError> {
        let Head {
            start,
            mailboxes,
            known,
        } = self;
        drop(known);
        with_made(start, mailboxes.into_world(alloc))
    }

    fn add_user(&mut self, alloc: Global, name: &str) -> Result<(), LineError> {
        if self.known.insert(String::from_str(alloc, name)?)? {
            let user = read_user(alloc, name)?;
            self.start.users.push(user)?;
        }
        Ok(())
    }

    /// Puts a user who was named before into a group.
    fn add_member(&mut self, alloc: Global, text: &str) -> Result<(), LineError> {
        let (group, user) = text.split_once(' ').ok_or(LineError::Bad)?;
        if !self.known.contains(user) {
            return Err(LineError::Bad);
        }
        let group = read_user(alloc, group)?;
        let (group, user) = with_made(group, read_user(alloc, user))?;
        self.start.members.add(group, user)
    }

    fn set_limit(&mut self, text: &str) -> Result<(), LineError> {
        let (limit, number) = text.split_once(' ').ok_or(LineError::Bad)?;
        match limit {
            "max_messages" => {
                self.start.limits.max_messages = read_max_messages(number).ok_or(LineError::Bad)?;
            }
            "max_octets" => {
                self.start.limits.max_octets = read_max_octets(number).ok_or(LineError::Bad)?;
            }
            _ => return Err(LineError::Bad),
        }
        Ok(())
    }

    /// Chooses a mailbox. Makes it first if it isn't there.
    fn choose_mailbox(&mut self, alloc: Global, text: &str) -> Result<(), LineError> {
        let name = read_full(alloc, text.as_bytes())?;
        if !self.knows_owner_of(&name) {
            drop(name);
            return Err(LineError::Bad);
        }
        self.mailboxes
            .choose(alloc, &self.start.administrator, name)
    }

    /// Whether `name` lies in the tree of a known user or in the Shared tree.
    fn knows_owner_of(&self, name: &Name) -> bool {
        match name.owner() {
            Some(owner) => self.known.contains(owner.as_str()),
            None => true,
        }
    }

    /// Changes an entry of the chosen mailbox's access control list.
    fn set_entry(&mut self, alloc: Global, text: &str) -> Result<(), LineError> {
        let (identifier, rights) = text.rsplit_once(' ').ok_or(LineError::Bad)?;
        let change = read_rights(rights.as_bytes()).ok_or(LineError::Bad)?;
        let list = self.mailboxes.chosen_list()?;
        let identifier = Identifier::read(alloc, identifier.as_bytes())?;
        let rights = change.applied(list.rights_of(&identifier));
        list.set(identifier, rights)?;
        Ok(())
    }
}

fn read_user(alloc: Global, name: &str) -> Result<UserName, LineError> {
    UserName::read(alloc, name)?.ok_or(LineError::Bad)
}

/// The set of this name alone.
fn known(alloc: Global, name: &str) -> Result<HashSet<String>, AllocError> {
    let name = String::from_str(alloc, name)?;
    let mut known = HashSet::new(alloc);
    let inserted = known.insert(name);
    let (known, _) = with_made(known, inserted)?;
    Ok(known)
}
