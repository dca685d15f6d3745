//! The flags that all users share.

ghost use Rattle.std.specs.Prelude.{◌≡◌, OnOk, OnErr};
ghost use Rattle.imap_mailbox.specs.Flags.{no_flags, with_flag, without_flag, with_flags_of};
ghost use Rattle.imap_mailbox.specs.Calls.{same_flags};

use imap_syntax::{Flag, Keywords};
use imap_values::{Same, TryCopy, same_five};
use std::alloc::{AllocError, Global};

/// The flags of a message that all users share: all but `\Seen` (RFC 9051, section 2.3.2).
pub struct SharedFlags {
    pub answered: bool,
    pub deleted: bool,
    pub draft: bool,
    pub flagged: bool,
    pub keywords: Keywords,
}

// Not derived: a derived one is proved anew in each crate that lets go of one.
impl Drop for SharedFlags {
    fn drop(self) {
        let SharedFlags {
            answered: _,
            deleted: _,
            draft: _,
            flagged: _,
            keywords: _,
        } = self;
    }
}

impl SharedFlags {
    /// No flags.
    pub fn new(alloc: Global) -> SharedFlags
        ensures { result ≡ no_flags }
    {
        SharedFlags {
            answered: false,
            deleted: false,
            draft: false,
            flagged: false,
            keywords: Keywords::new(alloc),
        }
    }

    /// Sets a flag. `\Seen` is each user's own, and other flags with a backslash are not kept: both change
    /// nothing.
    pub fn insert(&mut self, alloc: Global, flag: &Flag) -> Result<(), AllocError>
        ensures ok { OnOk result (self.new ≡ with_flag flag.now self.old) }
        ensures err { OnErr result (self.new ≡ self.old) }
    {
        match flag {
            Flag::Answered => self.answered = true,
            Flag::Deleted => self.deleted = true,
            Flag::Draft => self.draft = true,
            Flag::Flagged => self.flagged = true,
            Flag::Seen => {}
            Flag::Other(_) => {}
            Flag::Keyword(word) => return self.keywords.insert(alloc, word),
        }
        Ok(())
    }

    /// Sets all flags of another set, in one pass over the keywords of both.
    pub fn insert_all(&mut self, alloc: Global, others: &SharedFlags) -> Result<(), AllocError>
        ensures ok { OnOk result (self.new ≡ with_flags_of others.now self.old) }
        ensures err { OnErr result (self.new ≡ self.old) }
    {
        self.keywords.insert_all(alloc, &others.keywords)?;
        self.answered = self.answered || others.answered;
        self.deleted = self.deleted || others.deleted;
        self.draft = self.draft || others.draft;
        self.flagged = self.flagged || others.flagged;
        Ok(())
    }

    /// Takes a flag away. `\Seen` and other flags with a backslash change nothing.
    pub fn remove(&mut self, alloc: Global, flag: &Flag) -> Result<(), AllocError>
        ensures ok { OnOk result (self.new ≡ without_flag flag.now self.old) }
        ensures err { OnErr result (self.new ≡ self.old) }
    {
        match flag {
            Flag::Answered => self.answered = false,
            Flag::Deleted => self.deleted = false,
            Flag::Draft => self.draft = false,
            Flag::Flagged => self.flagged = false,
            Flag::Seen => {}
            Flag::Other(_) => {}
            Flag::Keyword(word) => return self.keywords.remove(alloc, word),
        }
        Ok(())
    }
}

impl SharedFlags {
    /// Whether both are the same flags.
    pub fn is_equal(&self, other: &SharedFlags) -> bool
        ensures { result ≡ same_flags self.now other.now }
    {
        self.is_same(other)
    }
}

impl TryCopy for SharedFlags {
    fn try_copy(&self, alloc: Global) -> Result<SharedFlags, AllocError> {
        let keywords = self.keywords.try_copy(alloc)?;
        Ok(SharedFlags {
            answered: self.answered,
            deleted: self.deleted,
            draft: self.draft,
            flagged: self.flagged,
            keywords,
        })
    }
}

impl Same for SharedFlags {
    fn is_same(&self, other: &SharedFlags) -> bool {
        same_five(
            &self.answered,
            &other.answered,
            &self.deleted,
            &other.deleted,
            &self.draft,
            &other.draft,
            &self.flagged,
            &other.flagged,
            &self.keywords,
            &other.keywords,
        )
    }
}
