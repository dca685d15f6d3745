//! What is asked of the messages of one mailbox.

ghost use Rattle.std.specs.Prelude.{◌≡◌, IfOk};
ghost use Rattle.imap_batch.specs.Batch.{adding, expunging, marking};

use imap_mailbox::{DateTime, Items, Octets, SharedFlags};
use imap_names::UserName;
use imap_values::{TryCopy, beside};
use std::alloc::{AllocError, Global};

/// A message that is added. It gets its UID when the batch is resolved.
#[derive(Drop)]
pub struct NewMessage {
    pub date: DateTime,
    pub octets: Octets,
    pub flags: SharedFlags,
    /// Whether the user has seen it.
    pub seen: bool,
}

impl TryCopy for NewMessage {
    fn try_copy(&self, alloc: Global) -> Result<NewMessage, AllocError> {
        let octets = self.octets.try_copy()?;
        let flags = self.flags.try_copy(alloc)?;
        Ok(NewMessage {
            date: self.date,
            octets,
            flags,
            seen: self.seen,
        })
    }
}

/// The flags of a message that change. The shared ones change first, and then the user's own `\Seen`.
#[derive(Drop)]
pub struct FlagUpdate {
    pub uid: u32,
    /// All shared flags that the message has then, or `None` if they stay.
    pub flags: Option<SharedFlags>,
    /// Whether the user has seen it then, or `None` if that stays.
    pub seen: Option<bool>,
}

impl TryCopy for FlagUpdate {
    fn try_copy(&self, alloc: Global) -> Result<FlagUpdate, AllocError> {
        let flags = self.flags.try_copy(alloc)?;
        Ok(FlagUpdate {
            uid: self.uid,
            flags,
            seen: self.seen,
        })
    }
}

/// What is asked of the messages of one mailbox: first messages are added, then flags change, then messages
/// are expunged.
#[derive(Drop)]
pub struct Batch {
    /// The user whose own `\Seen` changes.
    pub user: UserName,
    pub added: Items<NewMessage>,
    /// The flag updates, in the order of UIDs.
    pub marks: Items<FlagUpdate>,
    /// UIDs, in their order.
    pub expunged: Items<u32>,
}

impl Batch {
    /// Returns a batch that adds messages alone.
    pub fn adding(
        alloc: Global,
        user: &UserName,
        added: Vec<NewMessage>,
    ) -> Result<Batch, AllocError>
        ensures { let batch = adding user.now added.items in IfOk result (λ made. made ≡ batch) }
    {
        let (user, added) = beside(user.try_copy(), added)?;
        Ok(Batch {
            user,
            added: Items::from_vec(added),
            marks: Items::from_vec(Vec::new(alloc)),
            expunged: Items::from_vec(Vec::new(alloc)),
        })
    }

    /// Returns a batch that changes flags alone. The changes are in the order of UIDs.
    pub fn marking(
        alloc: Global,
        user: &UserName,
        marks: Vec<FlagUpdate>,
    ) -> Result<Batch, AllocError>
        ensures { let batch = marking user.now marks.items in IfOk result (λ made. made ≡ batch) }
    {
        let (user, marks) = beside(user.try_copy(), marks)?;
        Ok(Batch {
            user,
            added: Items::from_vec(Vec::new(alloc)),
            marks: Items::from_vec(marks),
            expunged: Items::from_vec(Vec::new(alloc)),
        })
    }

    /// Returns a batch that expunges messages alone. The UIDs are in their order.
    pub fn expunging(alloc: Global, user: &UserName, uids: Vec<u32>) -> Result<Batch, AllocError>
        ensures { let batch = expunging user.now uids.items in IfOk result (λ made. made ≡ batch) }
    {
        let user = user.try_copy()?;
        Ok(Batch {
            user,
            added: Items::from_vec(Vec::new(alloc)),
            marks: Items::from_vec(Vec::new(alloc)),
            expunged: Items::from_vec(uids),
        })
    }

    /// Returns an equal copy, which shares octets and keywords.
    pub fn try_copy(&self, alloc: Global) -> Result<Batch, AllocError>
        ensures { IfOk result (λ copy. copy ≡ self.now) }
    {
        let user = self.user.try_copy()?;
        let added = self.added.try_copy(alloc)?;
        let marks = self.marks.try_copy(alloc)?;
        let expunged = self.expunged.try_copy(alloc)?;
        Ok(Batch {
            user,
            added,
            marks,
            expunged,
        })
    }
}
