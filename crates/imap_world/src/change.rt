//! What a change writes.

ghost use Rattle.std.specs.Prelude.{◌≡◌, ◌↔◌, ◌++◌, ◌∷◌, [], length, IfOk, IsTrue, OnOk};
ghost use Rattle.imap_world.specs.Ready.{count_of, counts_of};

use crate::arrivals::Arrivals;
use crate::named_batch::NamedWrite;
use crate::new_mailbox::NewMailbox;
use crate::owned::{append, both, push};
use imap_names::{Name, UserName};
use imap_rights::Acl;
use imap_values::{TryCopy, beside, pushed};
use std::alloc::{AllocError, Global};
use std::marker::Model;

/// One value that is written.
#[derive(Drop)]
pub enum Write {
    /// A mailbox is made, without messages. Its UIDVALIDITY is the greatest that was used under its name.
    Put(NewMailbox),
    /// The mailbox has this access control list.
    SetAcl(Name, Acl),
    /// The mailbox goes, with its messages. Its UIDVALIDITY stays counted as used.
    Remove(Name),
    /// The mailbox of the first name and all below it are called by the second name. These are the names
    /// that they get. They keep their lists and their messages.
    Move(Name, Name, Arrivals),
    /// The messages of a mailbox change, and those of another one.
    Messages(NamedWrite, Option<NamedWrite>),
    Subscribe(UserName, Name),
    Unsubscribe(UserName, Name),
}

impl Write {
    /// How many UIDVALIDITYs it counts as used.
    fn count(&self) -> usize
        ensures { result ≡ count_of self.now }
    {
        match self {
            Write::Put(_) => 1,
            Write::Move(_, _, arrivals) => arrivals.entries().len(),
            Write::SetAcl(_, _)
            | Write::Remove(_)
            | Write::Messages(_, _)
            | Write::Subscribe(_, _)
            | Write::Unsubscribe(_, _) => 0,
        }
    }

    /// Returns an equal copy.
    pub fn try_copy(&self, alloc: Global) -> Result<Write, AllocError>
        ensures { IfOk result (λ copy. copy ≡ self.now) }
    {
        match self {
            Write::Put(row) => Ok(Write::Put(row.try_copy(alloc)?)),
            Write::SetAcl(name, acl) => {
                let (name, acl) = both(name.try_copy(), acl.try_copy(alloc))?;
                Ok(Write::SetAcl(name, acl))
            }
            Write::Remove(name) => Ok(Write::Remove(name.try_copy()?)),
            Write::Move(old, new, arrivals) => {
                let names = both(old.try_copy(), new.try_copy());
                let ((old, new), arrivals) = both(names, arrivals.try_copy(alloc))?;
                Ok(Write::Move(old, new, arrivals))
            }
            Write::Messages(part, other) => {
                let (part, other) = both(part.try_copy(alloc), other.try_copy(alloc))?;
                Ok(Write::Messages(part, other))
            }
            Write::Subscribe(user, name) => {
                let (user, name) = both(user.try_copy(), name.try_copy())?;
                Ok(Write::Subscribe(user, name))
            }
            Write::Unsubscribe(user, name) => {
                let (user, name) = both(user.try_copy(), name.try_copy())?;
                Ok(Write::Unsubscribe(user, name))
            }
        }
    }
}

/// The writes of a change, in order. Contracts see the list.
pub struct Change {
    pub(crate) writes: Vec<Write>,
}

// Not derived: a derived one is proved anew in each crate that lets go of one.
impl Drop for Change {
    fn drop(self) {
        let Change { writes: _ } = self;
    }
}

impl Model for Change {
    ghost use Rattle.std.specs.Prelude.{List};
    ghost use Rattle.std.specs.Coded.{codes};
    ghost use Rattle.imap_world.specs.contracts.change.Write as write;
    ghost use Rattle.imap_world.specs.declared.change.Write.{Write};

    ghost Value = { List Write };

    ghost coded = { Prim.hlevel (codes, write.the_row.coded) };

    ghost view = { λ change. change.writes.items };
}

impl Change {
    /// Writes nothing.
    pub fn none(alloc: Global) -> Change
        ensures { result ≡ [] }
    {
        Change {
            writes: Vec::new(alloc),
        }
    }

    /// Writes one value.
    pub(crate) fn of(alloc: Global, write: Write) -> Result<Change, AllocError>
        ensures { IfOk result (λ change. change ≡ write ∷ []) }
    {
        let writes = pushed(Vec::new(alloc), write)?;
        Ok(Change { writes })
    }

    /// Writes one value more.
    pub(crate) fn push(&mut self, write: Write) -> Result<(), AllocError>
        ensures { OnOk result (self.new ≡ self.old ++ write ∷ []) }
    {
        push(&mut self.writes, write)
    }

    /// Writes what the other change writes, too.
    pub(crate) fn append(&mut self, other: Change) -> Result<(), AllocError>
        ensures { OnOk result (self.new ≡ self.old ++ other) }
    {
        let Change { writes } = other;
        append(&mut self.writes, writes)
    }

    /// Returns the values that are written.
    pub(crate) fn into_writes(self) -> Vec<Write>
        ensures { result.items ≡ self }
    {
        let Change { writes } = self;
        writes
    }

    /// The values that are written.
    pub fn writes(&self) -> &[Write]
        ensures { result.now ≡ self.now }
    {
        self.writes.as_slice()
    }

    /// Returns an equal copy.
    pub fn try_copy(&self, alloc: Global) -> Result<Change, AllocError>
        ensures { IfOk result (λ copy. copy ≡ self.now) }
    {
        let mut writes = Vec::with_capacity(alloc, self.writes.len())?;
        let copied = push_copies(&mut writes, alloc, self.writes.as_slice());
        let ((), writes) = beside(copied, writes)?;
        Ok(Change { writes })
    }

    /// How many UIDVALIDITYs are counted as used. Fails if no memory could hold them.
    pub(crate) fn count(&self) -> Result<usize, AllocError>
        ensures { IfOk result (λ count. count ≡ counts_of self.now) }
    {
        count_all(self.writes.as_slice())
    }

    /// How many values are written.
    pub fn len(&self) -> usize
        ensures { result ≡ length self.now }
    {
        self.writes.len()
    }

    /// Whether nothing is written.
    pub fn is_empty(&self) -> bool
        ensures { IsTrue result ↔ (self.now ≡ []) }
    {
        self.writes.is_empty()
    }
}

fn count_all(writes: &[Write]) -> Result<usize, AllocError>
    ensures { IfOk result (λ count. count ≡ counts_of writes.now) }
{
    let mut count: usize = 0;
    for write in writes {
        match count.checked_add(write.count()) {
            Some(more) => count = more,
            None => return Err(AllocError),
        }
    }
    Ok(count)
}

/// Appends copies of the writes.
fn push_copies(copies: &mut Vec<Write>, alloc: Global, writes: &[Write]) -> Result<(), AllocError>
    ensures { OnOk result (copies.new.items ≡ copies.old.items ++ writes.now) }
{
    for write in writes {
        push(copies, write.try_copy(alloc)?)?;
    }
    Ok(())
}
