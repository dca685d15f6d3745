//! What a step asks of the mailboxes.

use crate::named_batch::NamedBatch;
use imap_names::{Name, UserName};
use imap_rights::{Identifier, RightsChange};

/// One change that is asked for. What the user may not know of it is left to
/// [`World::prepare`](crate::World::prepare).
pub enum Effect {
    /// The INBOX of a user is made, with all rights for the user alone.
    CreateInbox(UserName),
    /// A mailbox is made under the name, whose tree has this owner, and so are its superiors that aren't
    /// there (RFC 9051, section 6.3.4). Each gets the list of the nearest superior that is there; below a
    /// root that gives the owner all rights.
    Create(UserName, Name),
    /// The mailbox goes (RFC 9051, section 6.3.5).
    Delete(Name),
    /// The mailbox of the first name and all below it are called by the second (RFC 9051, section 6.3.6).
    /// Superiors of that which aren't there are made, as by `Create` in a tree of this owner. Each mailbox
    /// gets a new UIDVALIDITY.
    Rename(UserName, Name, Name),
    /// The rights of one identifier on the mailbox change (RFC 4314, section 3.1). To replace them by none
    /// is to remove its entry (RFC 4314, section 3.2).
    SetRights(Name, Identifier, RightsChange),
    /// The messages of a mailbox change, and those of another one. Both are one change.
    Messages(NamedBatch, Option<NamedBatch>),
    /// A name becomes one of those that the user subscribed to (RFC 9051, section 6.3.7).
    Subscribe(UserName, Name),
    /// It is no longer one of them (RFC 9051, section 6.3.8).
    Unsubscribe(UserName, Name),
}

// Not derived: a derived one is proved anew in each crate that lets go of one.
impl Drop for Effect {
    fn drop(self) {
        match self {
            Effect::CreateInbox(value) => drop(value),
            Effect::Create(first, second) => drop((first, second)),
            Effect::Delete(value) => drop(value),
            Effect::Rename(first, second, third) => drop((first, second, third)),
            Effect::SetRights(first, second, _) => drop((first, second)),
            Effect::Messages(first, second) => drop((first, second)),
            Effect::Subscribe(first, second) => drop((first, second)),
            Effect::Unsubscribe(first, second) => drop((first, second)),
        }
    }
}
