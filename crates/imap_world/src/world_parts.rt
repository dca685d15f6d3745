//! What a store keeps of a world.

ghost use Rattle.std.specs.Prelude.{◌≡◌};
ghost use Rattle.std.specs.String.{string_bytes};

use imap_batch::MailboxParts;
use imap_names::Name;
use imap_rights::Entry;
use std::marker::Model;

/// A mailbox, as a store keeps it.
#[derive(Drop)]
pub struct MailboxRow {
    pub name: Name,
    /// UIDVALIDITY (RFC 9051, section 2.3.1.1).
    pub validity: u32,
    /// The entries of its access control list, in any order.
    pub acl: Vec<Entry>,
    pub messages: MailboxParts,
}

/// A name that a user subscribed to.
#[derive(Drop)]
pub struct Subscription {
    pub(crate) user: String,
    pub(crate) name: Name,
}

impl Model for Subscription {
    ghost use Rattle.std.specs.String.{string_bytes};
    ghost use Rattle.imap_world.specs.Subscription as specs;

    ghost Value = { specs.Subscription };

    ghost coded = { specs.subscription_code };

    ghost view = { λ s. record { user = string_bytes s.user; name = s.name } };
}

impl Subscription {
    /// The user subscribed to the name.
    pub fn new(user: String, name: Name) -> Subscription
        ensures { result ≡ record { user = string_bytes user; name = name } }
    {
        Subscription { user, name }
    }
}

/// What a store keeps of a world. Each list may be in any order.
#[derive(Drop)]
pub struct WorldParts {
    pub mailboxes: Vec<MailboxRow>,
    /// The greatest UIDVALIDITY that was ever used under each name.
    pub epochs: Vec<(Name, u32)>,
    pub subscriptions: Vec<Subscription>,
}
