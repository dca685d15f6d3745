//! How many messages each user has seen.

ghost use Rattle.std.specs.Prelude.{◌≡◌, ℕ, List};
ghost use Rattle.imap_user_map.specs.Finite.{map_values};
ghost use Rattle.imap_mailbox.specs.Counted.{AreCounted, without_gone};
ghost use Rattle.imap_mailbox.specs.Held.{lists, own_room};
ghost use Rattle.imap_mailbox.specs.Summary.{AreRising, gone_uids, uids_in};

use crate::message::{GoneMessage, Message};
use crate::own::OwnSeen;
use imap_user_map::{Change, UserMap};
use std::marker::Model;

/// Messages that are expunged, and were there.
#[derive(Drop)]
struct Departed<'a> {
    gone: &'a [GoneMessage],
}

impl<'a> Change<OwnSeen> for Departed<'a> {
    ghost use Rattle.imap_mailbox.specs.Counted.{without_gone};
    ghost use Rattle.imap_mailbox.specs.Summary.{gone_uids};

    ghost changed = { λ d o. without_gone (gone_uids d.gone.now) o };

    fn make(&self, own: &mut OwnSeen) {
        own.forget(self.gone);
    }
}

/// Messages in the order of their UIDs.
#[derive(Drop)]
struct ByUid<'a> {
    messages: &'a [Message],
}

impl<'a> Model for ByUid<'a> {
    ghost use Rattle.std.specs.Prelude.{ℕ, List};
    ghost use Rattle.imap_mailbox.specs.Summary.{AreRising, uids_in};

    ghost Value = { List ℕ };

    ghost view = { λ m. uids_in m.messages.now };

    ghost invariant = { λ m. AreRising (uids_in m.messages.now) };
}

impl<'a> Change<OwnSeen> for ByUid<'a> {
    ghost use Rattle.imap_mailbox.specs.Counted.{with_count};

    ghost changed = { λ uids o. with_count uids o };

    fn make(&self, own: &mut OwnSeen) {
        own.count(self.messages);
    }
}

/// Takes messages that are expunged out of each user's number of seen ones. They were there.
pub(crate) fn forget_gone(own: &mut UserMap<OwnSeen>, gone: &[GoneMessage])
    ensures lists { lists own.new ≡ lists own.old }
    ensures room { (user : List ℕ) → own_room own.new user ≡ own_room own.old user }
    ensures counts { own.new.map ≡ map_values (without_gone (gone_uids gone.now)) own.old.map }
{
    own.change_all(&Departed { gone });
}

/// Counts anew for each user how many of the messages the user has seen.
pub(crate) fn count_all(own: &mut UserMap<OwnSeen>, messages: &[Message])
    requires { AreRising (uids_in messages.now) }
    ensures lists { lists own.new ≡ lists own.old }
    ensures counted { AreCounted messages.now own.new }
{
    own.change_all(&ByUid { messages });
}
