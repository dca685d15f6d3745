//! What holds of the journals of halls.

ghost use Rattle.imap_world.specs.Kept.{AreKept};
ghost use Rattle.imap_hall.specs.Journal.{IsRun};
ghost use Rattle.imap_hall.specs.Laws.{JournalsAreIsolated};

use crate::hall::Hall;
use imap_keeper::Keeper;
use imap_saving::laws::{isolation_of_replies, messages_are_kept};

/// To each user, two journals in which the store refused nothing tell the same, if they begin alike and have
/// one trace for that user: they are runs of the machine, of which isolation speaks.
pub fn journals_are_isolated()
    ensures { JournalsAreIsolated }
{
    isolation_of_replies();
}

/// The entries of a hall are a run from its base, in which the messages of each mailbox are as its type
/// keeps them. So [`journals_are_isolated`] speaks of the journals of any two halls.
pub fn journal_is_kept<K: Keeper>(hall: &Hall<K>)
    ensures run { IsRun hall.now.base hall.now.entries hall.now.now }
    ensures messages { AreKept hall.now.base.state.world.mailboxes }
{
    let _ = hall.count();
    messages_are_kept(hall.base());
}
