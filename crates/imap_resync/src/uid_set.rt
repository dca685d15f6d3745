//! Sets of UIDs in commands.

ghost use Rattle.std.specs.Prelude.{◌≡◌};
ghost use Rattle.imap_resync.specs.UidSet as specs;
ghost use Rattle.imap_targets.specs.MessageNumbers as targets;

use imap_syntax::{SeqRange, SeqSet};
use imap_targets::in_set;
use std::marker::Model;

/// A set of UIDs, as it stands in a command.
#[derive(Drop)]
pub struct UidSet<'a> {
    /// What `*` stands for.
    pub last: u32,
    pub ranges: &'a [SeqRange],
}

impl<'a> Model for UidSet<'a> {
    ghost use Rattle.imap_resync.specs.UidSet as specs;

    ghost Value = { specs.UidSet };

    ghost coded = { specs.set_code };

    ghost view = { λ set. record { last = set.last; ranges = set.ranges.now } };
}

impl UidSet<'_> {
    fn has(&self, uid: u32) -> bool
        ensures { result ≡ targets.in_set self.now.last self.now.ranges uid }
    {
        in_set(self.last, self.ranges, uid)
    }
}

/// Whether the UID is one of the set. Without a set each is.
pub(crate) fn includes(uids: &Option<UidSet<'_>>, uid: u32) -> bool
    ensures { result ≡ specs.includes uids.now uid }
{
    match uids {
        Some(set) => set.has(uid),
        None => true,
    }
}

/// The UIDs that the client knows, if it names them.
pub(crate) fn known_set(known: &Option<SeqSet>) -> Option<UidSet<'_>>
    ensures { result ≡ specs.known_set known.now }
{
    match known {
        Some(known) => Some(UidSet {
            last: 0,
            ranges: known.as_slice(),
        }),
        None => None,
    }
}
