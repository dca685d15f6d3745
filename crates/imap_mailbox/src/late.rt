//! The UIDs of a user's latest own changes.

ghost use Rattle.std.specs.Prelude.{◌≡◌, ℕ, ◌<◌, ◌≤◌, true, length, IfSome};
ghost use Rattle.imap_mailbox.specs.Late.{AreEarly, may_have};
ghost use Rattle.imap_mailbox.specs.Rows.{is_among};
ghost use Rattle.imap_mailbox.specs.Summary.{latest, latest_number};

use crate::own::OwnSeen;

/// The greatest number of changes that are looked at.
const MAX_LOOKS: usize = 8;

/// UIDs among which all are whose last own change is above a mod-sequence: those from `low` up to `high`, or all.
#[derive(Clone, Copy, Drop)]
pub(crate) struct LateUids {
    all: bool,
    low: u32,
    high: u32,
}

impl LateUids {
    /// Whether the UID is one of them.
    pub(crate) fn may_have(&self, uid: u32) -> bool
        ensures { result ≡ may_have self.now uid }
    {
        self.all || (self.low <= uid && uid <= self.high)
    }
}

/// The place of the first change above `number`, before which none is. `None` if many are above it.
fn first_late(own: &OwnSeen, number: u64) -> Option<u64>
    ensures { IfSome result (λ first. (first ≤ length own.now.own.befores)
        × AreEarly number first own.now.own.befores) }
{
    let mut first = own.len();
    for _look in 0..MAX_LOOKS {
        if first == 0 || own.number_of(first - 1) <= number {
            return Some(first);
        }
        first -= 1;
    }
    None
}

/// The UIDs of the last changes, among which are all whose last own change is above `number`. `None` if these are many,
/// or some were forgotten.
pub(crate) fn last_changes(own: &OwnSeen, number: u64) -> Option<&[u32]>
    ensures { IfSome result (λ uids. (uid : ℕ) → number < latest_number (latest uid own.now.own)
        → is_among uid uids.now ≡ true) }
{
    let first = first_late(own, number)?;
    own.since(first)
}

/// Returns UIDs among which are all whose last own change is above `number`. If few changes are above it, these are
/// the UIDs from the least to the greatest of them, else all: no clause says so, since it changes only the time.
pub(crate) fn late_uids(own: &OwnSeen, number: u64) -> LateUids
    ensures { (uid : ℕ) → number < latest_number (latest uid own.now.own) → may_have result uid ≡ true }
{
    match last_changes(own, number) {
        Some(uids) => between(uids),
        None => LateUids {
            all: true,
            low: 0,
            high: 0,
        },
    }
}

/// Those from the least to the greatest of the UIDs.
fn between(uids: &[u32]) -> LateUids
    ensures { (uid : ℕ) → is_among uid uids.now ≡ true → may_have result uid ≡ true }
{
    let mut late = LateUids {
        all: false,
        low: u32::MAX,
        high: 0,
    };
    for uid in uids {
        late = with_uid(late, *uid);
    }
    late
}

/// The UIDs, with one more and those between.
fn with_uid(late: LateUids, uid: u32) -> LateUids
    ensures more { (n : ℕ) → may_have late n ≡ true → may_have result n ≡ true }
    ensures uid { may_have result uid ≡ true }
{
    LateUids {
        all: late.all,
        low: late.low.min(uid),
        high: late.high.max(uid),
    }
}
