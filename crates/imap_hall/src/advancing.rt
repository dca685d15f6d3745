//! Steps, and their entries in the journal.

ghost use Rattle.std.specs.Prelude.{◌≡◌, ◌+◌, ◌<◌, ◌≤◌, ◌++◌, ◌∷◌, [], map, vec_len};
ghost use Rattle.std.specs.Prelude.{IfErr, IfOk, OnErr, OnOk};
ghost use Rattle.std.specs.Vec.{vec_capacity};
ghost use Rattle.imap_hall.specs.declared.error.HallError.TheVariants as error;
ghost use Rattle.imap_hall.specs.Counts.{AreSameCounts, HasSession, IsCounted, count_of};
ghost use Rattle.imap_hall.specs.Hall.{IsStepped, entry_of, journal_entry};
ghost use Rattle.imap_hall.specs.Journal.{max_entries, point};
ghost use Rattle.imap_hall.specs.Receipts.{IsSameReceipt};
ghost use Rattle.imap_hall.specs.Saving.{IsAlone, IsSaved};

use crate::counts::{count_of, raise_count, reserve_count};
use crate::error::HallError;
use crate::journal::{Entry, Receipt};
use crate::own_counts::OwnCounts;
use imap_keeper::Keeper;
use imap_saving::{Core, Replies, Step, make_ready, perform};
use imap_user_map::UserMap;
use std::alloc::{AllocError, Global};

/// Makes a step, saves its change, and appends its entry to the journal. `count` is how many entries were made
/// before. Returns the receipt of the entry, twice.
pub(crate) fn advance<K: Keeper>(
    core: &mut Core,
    counts: &mut UserMap<OwnCounts>,
    keeper: &mut K,
    journal: &mut Vec<Entry>,
    count: u64,
    alloc: Global,
    step: &Step,
) -> Result<(Receipt, Receipt), HallError>
    requires stored { K.content keeper.old core.old.state.world }
    requires bound { count_of counts.old.map step.now.who.user step.now.who.number ≤ count }
    requires room { count < max_entries }
    ensures entries { IfOk result (λ r. map journal_entry journal.new.items
        ≡ map journal_entry journal.old.items ++ entry_of step.now r.0 ∷ []) }
    ensures place { IfOk result (λ r. r.0.place ≡ count + 1) }
    ensures own { IfOk result (λ r.
        r.0.own ≡ count_of counts.old.map step.now.who.user step.now.who.number + 1) }
    ensures counts { OnOk result (IsCounted step.now.who counts.old.map counts.new.map) }
    ensures made { IfOk result (λ r. IsStepped (point core.old.state counts.old.map) (K.failed keeper.old)
        (entry_of step.now r.0) (point core.new.state counts.new.map) (K.failed keeper.new)) }
    ensures same { IfOk result (λ r. IsSameReceipt r.0 r.1) }
    ensures err { OnErr result ((core.new.state ≡ core.old.state)
        × AreSameCounts counts.old.map counts.new.map
        × (journal.new.items ≡ journal.old.items)
        × (K.failed keeper.new ≡ K.failed keeper.old)) }
    ensures memory { IfErr result (λ e. e ≡ error.Memory) }
    ensures saved { IsSaved K.content K.is_honest K.leaves K.stands
        core.old.state keeper.old step.now core.new.state keeper.new }
    ensures alone { IfOk result (λ r. IsAlone K.failed K.is_honest K.leaves K.stands
        core.old.state keeper.old step.now r.0.replies core.new.state keeper.new) }
{
    make_room(counts, journal, alloc, step)?;
    let own = count_of(counts, &step.who) + 1;
    let copy = step.try_copy(alloc)?;
    match make_ready(core, alloc, step) {
        Ok(ready) => match perform(core, keeper, alloc, step, ready) {
            Ok(replies) => {
                raise_count(counts, &step.who);
                Ok(append_entry(journal, copy, own, count + 1, replies))
            }
            Err(_) => {
                drop(copy);
                Err(HallError::Memory)
            }
        },
        Err(_) => {
            drop(copy);
            Err(HallError::Memory)
        }
    }
}

/// Makes room for an entry of the session.
fn make_room(
    counts: &mut UserMap<OwnCounts>,
    journal: &mut Vec<Entry>,
    alloc: Global,
    step: &Step,
) -> Result<(), AllocError>
    ensures same { AreSameCounts counts.old.map counts.new.map }
    ensures items { journal.new.items ≡ journal.old.items }
    ensures session { OnOk result (HasSession counts.new.map step.now.who) }
    ensures room { OnOk result (vec_len journal.new < vec_capacity journal.new) }
{
    journal.reserve(1)?;
    reserve_count(counts, alloc, &step.who)
}

/// Appends the entry of `step` to the journal. Returns its receipt, twice.
fn append_entry(
    journal: &mut Vec<Entry>,
    step: Step,
    own: u64,
    place: u64,
    replies: Replies,
) -> (Receipt, Receipt)
    requires { vec_len journal.old < vec_capacity journal.old }
    ensures items { map journal_entry journal.new.items
        ≡ map journal_entry journal.old.items
        ++ record { step = step; own = own; replies = replies.entry } ∷ [] }
    ensures first { (result.0.place ≡ place) × (result.0.own ≡ own)
        × (result.0.replies ≡ replies.receipt) }
    ensures second { (result.1.place ≡ place) × (result.1.own ≡ own)
        × (result.1.replies ≡ replies.second) }
{
    let Replies {
        entry,
        receipt,
        second,
    } = replies;
    journal.push_reserved(Entry {
        step,
        own,
        replies: entry,
    });
    let first = Receipt {
        place,
        own,
        replies: receipt,
    };
    let second = Receipt {
        place,
        own,
        replies: second,
    };
    (first, second)
}
