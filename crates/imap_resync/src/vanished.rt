//! VANISHED (EARLIER): the messages that went (RFC 7162, sections 3.2.6 and 3.2.10).

ghost use Rattle.std.specs.Prelude.{◌≡◌, ◌≤◌, ℕ, true, drop, filter, length, IsPermutation, Some, IfOk};
ghost use Rattle.std.specs.List.{AllByRecursion};
ghost use Rattle.std.specs.List.Sorted.{IsNonDecreasing};
ghost use Rattle.imap_mailbox.specs.Lent.{gone_after_number};
ghost use Rattle.imap_mailbox.specs.Order.{AreGoneInOrder, uids_gone};
ghost use Rattle.imap_print.specs.Lines.{IsPrintable};
ghost use Rattle.imap_print.specs.Sets.{rise_above};
ghost use Rattle.imap_resync.specs.UidSet.{includes};
ghost use Rattle.imap_resync.specs.Vanished as specs;
ghost use Rattle.imap_view.specs.Seen.{shown};

use crate::uid_set::{UidSet, includes};
use imap_answer::CommandContext;
use imap_mailbox::GoneUids;
use imap_names::Name;
use imap_print::{NumberSet, Response};
use imap_values::pushed;
use imap_view::Seen;
use std::alloc::{AllocError, Global};

/// Returns the line VANISHED (EARLIER) of the mailbox `name`, or no line if there is nothing in it: the UIDs of the
/// messages that went with a mod-sequence greater than `since`, as far as they are in `uids`. `None` stands for all
/// UIDs.
pub fn vanished_lines(
    context: &CommandContext<'_>,
    name: &Name,
    since: u64,
    uids: &Option<UidSet<'_>>,
) -> Result<Vec<Response>, AllocError>
    ensures lines { let vanished = specs.vanished_in context.now.view name.now since uids.now in
        IfOk result (λ lines. lines.items ≡ specs.earlier_line vanished) }
    ensures printable { IfOk result (λ lines. AllByRecursion IsPrintable lines.items) }
{
    match context.view().seen(&name.as_ref()) {
        Some(seen) => lines_of_seen(context.alloc(), &seen, since, uids),
        None => Ok(Vec::new(context.alloc())),
    }
}

/// Returns the line of a mailbox that is seen, or no line.
pub(crate) fn lines_of_seen(
    alloc: Global,
    seen: &Seen<'_>,
    since: u64,
    uids: &Option<UidSet<'_>>,
) -> Result<Vec<Response>, AllocError>
    ensures lines { let vanished = specs.vanished_seen since uids.now (Some (shown seen.now)) in
        IfOk result (λ lines. lines.items ≡ specs.earlier_line vanished) }
    ensures printable { IfOk result (λ lines. AllByRecursion IsPrintable lines.items) }
{
    match seen.gone() {
        Some(gone) => lines_of_gone(alloc, &gone, since, uids),
        None => Ok(Vec::new(alloc)),
    }
}

/// Returns the line of the messages that are gone, or no line.
fn lines_of_gone(
    alloc: Global,
    gone: &GoneUids<'_>,
    since: u64,
    uids: &Option<UidSet<'_>>,
) -> Result<Vec<Response>, AllocError>
    ensures lines { IfOk result (λ lines. (next highest : ℕ) → AreGoneInOrder next highest gone.now
        → lines.items ≡ specs.earlier_line (specs.vanished next since uids.now gone.now)) }
    ensures printable { IfOk result (λ lines. AllByRecursion IsPrintable lines.items) }
{
    let vanished = gone_uids(alloc, gone, since, uids)?;
    earlier_lines(alloc, vanished)
}

/// Returns the line of these UIDs, or no line if there are none.
fn earlier_lines(alloc: Global, uids: Vec<u32>) -> Result<Vec<Response>, AllocError>
    ensures lines { IfOk result (λ lines. rise_above 0 uids.items ≡ true
        → lines.items ≡ specs.earlier_line uids.items) }
    ensures printable { IfOk result (λ lines. AllByRecursion IsPrintable lines.items) }
{
    match NumberSet::from_rising(uids) {
        Some(uids) => pushed(
            Vec::new(alloc),
            Response::Vanished {
                earlier: true,
                uids,
            },
        ),
        None => Ok(Vec::new(alloc)),
    }
}

/// Returns the UIDs of the set that are gone with a mod-sequence greater than `since`, in their order. Looks for the
/// first of these by halving.
fn gone_uids(
    alloc: Global,
    gone: &GoneUids<'_>,
    since: u64,
    uids: &Option<UidSet<'_>>,
) -> Result<Vec<u32>, AllocError>
    ensures same { let late = uids_gone (gone_after_number since gone.now) in
        IfOk result (λ found. IsPermutation (filter (includes uids.now) late) found.items) }
    ensures sorted { IfOk result (λ found. IsNonDecreasing found.items) }
{
    let mut found = Vec::new(alloc);
    for place in count_until(gone, since)..gone.len() {
        let uid = gone.get(place).uid;
        if includes(uids, uid) {
            found.push(uid)?;
        }
    }
    found.sort_unstable();
    Ok(found)
}

/// Returns how many went with a mod-sequence of at most `number`. They stand before the others.
fn count_until(gone: &GoneUids<'_>, number: u64) -> usize
    ensures within { result ≤ length gone.now }
    ensures others { drop result gone.now ≡ gone_after_number number gone.now }
{
    let mut low = 0;
    let mut high = gone.len();
    while low < high {
        let middle = low + (high - low) / 2;
        if gone.get(middle).number <= number {
            low = middle + 1;
        } else {
            high = middle;
        }
    }
    low
}
