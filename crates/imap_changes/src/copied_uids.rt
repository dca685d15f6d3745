//! The UIDs that COPY and MOVE tell.

ghost use Rattle.std.specs.Prelude.{◌≡◌, ◌+◌, ◌<◌, ◌^◌, ℕ, false, length, IfOk};
ghost use Rattle.std.specs.List.{range_with_len};
ghost use Rattle.imap_changes.specs.CopiedUids as specs;
ghost use Rattle.imap_changes.specs.Finding.{both_sets, with_target};
ghost use Rattle.imap_changes.specs.Transfer.{lacks_room};
ghost use Rattle.imap_mailbox.specs.Order.{AreRowsInOrder};
ghost use Rattle.imap_mailbox.specs.Rows.{first_uid};
ghost use Rattle.imap_mailbox.specs.Summary.{Rises};
ghost use Rattle.imap_print.specs.Sets.{set_of};
ghost use Rattle.imap_view.specs.Seen.{shown};

use imap_print::{CopiedUids, NumberSet};
use imap_view::{Readable, Seen};
use std::alloc::{AllocError, Global};

/// The UIDs of the messages and of their copies (RFC 9051, section 7.1, of COPYUID), which only one who may read
/// the target is told.
pub(crate) fn copied_uids(
    alloc: Global,
    target: &Seen<'_>,
    uids: &[u32],
) -> Result<Option<CopiedUids>, AllocError>
    requires rise { (high : ℕ) × Rises first_uid high uids.now }
    requires room { lacks_room (shown target.now) (length uids.now) ≡ false }
    ensures { let copied = specs.copied_uids (shown target.now) uids.now in
        IfOk result (λ given. given ≡ copied) }
{
    match target.readable() {
        Some(mailbox) => uids_if_any(alloc, &mailbox, uids),
        None => Ok(None),
    }
}

fn uids_if_any(
    alloc: Global,
    target: &Readable<'_>,
    uids: &[u32],
) -> Result<Option<CopiedUids>, AllocError>
    requires rise { (high : ℕ) × Rises first_uid high uids.now }
    requires order { AreRowsInOrder target.now.next_uid target.now.highest target.now.rows }
    requires fit { target.now.next_uid + length uids.now < 2 ^ 32 }
    ensures { let copied = specs.uids_from target.now.validity target.now.next_uid uids.now in
        IfOk result (λ given. given ≡ copied) }
{
    let copies = numbers_from(alloc, target.next_uid, uids.len())?;
    let source = Vec::from_slice(alloc, uids)?;
    Ok(both_sets(target.validity, source, copies))
}

/// Returns no sets if there are no UIDs.
fn both_sets(validity: u32, source: Vec<u32>, target: Vec<u32>) -> Option<CopiedUids>
    ensures { result ≡ both_sets validity source.items target.items }
{
    match NumberSet::from_rising(source) {
        Some(source) => with_source(validity, source, target),
        None => None,
    }
}

fn with_source(validity: u32, source: NumberSet, target: Vec<u32>) -> Option<CopiedUids>
    ensures { result ≡ with_target validity source (set_of target.items) }
{
    match NumberSet::from_rising(target) {
        Some(target) => Some(CopiedUids {
            validity,
            source,
            target,
        }),
        None => None,
    }
}

/// Returns `count` numbers from `first` on.
fn numbers_from(alloc: Global, first: u32, count: usize) -> Result<Vec<u32>, AllocError>
    requires { first + count < 2 ^ 32 }
    ensures { IfOk result (λ numbers. numbers.items ≡ range_with_len first count) }
{
    let mut numbers = Vec::with_capacity(alloc, count)?;
    for index in 0..count {
        numbers.push(first + index as u32)?;
    }
    Ok(numbers)
}
