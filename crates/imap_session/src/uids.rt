//! UIDs that rise.

ghost use Rattle.std.specs.Prelude.{◌≡◌, ◌≤◌, length, nat_lt, IfOk};
ghost use Rattle.std.specs.List.{prefix_len};
ghost use Rattle.imap_mailbox.specs.Lent.{place_in, row_uids};
ghost use Rattle.imap_mailbox.specs.Rows.{is_among};
ghost use Rattle.imap_session.specs.Held.{UidsRise};

use imap_mailbox::Rows;
use std::alloc::{AllocError, Global};
use std::marker::Model;

/// UIDs, each greater than the one before.
#[derive(Drop)]
pub(crate) struct RisingUids<'a> {
    pub(crate) uids: &'a [u32],
}

impl<'a> Model for RisingUids<'a> {
    ghost use Rattle.std.specs.Prelude.{ℕ, List};
    ghost use Rattle.std.specs.Coded.{coded_ℕ, coded_list};
    ghost use Rattle.imap_mailbox.specs.Summary.{AreRising};

    ghost Value = { List ℕ };

    ghost coded = { coded_list coded_ℕ };

    ghost view = { λ r. r.uids.now };

    ghost invariant = { λ r. AreRising r.uids.now };
}

impl<'a> RisingUids<'a> {
    /// Whether the UID is one of them, by a search that halves.
    pub(crate) fn contains(&self, uid: u32) -> bool
        ensures { result ≡ is_among uid self.now }
    {
        self.uids.binary_search(&uid).is_ok()
    }
}

/// Returns the UIDs of the messages.
pub(crate) fn uids_of(alloc: Global, rows: &Rows<'_>) -> Result<Vec<u32>, AllocError>
    ensures { IfOk result (λ uids. uids.items ≡ row_uids rows.now) }
{
    let mut uids = Vec::with_capacity(alloc, rows.len())?;
    for place in 0..rows.len() {
        uids.push_reserved(rows.uid(place));
    }
    Ok(uids)
}

/// Returns a copy.
pub(crate) fn copy_uids(alloc: Global, uids: &[u32]) -> Result<Vec<u32>, AllocError>
    ensures { IfOk result (λ copy. copy.items ≡ uids.now) }
{
    let mut copy = Vec::with_capacity(alloc, uids.len())?;
    copy.extend_from_slice(uids)?;
    Ok(copy)
}

/// Returns the number of lower UIDs, by a search that halves.
pub(crate) fn count_lower(uids: &[u32], uid: u32) -> usize
    requires { UidsRise uids.now }
    ensures count { result ≡ prefix_len (λ u. nat_lt u uid) uids.now }
    ensures within { result ≤ length uids.now }
{
    uids.partition_point(
        |other: &u32| -> bool
            ensures { result ≡ nat_lt other.now uid }
        { *other < uid },
    )
}

/// Returns the place of the UID, by a search that halves.
pub(crate) fn find_uid(uids: &[u32], uid: u32) -> Option<usize>
    requires { UidsRise uids.now }
    ensures { result ≡ place_in uid uids.now }
{
    let place = count_lower(uids, uid);
    if place < uids.len() && uids[place] == uid {
        Some(place)
    } else {
        None
    }
}
