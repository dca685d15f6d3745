//! Changes of a known list.

ghost use Rattle.std.specs.Prelude.{◌≡◌, ◌+◌, ◌≤◌, ◌++◌, length, not, vec_len};
ghost use Rattle.std.specs.Vec.{vec_capacity};
ghost use Rattle.imap_mailbox.specs.Rows.{is_among};
ghost use Rattle.imap_mailbox.specs.Summary.{AreRising};
ghost use Rattle.imap_session.specs.Delta.{without_uids, list_after, IsChangeOf};

use crate::uids::RisingUids;

/// A change of a known list.
#[derive(Drop)]
pub struct Delta {
    /// A message that stays is not as it was known. The list has its UID alone.
    pub changed: bool,
    /// The UIDs of messages that leave, rising.
    pub gone: Vec<u32>,
    /// The UIDs of messages that come, which stand last.
    pub added: Vec<u32>,
}

/// Removes the UIDs that are among `gone`, in one pass.
fn remove_all(uids: &mut Vec<u32>, gone: &[u32])
    requires { AreRising gone.now }
    ensures list { uids.new.items ≡ without_uids gone.now uids.old.items }
    ensures len { vec_len uids.new ≤ vec_len uids.old }
    ensures capacity { vec_capacity uids.new ≡ vec_capacity uids.old }
{
    if gone.is_empty() {
        return;
    }
    let gone = RisingUids { uids: gone };
    uids.retain(
        |uid: &u32| -> bool
            ensures { result ≡ not (is_among uid.now gone.entry) }
        { !gone.contains(*uid) },
    );
}

/// Appends the UIDs, in room that is there.
fn push_all(uids: &mut Vec<u32>, added: &[u32])
    requires { vec_len uids.old + length added.now ≤ vec_capacity uids.old }
    ensures list { uids.new.items ≡ uids.old.items ++ added.now }
    ensures len { vec_len uids.new ≡ vec_len uids.old + length added.now }
    ensures capacity { vec_capacity uids.new ≡ vec_capacity uids.old }
{
    for uid in added {
        uids.push_reserved(*uid);
    }
}

/// Makes a change, in room that is there.
pub(crate) fn change_uids(uids: &mut Vec<u32>, delta: &Delta)
    requires change { IsChangeOf uids.old.items delta.now }
    requires room { vec_len uids.old + length delta.now.added.items ≤ vec_capacity uids.old }
    ensures list { uids.new.items ≡ list_after delta.now uids.old.items }
    ensures len { vec_len uids.new ≤ vec_len uids.old + length delta.now.added.items }
    ensures capacity { vec_capacity uids.new ≡ vec_capacity uids.old }
{
    remove_all(uids, delta.gone.as_slice());
    push_all(uids, delta.added.as_slice());
}
