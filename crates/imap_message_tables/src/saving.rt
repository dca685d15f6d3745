//! Changes of rows are written.

ghost use Rattle.std.specs.Prelude.{◌≡◌, ◌≢◌, [], false, IsTrue, OnErr, OnOk};
ghost use Rattle.imap_message_tables.specs.Writing.{Writes, WritesAll, WritesAllBelow, WritesBelow};
ghost use Rattle.imap_message_tables.specs.Writing.{WritesUnder};
ghost use Rattle.imap_tables.specs.Changes.{AllowsGaps, PutsEpoch, PutsSubscription};
ghost use Rattle.imap_tables.specs.Rows.{IsOrderly};
ghost use Rattle.imap_tables.specs.Steps.{Calls, HasSchema, IsBack, IsBegun, IsLive, IsStore, Saves, Turns};
ghost use Rattle.imap_tables.specs.Tables.{store_schema};
ghost use Rattle.sqlite.specs.Held.{state};
ghost use Rattle.sqlite.specs.State.{HasCleanDisk, Survives};
ghost use Rattle.sqlite.specs.Tree.{Trees};

use crate::writing::{add_message, flag_message, made, remove_message};
use imap_tables::{
    ChangeBelow, GAPS_VERSION, MailboxKey, RowChange, count_mailbox, delete_acl, delete_epoch,
    delete_mailbox, delete_mark, delete_subscription, find_mailbox, insert_acl, insert_epoch,
    insert_gone, insert_mailbox, insert_mark, insert_subscription, move_mailbox, update_meta,
};
use sqlite::{Alter, Connection, Error, Transaction};
use std::alloc::Global;

/// Makes a change below the mailbox with this id.
fn make_below<S: Alter>(
    tx: &mut Transaction<'_, S>,
    alloc: Global,
    mailbox: &i64,
    change: &ChangeBelow,
) -> Result<(), Error>
    requires schema { HasSchema store_schema (state S.Store tx.old.conn.now) }
    requires begun { IsBegun (state S.Store tx.old.conn.now) }
    ensures same_reference { tx.new.conn.ghost_name ≡ tx.old.conn.ghost_name }
    ensures call { Calls S.Store tx.old.conn.now tx.new.conn.now (λ old new.
        OnOk result (Turns (WritesBelow mailbox.now change.now) old new)) }
{
    match change {
        ChangeBelow::RemoveAcl => made(delete_acl(tx, mailbox)),
        ChangeBelow::AddEntry(identifier, rights) => {
            made(insert_acl(tx, mailbox, identifier, *rights))
        }
        ChangeBelow::AddMessage(row) => add_message(tx, alloc, mailbox, row),
        ChangeBelow::FlagMessage(row) => flag_message(tx, alloc, mailbox, row),
        ChangeBelow::RemoveMessage(uid) => remove_message(tx, mailbox, *uid),
        ChangeBelow::AddGone(uid, place) => made(insert_gone(tx, mailbox, *uid, place)),
        ChangeBelow::AddMark(row) => made(insert_mark(
            tx,
            mailbox,
            &row.user,
            &row.own,
            &row.before,
            row.uid,
            row.seen,
        )),
        ChangeBelow::RemoveMark(user, own) => made(delete_mark(tx, mailbox, user, own)),
        ChangeBelow::Count(uidnext, shared) => made(count_mailbox(tx, mailbox, *uidnext, shared)),
    }
}

/// Makes changes below the mailbox with this id, in turn.
fn make_all_below<S: Alter>(
    tx: &mut Transaction<'_, S>,
    alloc: Global,
    mailbox: &i64,
    changes: &[ChangeBelow],
) -> Result<(), Error>
    requires schema { HasSchema store_schema (state S.Store tx.old.conn.now) }
    requires begun { IsBegun (state S.Store tx.old.conn.now) }
    requires live { IsLive (state S.Store tx.old.conn.now) }
    ensures same_reference { tx.new.conn.ghost_name ≡ tx.old.conn.ghost_name }
    ensures call { Calls S.Store tx.old.conn.now tx.new.conn.now (λ old new.
        OnOk result (Turns (WritesAllBelow mailbox.now changes.now) old new)) }
{
    'changes: for change in changes {
        make_below(tx, alloc, mailbox, change)?;
    }
    Ok(())
}

/// Makes changes below a mailbox, whose id is found once.
fn make_under<S: Alter>(
    tx: &mut Transaction<'_, S>,
    alloc: Global,
    key: &MailboxKey,
    changes: &[ChangeBelow],
) -> Result<(), Error>
    requires schema { HasSchema store_schema (state S.Store tx.old.conn.now) }
    requires begun { IsBegun (state S.Store tx.old.conn.now) }
    ensures same_reference { tx.new.conn.ghost_name ≡ tx.old.conn.ghost_name }
    ensures call { Calls S.Store tx.old.conn.now tx.new.conn.now (λ old new.
        OnOk result (Turns (WritesUnder key.now changes.now) old new)) }
{
    let mailbox = find_mailbox(tx, &key.tree, &key.path)?;
    make_all_below(tx, alloc, &mailbox, changes)
}

/// Puts the greatest UIDVALIDITY that was used under a name in place of the one before.
fn put_epoch<S: Alter>(
    tx: &mut Transaction<'_, S>,
    key: &MailboxKey,
    greatest: u32,
) -> Result<(), Error>
    requires schema { HasSchema store_schema (state S.Store tx.old.conn.now) }
    requires begun { IsBegun (state S.Store tx.old.conn.now) }
    ensures same_reference { tx.new.conn.ghost_name ≡ tx.old.conn.ghost_name }
    ensures call { Calls S.Store tx.old.conn.now tx.new.conn.now (λ old new.
        OnOk result (Turns (PutsEpoch key.now greatest) old new)) }
{
    let tree: &str = &key.tree;
    let path: &str = &key.path;
    delete_epoch(tx, tree, path)?;
    made(insert_epoch(tx, tree, path, greatest))
}

/// Puts a subscription, whether or not it is there.
fn put_subscription<S: Alter>(
    tx: &mut Transaction<'_, S>,
    user: &str,
    key: &MailboxKey,
) -> Result<(), Error>
    requires schema { HasSchema store_schema (state S.Store tx.old.conn.now) }
    requires begun { IsBegun (state S.Store tx.old.conn.now) }
    ensures same_reference { tx.new.conn.ghost_name ≡ tx.old.conn.ghost_name }
    ensures call { Calls S.Store tx.old.conn.now tx.new.conn.now (λ old new.
        OnOk result (Turns (PutsSubscription user.now key.now) old new)) }
{
    let tree: &str = &key.tree;
    let path: &str = &key.path;
    delete_subscription(tx, user, tree, path)?;
    made(insert_subscription(tx, user, tree, path))
}

/// Sets the version of tables in which own changes of a user may be missing among the others.
fn allow_gaps<S: Alter>(tx: &mut Transaction<'_, S>) -> Result<usize, Error>
    requires schema { HasSchema store_schema (state S.Store tx.old.conn.now) }
    ensures same_reference { tx.new.conn.ghost_name ≡ tx.old.conn.ghost_name }
    ensures call { Calls S.Store tx.old.conn.now tx.new.conn.now (λ old new.
        OnOk result (Turns AllowsGaps old new)) }
{
    update_meta(tx, "version", GAPS_VERSION)
}

/// Makes one change.
fn make_change<S: Alter>(
    tx: &mut Transaction<'_, S>,
    alloc: Global,
    change: &RowChange,
) -> Result<(), Error>
    requires schema { HasSchema store_schema (state S.Store tx.old.conn.now) }
    requires begun { IsBegun (state S.Store tx.old.conn.now) }
    ensures same_reference { tx.new.conn.ghost_name ≡ tx.old.conn.ghost_name }
    ensures call { Calls S.Store tx.old.conn.now tx.new.conn.now (λ old new.
        OnOk result (Turns (Writes change.now) old new)) }
{
    match change {
        RowChange::AddMailbox(key, validity) => {
            made(insert_mailbox(tx, &key.tree, &key.path, *validity))
        }
        RowChange::MoveMailbox(key, to, validity) => {
            made(move_mailbox(tx, &key.tree, &key.path, to, *validity))
        }
        RowChange::RemoveMailbox(key) => made(delete_mailbox(tx, &key.tree, &key.path)),
        RowChange::PutEpoch(key, greatest) => put_epoch(tx, key, *greatest),
        RowChange::PutSubscription(user, key) => put_subscription(tx, user, key),
        RowChange::RemoveSubscription(user, key) => {
            made(delete_subscription(tx, user, &key.tree, &key.path))
        }
        RowChange::Below(key, changes) => make_under(tx, alloc, key, changes),
        RowChange::AllowGaps => made(allow_gaps(tx)),
    }
}

/// Makes changes in turn.
fn make_changes<S: Alter>(
    tx: &mut Transaction<'_, S>,
    alloc: Global,
    changes: &[RowChange],
) -> Result<(), Error>
    requires some { changes.now ≢ [] }
    requires schema { HasSchema store_schema (state S.Store tx.old.conn.now) }
    requires begun { IsBegun (state S.Store tx.old.conn.now) }
    ensures same_reference { tx.new.conn.ghost_name ≡ tx.old.conn.ghost_name }
    ensures call { Calls S.Store tx.old.conn.now tx.new.conn.now (λ old new.
        OnOk result (Turns (WritesAll changes.now) old new)) }
{
    'changes: for change in changes {
        make_change(tx, alloc, change)?;
    }
    Ok(())
}

/// Makes changes in one transaction. If it fails, none is made.
pub fn save_rows<S: Alter>(
    conn: &mut Connection<S>,
    alloc: Global,
    changes: &[RowChange],
) -> Result<(), Error>
    requires some { changes.now ≢ [] }
    requires store { IsStore (state S.Store conn.old) }
    requires autocommit { conn.old.in_transaction ≡ false }
    ensures after { HasCleanDisk (state S.Store conn.new)
        → OnOk result (Saves (WritesAll changes.now) (state S.Store conn.old) (state S.Store conn.new)) }
    ensures before { HasCleanDisk (state S.Store conn.new) → IsTrue (state S.Store conn.new).is_open
        → OnErr result (IsBack (state S.Store conn.old) (state S.Store conn.new)) }
    ensures autocommit { conn.new.in_transaction ≡ false }
    ensures alone { HasCleanDisk (state S.Store conn.new) → OnOk result ((db : Trees)
        → (state S.Store conn.new).may_leave db → db ≡ (state S.Store conn.new).committed.trees) }
    ensures crash { Survives (state S.Store conn.old) (state S.Store conn.new) (λ db.
        IsTrue (state S.Store conn.old).is_open
        × WritesAll changes.now (state S.Store conn.old).now.trees db × IsOrderly db) }
{
    let mut tx = conn.transaction();
    make_changes(&mut tx, alloc, changes)?;
    tx.commit()
}
