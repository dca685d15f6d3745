//! A world, read again from its tables.

ghost use Rattle.std.specs.Prelude.{◌≡◌, Err, IfOk};
ghost use Rattle.imap_mailbox.specs.declared.parts.PartsError.TheVariants as parts;
ghost use Rattle.imap_message_tables.specs.OneTable.{FitNone, IsJoinOf};
ghost use Rattle.imap_restore.specs.Holding.{AreRowsOf, AreSplitRowsOf, Hold, HoldSplit, IsMadeOf, IsUnmade};
ghost use Rattle.imap_restore.specs.Parts.{ArePartsFor};
ghost use Rattle.imap_world.specs.declared.world_parts.WorldParts.{WorldParts as Parts};
ghost use Rattle.imap_tables.specs.Contents.{AreAddedApart, AreAllApart};
ghost use Rattle.imap_world.specs.Stored.{world_of};
ghost use Rattle.imap_world.specs.World.{World as Mailboxes};
ghost use Rattle.sqlite.specs.Tree.{Trees};

use crate::making::make_world;
use crate::parts::read_parts;
use imap_mailbox::PartsError;
use imap_message_tables::join_tables;
use imap_tables::{AddedTables, StoredTables, are_added_apart, are_all_apart};
use imap_world::World;
use std::alloc::Global;

/// The rows, if no two of a table have one rowid.
fn checked(alloc: Global, stored: StoredTables) -> Result<StoredTables, PartsError>
    ensures ok { IfOk result (λ same. (same ≡ stored) × AreAllApart stored) }
    ensures bad { result ≡ Err parts.Bad → AreAllApart stored → ⊥ }
{
    let apart = are_all_apart(alloc, &stored)?;
    if !apart {
        return Err(PartsError::Bad);
    }
    Ok(stored)
}

/// Makes a world of rows that were read. Fails with `Bad` if they stand for none.
fn restore_read(alloc: Global, stored: StoredTables) -> Result<World, PartsError>
    requires { AreAllApart stored }
    ensures ok { IfOk result (λ world.
        (kept : Parts) × ArePartsFor stored kept × IsMadeOf kept (world_of world)) }
    ensures bad { result ≡ Err parts.Bad → IsUnmade stored }
{
    match read_parts(alloc, stored) {
        Ok(parts) => make_world(alloc, parts),
        Err(error) => Err(error),
    }
}

/// Reads the world that the rows of all tables stand for, with each message in one row. Fails with `Bad` if they
/// stand for none, as where two rows of a table have one rowid.
pub fn restore(alloc: Global, stored: StoredTables) -> Result<World, PartsError>
    ensures ok { IfOk result (λ world. (db : Trees) → AreRowsOf db stored → Hold db (world_of world)) }
    ensures bad { result ≡ Err parts.Bad → (db : Trees) (world : Mailboxes)
        → AreRowsOf db stored → Hold db world → ⊥ }
{
    match checked(alloc, stored) {
        Ok(stored) => restore_read(alloc, stored),
        Err(error) => Err(error),
    }
}

/// What is read of all tables with each message in one row. Fails with `Bad` if two rows of a table of messages
/// have one rowid, or the three tables don't fit.
fn joined(
    alloc: Global,
    stored: StoredTables,
    added: AddedTables,
) -> Result<StoredTables, PartsError>
    ensures ok { IfOk result (λ one. AreAddedApart added × IsJoinOf stored added one) }
    ensures bad { result ≡ Err parts.Bad → AreAddedApart added → FitNone stored added }
{
    let apart = are_added_apart(alloc, &added)?;
    if !apart {
        return Err(PartsError::Bad);
    }
    match join_tables(alloc, stored, added)? {
        Some(one) => Ok(one),
        None => Err(PartsError::Bad),
    }
}

/// Reads the world that the rows of all tables stand for, with each message in three tables. Fails with `Bad` if
/// they stand for none, as where a message has no octets, or octets or a keyword no message.
pub fn restore_split(
    alloc: Global,
    stored: StoredTables,
    added: AddedTables,
) -> Result<World, PartsError>
    ensures ok { IfOk result (λ world. (db : Trees) → AreSplitRowsOf db stored added
        → HoldSplit db (world_of world)) }
    ensures bad { result ≡ Err parts.Bad → (db : Trees) (world : Mailboxes)
        → AreSplitRowsOf db stored added → HoldSplit db world → ⊥ }
{
    match joined(alloc, stored, added) {
        Ok(one) => restore(alloc, one),
        Err(error) => Err(error),
    }
}
