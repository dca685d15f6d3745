//! Messages that stand in one row each are added to the three tables.

ghost use Rattle.std.specs.Prelude.{◌≡◌, OnOk};
ghost use Rattle.imap_message_tables.specs.Copying.{CopiesRows};
ghost use Rattle.imap_message_tables.specs.Going.{Goes};
ghost use Rattle.imap_tables.specs.Steps.{Calls, HasSchema, IsBegun};
ghost use Rattle.imap_tables.specs.Tables.{store_schema};
ghost use Rattle.sqlite.specs.Held.{state};

use crate::writing::add_message;
use imap_tables::StoredMessage;
use sqlite::{Alter, Error, Transaction};
use std::alloc::Global;

/// Adds the messages in turn. Fails if the text of the keywords of one is that of none.
pub(crate) fn copy_messages<S: Alter>(
    tx: &mut Transaction<'_, S>,
    alloc: Global,
    messages: &[StoredMessage],
) -> Result<(), Error>
    requires schema { HasSchema store_schema (state S.Store tx.old.conn.now) }
    requires begun { IsBegun (state S.Store tx.old.conn.now) }
    ensures same_reference { tx.new.conn.ghost_name ≡ tx.old.conn.ghost_name }
    ensures call { Calls S.Store tx.old.conn.now tx.new.conn.now (λ old new.
        OnOk result (Goes (CopiesRows messages.now) old new)) }
{
    'messages: for message in messages {
        add_message(tx, alloc, &message.mailbox, &message.row)?;
    }
    Ok(())
}
