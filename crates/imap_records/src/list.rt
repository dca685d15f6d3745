//! Rows of access control lists.

ghost use Rattle.std.specs.Prelude.{◌≡◌, ◌++◌, ◌∷◌, [], map, OnOk};
ghost use Rattle.imap_records.specs.Steps.{below_of, entry_step};
ghost use Rattle.imap_rights.specs.Entries.{pair_of, pairs_of};

use crate::columns::identifier_text;
use bitflags::Flags;
use imap_rights::Entry;
use imap_tables::ChangeBelow;
use std::alloc::{AllocError, Global};

/// Appends a change.
pub(crate) fn push(changes: &mut Vec<ChangeBelow>, change: ChangeBelow) -> Result<(), AllocError>
    ensures { OnOk result
        (map below_of changes.new.items ≡ map below_of changes.old.items ++ below_of change ∷ []) }
{
    changes.push(change)?;
    Ok(())
}

/// Appends the row of each entry.
pub(crate) fn push_entries(
    changes: &mut Vec<ChangeBelow>,
    alloc: Global,
    entries: &[Entry],
) -> Result<(), AllocError>
    ensures { OnOk result (map below_of changes.new.items
        ≡ map below_of changes.old.items ++ map entry_step (pairs_of entries.now)) }
{
    for entry in entries {
        push_entry(changes, alloc, entry)?;
    }
    Ok(())
}

fn push_entry(
    changes: &mut Vec<ChangeBelow>,
    alloc: Global,
    entry: &Entry,
) -> Result<(), AllocError>
    ensures { OnOk result (map below_of changes.new.items
        ≡ map below_of changes.old.items ++ entry_step (pair_of entry.now) ∷ []) }
{
    let identifier = identifier_text(alloc, &entry.identifier)?;
    let rights = u32::from(entry.rights.bits());
    push(changes, ChangeBelow::AddEntry(identifier, rights))
}
