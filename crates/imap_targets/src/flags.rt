//! The flags that a user gives to a message.

ghost use Rattle.std.specs.Prelude.{◌≡◌, IfOk, OnOk};
ghost use Rattle.std.specs.List.{list_any};
ghost use Rattle.imap_mailbox.specs.Flags.{has_too_many};
ghost use Rattle.imap_targets.specs.NewFlags as specs;
ghost use Rattle.imap_rights.specs.Rights.{bits};
ghost use Rattle.imap_session.specs.State.{selection_of};

use bitflags::Flags;
use imap_mailbox::{MAX_KEYWORDS, SharedFlags};
use imap_rights::Rights;
use imap_session::Selected;
use imap_syntax::Flag;
use imap_view::View;
use std::alloc::{AllocError, Global};

/// The right that the flag needs.
pub fn right_for(flag: &Flag) -> Rights
    ensures { bits result ≡ specs.right_for flag.now }
{
    match flag {
        Flag::Seen => Rights::SEEN,
        Flag::Deleted => Rights::DELETE_MESSAGES,
        _ => Rights::WRITE,
    }
}

/// Sets the flag, if the user holds the right that it needs.
fn insert_permitted(
    shared: &mut SharedFlags,
    alloc: Global,
    rights: Rights,
    flag: &Flag,
) -> Result<(), AllocError>
    ensures { let meant = specs.with_permitted_flag (bits rights) flag.now shared.old in
        OnOk result (shared.new ≡ meant) }
{
    if rights.has_any(right_for(flag)) {
        shared.insert(alloc, flag)
    } else {
        Ok(())
    }
}

/// Returns the flags with those of the list for which the user holds the right. `None` if they have more
/// keywords than a message may have.
pub fn with_permitted(
    alloc: Global,
    rights: Rights,
    flags: &[Flag],
    mut shared: SharedFlags,
) -> Result<Option<SharedFlags>, AllocError>
    ensures { IfOk result (specs.IsFew (specs.with_permitted (bits rights) flags.now shared)) }
{
    if has_too_many(&shared) {
        return Ok(None);
    }
    for flag in flags {
        insert_permitted(&mut shared, alloc, rights, flag)?;
        if has_too_many(&shared) {
            return Ok(None);
        }
    }
    Ok(Some(shared))
}

/// Whether they have more keywords than a message may have.
pub fn has_too_many(flags: &SharedFlags) -> bool
    ensures { result ≡ has_too_many flags.now }
{
    flags.keywords.len() > MAX_KEYWORDS
}

/// Returns the flags that all users share of a new message: those of the list for which the user holds the
/// right. `None` if they have more keywords than a message may have.
pub fn new_flags(
    alloc: Global,
    rights: Rights,
    flags: &[Flag],
) -> Result<Option<SharedFlags>, AllocError>
    ensures { IfOk result (specs.IsFew (specs.new_flags (bits rights) flags.now)) }
{
    with_permitted(alloc, rights, flags, SharedFlags::new(alloc))
}

/// Whether the user has seen a new message.
pub fn is_new_seen(rights: Rights, flags: &[Flag]) -> bool
    ensures { result ≡ specs.is_new_seen (bits rights) flags.now }
{
    rights.has_any(Rights::SEEN) && has_seen(flags)
}

/// Whether `\Seen` is one of the flags.
pub fn has_seen(flags: &[Flag]) -> bool
    ensures { result ≡ list_any specs.is_seen flags.now }
{
    flags.iter().any(
        |flag: &Flag| -> bool
            ensures { result ≡ specs.is_seen flag.now }
        { matches!(flag, Flag::Seen) },
    )
}

/// Returns the rights by which a user changes flags in the selected mailbox: those that the user has on it, and none if
/// it is examined.
pub fn storing_rights(view: &View<'_>, selected: &Selected) -> Rights
    ensures { bits result ≡ specs.storing_rights view.now (selection_of selected.now) }
{
    if selected.read_only {
        return Rights::empty();
    }
    view.rights(&selected.name.as_ref())
}
