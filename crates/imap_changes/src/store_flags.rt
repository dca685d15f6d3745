//! The flags that STORE gives to a message (RFC 9051, section 6.4.6).

ghost use Rattle.std.specs.Prelude.{◌≡◌, IfOk, OnOk};
ghost use Rattle.std.specs.List.{list_any};
ghost use Rattle.imap_changes.specs.Store as specs;
ghost use Rattle.imap_rights.specs.Rights.{bits};
ghost use Rattle.imap_targets.specs.NewFlags.{IsFew};

use bitflags::Flags;
use imap_grammar::{StoreChange, StoreSpec};
use imap_mailbox::SharedFlags;
use imap_rights::Rights;
use imap_syntax::{Flag, Keywords};
use imap_targets::{has_seen, has_too_many, right_for, with_permitted};
use imap_values::TryCopy;
use std::alloc::{AllocError, Global};

/// Whether the user may change none of the flags, or only flags that the list hasn't.
pub(crate) fn lacks_right(rights: Rights, flags: &[Flag]) -> bool
    ensures { result ≡ specs.lacks_right (bits rights) flags.now }
{
    !may_store(rights) || changes_none(rights, flags)
}

fn may_store(rights: Rights) -> bool
    ensures { result ≡ specs.may_store (bits rights) }
{
    rights.has_any(Rights::SEEN.union(Rights::DELETE_MESSAGES.union(Rights::WRITE)))
}

/// Whether the list has flags, and none that may be changed.
fn changes_none(rights: Rights, flags: &[Flag]) -> bool
    ensures { result ≡ specs.changes_none (bits rights) flags.now }
{
    keeps_any(flags) && !may_change_any(rights, flags)
}

fn keeps_any(flags: &[Flag]) -> bool
    ensures { result ≡ list_any specs.is_kept flags.now }
{
    flags.iter().any(|flag| is_kept(flag))
}

fn may_change_any(rights: Rights, flags: &[Flag]) -> bool
    ensures { result ≡ list_any (specs.may_change (bits rights)) flags.now }
{
    flags.iter().any(|flag| may_change(rights, flag))
}

/// Whether it isn't a flag with a backslash other than the five of RFC 9051, section 2.3.2.
fn is_kept(flag: &Flag) -> bool
    ensures { result ≡ specs.is_kept flag.now }
{
    !matches!(flag, Flag::Other(_))
}

fn may_change(rights: Rights, flag: &Flag) -> bool
    ensures { result ≡ specs.may_change (bits rights) flag.now }
{
    is_kept(flag) && rights.has_any(right_for(flag))
}

/// Returns the flags that all users share, as STORE leaves them. `None` if they have more keywords than a message
/// may have.
pub(crate) fn flags_changed(
    alloc: Global,
    rights: Rights,
    spec: &StoreSpec,
    flags: &SharedFlags,
) -> Result<Option<SharedFlags>, AllocError>
    ensures { let meant = specs.flags_changed (bits rights) spec.now.change spec.now.flags flags.now in
        IfOk result (IsFew meant) }
{
    let list = spec.flags.as_slice();
    match spec.change {
        StoreChange::Replace => with_permitted(alloc, rights, list, cleared(alloc, rights, flags)?),
        StoreChange::Add => with_permitted(alloc, rights, list, flags.try_copy(alloc)?),
        StoreChange::Remove => without_permitted(alloc, rights, list, flags),
    }
}

/// The flags without those that the user may change.
fn cleared(alloc: Global, rights: Rights, flags: &SharedFlags) -> Result<SharedFlags, AllocError>
    ensures { IfOk result (λ shared. shared ≡ specs.cleared (bits rights) flags.now) }
{
    let writes = rights.has_any(Rights::WRITE);
    let deletes = rights.has_any(Rights::DELETE_MESSAGES);
    let keywords = if writes {
        Keywords::new(alloc)
    } else {
        flags.keywords.try_copy(alloc)?
    };
    Ok(SharedFlags {
        answered: flags.answered && !writes,
        deleted: flags.deleted && !deletes,
        draft: flags.draft && !writes,
        flagged: flags.flagged && !writes,
        keywords,
    })
}

/// The flags without those of the list for which the user holds the right.
fn without_permitted(
    alloc: Global,
    rights: Rights,
    list: &[Flag],
    flags: &SharedFlags,
) -> Result<Option<SharedFlags>, AllocError>
    ensures { IfOk result (IsFew (specs.without_permitted (bits rights) list.now flags.now)) }
{
    let mut shared = flags.try_copy(alloc)?;
    for flag in list {
        remove_permitted(&mut shared, alloc, rights, flag)?;
    }
    if has_too_many(&shared) {
        return Ok(None);
    }
    Ok(Some(shared))
}

/// Takes the flag away, if the user holds the right that it needs.
fn remove_permitted(
    shared: &mut SharedFlags,
    alloc: Global,
    rights: Rights,
    flag: &Flag,
) -> Result<(), AllocError>
    ensures { let meant = specs.without_permitted_flag (bits rights) flag.now shared.old in
        OnOk result (shared.new ≡ meant) }
{
    if rights.has_any(right_for(flag)) {
        shared.remove(alloc, flag)
    } else {
        Ok(())
    }
}

/// Whether the user has seen the message afterwards.
pub(crate) fn is_seen_after(rights: Rights, spec: &StoreSpec, seen: bool) -> bool
    ensures { let meant = specs.seen_if_permitted (bits rights) spec.now.change spec.now.flags in
        result ≡ meant seen }
{
    if rights.has_any(Rights::SEEN) {
        seen_changed(spec.change, has_seen(spec.flags.as_slice()), seen)
    } else {
        seen
    }
}

fn seen_changed(change: StoreChange, listed: bool, seen: bool) -> bool
    ensures { result ≡ specs.seen_changed change listed seen }
{
    match change {
        StoreChange::Replace => listed,
        StoreChange::Add => seen || listed,
        StoreChange::Remove => seen && !listed,
    }
}
