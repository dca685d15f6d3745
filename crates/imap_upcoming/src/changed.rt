//! What a change makes of a mailbox that is there.

ghost use Rattle.std.specs.Prelude.{◌≡◌, option_copied};
ghost use Rattle.imap_names.specs.Order.{is_within};
ghost use Rattle.imap_upcoming.specs.Changed as specs;
ghost use Rattle.imap_world.specs.Messages.{is_same_name};

use imap_batch::BatchWrite;
use imap_names::Name;
use imap_rights::Acl;
use imap_world::{Change, NamedWrite, Write, is_same_name};

/// The access control list that the mailbox of this name has after the change, or `None` if it loses the
/// name. `acl` is the list before.
pub(crate) fn acl_after<'a>(name: &Name, acl: &'a Acl, change: &'a Change) -> Option<&'a Acl>
    ensures { option_copied result ≡ specs.acl_after name.now acl.now change.now }
{
    match change.writes().last() {
        Some(write) => acl_written(name, acl, write),
        None => Some(acl),
    }
}

fn acl_written<'a>(name: &Name, acl: &'a Acl, write: &'a Write) -> Option<&'a Acl>
    ensures { option_copied result ≡ specs.acl_written name.now acl.now write.now }
{
    match write {
        Write::SetAcl(changed, new) => {
            if is_same_name(name, changed) {
                Some(new)
            } else {
                Some(acl)
            }
        }
        Write::Remove(gone) => acl_unless(is_same_name(name, gone), acl),
        Write::Move(old, _, _) => acl_unless(is_within(old, name), acl),
        Write::Put(_) | Write::Messages(_, _) | Write::Subscribe(_, _) | Write::Unsubscribe(_, _) =>
            Some(acl),
    }
}

fn acl_unless<'a>(goes: bool, acl: &'a Acl) -> Option<&'a Acl>
    ensures { option_copied result ≡ specs.acl_unless goes acl.now }
{
    if goes { None } else { Some(acl) }
}

/// What the change writes to the messages of the mailbox of this name, if anything.
pub(crate) fn batch_for<'a>(name: &Name, change: &'a Change) -> Option<&'a BatchWrite>
    ensures { option_copied result ≡ specs.batch_for name.now change.now }
{
    match change.writes().last() {
        Some(write) => batch_written(name, write),
        None => None,
    }
}

fn batch_written<'a>(name: &Name, write: &'a Write) -> Option<&'a BatchWrite>
    ensures { option_copied result ≡ specs.batch_written name.now write.now }
{
    match write {
        Write::Messages(part, other) => part_for(name, part, other),
        Write::Put(_)
        | Write::SetAcl(_, _)
        | Write::Remove(_)
        | Write::Move(_, _, _)
        | Write::Subscribe(_, _)
        | Write::Unsubscribe(_, _) => None,
    }
}

fn part_for<'a>(
    name: &Name,
    part: &'a NamedWrite,
    other: &'a Option<NamedWrite>,
) -> Option<&'a BatchWrite>
    ensures { option_copied result ≡ specs.part_for name.now part.now other.now }
{
    if is_same_name(name, &part.name) {
        Some(&part.write)
    } else {
        other_for(name, other)
    }
}

fn other_for<'a>(name: &Name, other: &'a Option<NamedWrite>) -> Option<&'a BatchWrite>
    ensures { option_copied result ≡ specs.other_for name.now other.now }
{
    match other {
        Some(other) => {
            if is_same_name(name, &other.name) {
                Some(&other.write)
            } else {
                None
            }
        }
        None => None,
    }
}

/// Whether the name is `top` or below it.
fn is_within(top: &Name, name: &Name) -> bool
    ensures { result ≡ is_within top.now name.now }
{
    name.as_ref().compare_to_run(&top.as_ref()).is_eq()
}
