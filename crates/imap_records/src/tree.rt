//! Rows of mailboxes, of the UIDVALIDITYs that were used, and of subscriptions.

ghost use Rattle.std.specs.Prelude.{◌≡◌, ◌++◌, ◌∷◌, [], ℕ, List, IfOk, OnOk, drop, length, true};
ghost use Rattle.std.specs.Prelude.{map as map_list, string_bytes};
ghost use Rattle.std.specs.List.{list_all};
ghost use Rattle.std.specs.Str.{is_utf8};
ghost use Rattle.imap_names.specs.Name.{Name, path_of};
ghost use Rattle.imap_names.specs.Order.{is_within, moved};
ghost use Rattle.imap_names.specs.Valid.{IsName};
ghost use Rattle.imap_records.specs.Bounds.{IsNamedWrite};
ghost use Rattle.imap_records.specs.Columns.{tree_text};
ghost use Rattle.imap_records.specs.Steps.{Below, acl_steps, arrival_steps, below_of, epoch_step};
ghost use Rattle.imap_records.specs.Steps.{move_steps};
ghost use Rattle.imap_records.specs.Steps.{step_of, steps_for, steps_in};
ghost use Rattle.imap_records.specs.Values.{WriteHasValues};
ghost use Rattle.imap_tables.specs.Stored.{IsShort};
ghost use Rattle.imap_world.specs.declared.change.Write.TheVariants as write;

use crate::columns::{key_of, text_with_front, tree_at};
use crate::list::push_entries;
use imap_names::{Name, UserName};
use imap_rights::Acl;
use imap_tables::{ChangeBelow, MailboxKey, RowChange};
use imap_world::NewMailbox;
use std::alloc::{AllocError, Global};

/// Appends a change.
pub(crate) fn push(changes: &mut Vec<RowChange>, change: RowChange) -> Result<(), AllocError>
    ensures { OnOk result (steps_in changes.new.items ≡ steps_in changes.old.items ++ step_of change ∷ []) }
{
    changes.push(change)?;
    Ok(())
}

/// Appends the greatest UIDVALIDITY that was used under a name.
fn push_epoch(
    changes: &mut Vec<RowChange>,
    alloc: Global,
    name: &Name,
    greatest: u32,
) -> Result<(), AllocError>
    ensures rows { OnOk result (steps_in changes.new.items
        ≡ steps_in changes.old.items ++ epoch_step name.now greatest ∷ []) }
    ensures valid { IsName name.now }
{
    let key = key_of(alloc, &name.as_ref())?;
    push(changes, RowChange::PutEpoch(key, greatest))
}

/// Appends the rows of a mailbox that is made.
pub(crate) fn push_mailbox(
    changes: &mut Vec<RowChange>,
    alloc: Global,
    row: &NewMailbox,
) -> Result<(), AllocError>
    ensures rows { OnOk result (steps_in changes.new.items
        ≡ steps_in changes.old.items ++ steps_for (write.Put row.now)) }
    ensures valid { OnOk result (IsNamedWrite (write.Put row.now)) }
    ensures values { OnOk result (WriteHasValues (write.Put row.now)) }
{
    let name = row.name();
    let mailbox = row.mailbox();
    // Each list is one.
    let _ = mailbox.acl.len();
    let key = key_of(alloc, &name.as_ref())?;
    push(changes, RowChange::AddMailbox(key, mailbox.validity))?;
    push_list(changes, alloc, name, Vec::new(alloc), &mailbox.acl)?;
    push_epoch(changes, alloc, name, mailbox.validity)
}

/// Appends the rows of an access control list, after others below the same mailbox.
fn push_list(
    changes: &mut Vec<RowChange>,
    alloc: Global,
    name: &Name,
    mut below: Vec<ChangeBelow>,
    acl: &Acl,
) -> Result<(), AllocError>
    ensures rows { OnOk result (steps_in changes.new.items ≡ steps_in changes.old.items
        ++ Below (tree_text name.now) (path_of name.now)
        (map_list below_of below.items ++ acl_steps acl.now) ∷ []) }
    ensures valid { OnOk result (IsName name.now) }
{
    push_entries(&mut below, alloc, acl.entries())?;
    let key = key_of(alloc, &name.as_ref())?;
    push(changes, RowChange::Below(key, below))
}

/// Appends the rows of an access control list that takes the place of the one before.
pub(crate) fn push_new_list(
    changes: &mut Vec<RowChange>,
    alloc: Global,
    name: &Name,
    acl: &Acl,
) -> Result<(), AllocError>
    ensures rows { OnOk result (steps_in changes.new.items
        ≡ steps_in changes.old.items ++ steps_for (write.SetAcl name.now acl.now)) }
    ensures valid { OnOk result (IsNamedWrite (write.SetAcl name.now acl.now)) }
    ensures values { OnOk result (WriteHasValues (write.SetAcl name.now acl.now)) }
{
    // Each list is one.
    let _ = acl.len();
    let mut below = Vec::new(alloc);
    below.push(ChangeBelow::RemoveAcl)?;
    push_list(changes, alloc, name, below, acl)
}

/// Appends that a mailbox goes.
pub(crate) fn push_removed(
    changes: &mut Vec<RowChange>,
    alloc: Global,
    name: &Name,
) -> Result<(), AllocError>
    ensures rows { OnOk result (steps_in changes.new.items
        ≡ steps_in changes.old.items ++ steps_for (write.Remove name.now)) }
    ensures valid { OnOk result (IsNamedWrite (write.Remove name.now)) }
{
    let key = key_of(alloc, &name.as_ref())?;
    push(changes, RowChange::RemoveMailbox(key))
}

/// The key of the mailbox that gets the name `to` when `old` becomes `new`.
fn key_before(alloc: Global, to: &Name, old: &Name, new: &Name) -> Result<MailboxKey, AllocError>
    requires { is_within new.now to.now ≡ true }
    ensures tree { IfOk result (λ key. string_bytes key.tree ≡ tree_text (moved new.now old.now to.now)) }
    ensures path { IfOk result (λ key. string_bytes key.path ≡ path_of (moved new.now old.now to.now)) }
{
    let tree = tree_at(alloc, old.as_ref().root())?;
    let path = text_with_front(alloc, to.path(), new.path(), old.path())?;
    Ok(MailboxKey { tree, path })
}

/// Appends the rows of a mailbox that gets the name `to` when `old` becomes `new`.
fn push_moved(
    changes: &mut Vec<RowChange>,
    alloc: Global,
    to: &Name,
    validity: u32,
    old: &Name,
    new: &Name,
) -> Result<(), AllocError>
    requires { is_within new.now to.now ≡ true }
    ensures rows { OnOk result (steps_in changes.new.items ≡ steps_in changes.old.items
        ++ move_steps (moved new.now old.now to.now) to.now validity) }
    ensures valid { OnOk result (IsName to.now) }
    ensures short { IsShort validity }
{
    let key = key_before(alloc, to, old, new)?;
    let path = String::from_str(alloc, to.path())?;
    push(changes, RowChange::MoveMailbox(key, path, validity))?;
    push_epoch(changes, alloc, to, validity)
}

/// Appends the rows of the mailboxes that move when `old` becomes `new`.
pub(crate) fn push_arrivals(
    changes: &mut Vec<RowChange>,
    alloc: Global,
    old: &Name,
    new: &Name,
    arrivals: &[(Name, u32)],
) -> Result<(), AllocError>
    requires { list_all (λ a. is_within new.now a.0) arrivals.now ≡ true }
    ensures rows { OnOk result (steps_in changes.new.items
        ≡ steps_in changes.old.items ++ arrival_steps old.now new.now arrivals.now) }
    ensures valid { OnOk result (IsNamedWrite (write.Move old.now new.now arrivals.now)) }
    ensures values { OnOk result (WriteHasValues (write.Move old.now new.now arrivals.now)) }
{
    for arrival in arrivals {
        push_moved(changes, alloc, &arrival.0, arrival.1, old, new)?;
    }
    Ok(())
}

/// Appends the row of a subscription.
#[tactic(auto, using(crate::proofs::Texts::user_utf8))]
pub(crate) fn push_subscription(
    changes: &mut Vec<RowChange>,
    alloc: Global,
    user: &UserName,
    name: &Name,
) -> Result<(), AllocError>
    ensures rows { OnOk result (steps_in changes.new.items
        ≡ steps_in changes.old.items ++ steps_for (write.Subscribe user.now name.now)) }
    ensures valid { OnOk result (IsNamedWrite (write.Subscribe user.now name.now)) }
    ensures text { is_utf8 user.now ≡ true }
{
    let user = String::from_str(alloc, user.as_str())?;
    let key = key_of(alloc, &name.as_ref())?;
    push(changes, RowChange::PutSubscription(user, key))
}

/// Appends that the row of a subscription goes.
pub(crate) fn push_unsubscription(
    changes: &mut Vec<RowChange>,
    alloc: Global,
    user: &UserName,
    name: &Name,
) -> Result<(), AllocError>
    ensures rows { OnOk result (steps_in changes.new.items
        ≡ steps_in changes.old.items ++ steps_for (write.Unsubscribe user.now name.now)) }
    ensures valid { OnOk result (IsNamedWrite (write.Unsubscribe user.now name.now)) }
{
    let user = String::from_str(alloc, user.as_str())?;
    let key = key_of(alloc, &name.as_ref())?;
    push(changes, RowChange::RemoveSubscription(user, key))
}
