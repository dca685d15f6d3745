//! The names of a view, as its user is shown them.
ghost use Rattle.std.specs.Prelude.{◌≡◌, ◌∷◌, ◌++◌, [], map, IfOk, OnOk, Some, None, if◌then◌else◌};
ghost use Rattle.std.specs.List.{filter_map};
ghost use Rattle.imap_listing.specs.ViewNames.{HaveSame, listable_at, listable_names, shown_names};
ghost use Rattle.imap_listing.specs.ViewNames.{subscribed_names};
ghost use Rattle.imap_names.specs.Showing.{shown};

use crate::shown_name::ShownName;
use imap_answer::View;
use imap_names::Name;
use imap_rights::Rights;
use std::alloc::{AllocError, Global};

/// The names of the mailboxes on which the user holds `l`, in any order. A name may be there more than once.
pub(crate) fn listable_names(alloc: Global, view: &View<'_>) -> Result<Vec<ShownName>, AllocError>
    ensures { IfOk result (λ names. HaveSame names.items (listable_names view.now)) }
{
    match view.starts(alloc)? {
        Some(names) => listable_among(alloc, view, names.as_slice()),
        None => all_listable(alloc, view),
    }
}

/// Returns those of these names on whose mailboxes the user holds `l`.
fn listable_among(
    alloc: Global,
    view: &View<'_>,
    names: &[&Name],
) -> Result<Vec<ShownName>, AllocError>
    ensures { let among = filter_map (listable_at view.now) (map (λ name. name.now) names.now) in
        IfOk result (λ listed. listed.items ≡ among) }
{
    let mut listed = Vec::new(alloc);
    for name in names {
        push_listable(&mut listed, alloc, view, name)?;
    }
    Ok(listed)
}

/// Appends the name, if the user holds `l` on its mailbox.
fn push_listable(
    listed: &mut Vec<ShownName>,
    alloc: Global,
    view: &View<'_>,
    name: &Name,
) -> Result<(), AllocError>
    ensures { OnOk result
        (listed.new.items ≡ listed.old.items ++ filter_map (listable_at view.now) (name.now ∷ [])) }
{
    if !is_listable(view, name) {
        return Ok(());
    }
    listed.push(ShownName::of(alloc, view, name)?)?;
    Ok(())
}

/// Whether the user holds `l` on the mailbox of this name.
fn is_listable(view: &View<'_>, name: &Name) -> bool
    ensures { listable_at view.now name.now
        ≡ (if result then Some (shown view.now.user name.now) else None) }
{
    match view.seen(&name.as_ref()) {
        Some(seen) => seen.rights().has_any(Rights::LOOKUP),
        None => false,
    }
}

/// The names of the mailboxes on which the user holds `l`, found by a walk of all.
fn all_listable(alloc: Global, view: &View<'_>) -> Result<Vec<ShownName>, AllocError>
    ensures { IfOk result (λ names. names.items ≡ listable_names view.now) }
{
    let mut names = Vec::new(alloc);
    for (name, seen) in view.seen_names() {
        if seen.rights().has_any(Rights::LOOKUP) {
            names.push(ShownName::of(alloc, view, name)?)?;
        }
    }
    Ok(names)
}

/// The names that the user subscribed to.
pub(crate) fn subscribed_names(alloc: Global, view: &View<'_>) -> Result<Vec<ShownName>, AllocError>
    ensures { IfOk result (λ names. names.items ≡ subscribed_names view.now) }
{
    match view.subscribed() {
        Some(names) => shown_names(alloc, view, names.entries()),
        None => Ok(Vec::new(alloc)),
    }
}

/// The names as the user is shown them.
fn shown_names(
    alloc: Global,
    view: &View<'_>,
    entries: &[(Name, ())],
) -> Result<Vec<ShownName>, AllocError>
    ensures { IfOk result (λ names. names.items ≡ shown_names view.now entries.now) }
{
    let mut names = Vec::new(alloc);
    for (name, _) in entries {
        names.push(ShownName::of(alloc, view, name)?)?;
    }
    Ok(names)
}
