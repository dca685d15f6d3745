//! The levels of the hierarchy above names.
ghost use Rattle.std.specs.Prelude.{◌≡◌, ◌↔◌, ◌⊎◌, true, OnOk, IfOk};
ghost use Rattle.std.specs.List.{Contains};
ghost use Rattle.imap_answer.specs.Lines.{IsPlain};
ghost use Rattle.imap_listing.specs.Texts.{Text, IsBelow, in_order, levels};

use crate::ordered::OrderedNames;
use crate::shown_name::{ShownName, ShownRef};
use std::alloc::{AllocError, Global};

/// Appends the names of the levels above `name`, the deepest first.
fn push_levels<'a>(levels: &mut Vec<ShownRef<'a>>, name: &'a str) -> Result<(), AllocError>
    requires { IsPlain name.now }
    ensures { OnOk result ((n : Text) →
        Contains levels.new.items n ↔ (Contains levels.old.items n ⊎ IsBelow n name.now)) }
{
    let mut rest = name;
    while let Some((above, _)) = rest.rsplit_once('/') {
        levels.push(ShownRef::new(above))?;
        rest = above;
    }
    Ok(())
}

/// Whether `name` stands directly below `folder`.
fn is_in(folder: &str, name: &str) -> bool
    ensures { result ≡ true → (n : Text) →
        IsBelow n name.now ↔ ((folder.now ≡ n) ⊎ IsBelow n folder.now) }
{
    match name.rsplit_once('/') {
        Some((above, _)) => above == folder,
        None => false,
    }
}

/// Whether both names stand directly below the same name, so that their levels are the same.
fn are_siblings(one: &str, other: &str) -> bool
    ensures { result ≡ true → (n : Text) → IsBelow n other.now ↔ IsBelow n one.now }
{
    match one.rsplit_once('/') {
        Some((folder, _)) => is_in(folder, other),
        None => false,
    }
}

/// As `push_levels`, for a name that is listed after `before`, whose levels are there.
fn push_more_levels<'a>(
    levels: &mut Vec<ShownRef<'a>>,
    before: &str,
    name: &'a str,
) -> Result<(), AllocError>
    requires plain { IsPlain name.now }
    requires before { (n : Text) → IsBelow n before.now → Contains levels.old.items n }
    ensures { OnOk result ((n : Text) →
        Contains levels.new.items n ↔ (Contains levels.old.items n ⊎ IsBelow n name.now)) }
{
    if are_siblings(before, name) {
        return Ok(());
    }
    push_levels(levels, name)
}

/// The names of the levels above `names`, in their order. Names in one folder that follow one another add
/// these levels once.
pub(crate) fn levels_of<'a>(
    alloc: Global,
    names: &'a [ShownName],
) -> Result<OrderedNames<'a>, AllocError>
    ensures { IfOk result (λ above. above ≡ in_order (levels names.now)) }
{
    let mut levels = Vec::new(alloc);
    let mut before = "";
    for name in names {
        push_more_levels(&mut levels, before, name.as_str())?;
        before = name.as_str();
    }
    OrderedNames::from_names(levels)
}
