//! RENAME (RFC 9051, section 6.3.6).

ghost use Rattle.std.specs.Prelude.{◌≡◌, true, option_copied, IfOk, map};
ghost use Rattle.std.specs.List.{list_all};
ghost use Rattle.imap_name_map.specs.Rows.{has_within};
ghost use Rattle.imap_names.specs.Order.{is_within, moved};
ghost use Rattle.imap_tree.specs.Rename as specs;
ghost use Rattle.imap_view.specs.Listing.{names_below};
ghost use Rattle.imap_view.specs.RenameAfter.{can_all_arrive, missing_above, names_after};
ghost use Rattle.imap_view.specs.TreeAfter.{validities_left};
ghost use Rattle.imap_world.specs.Moving.{can_arrive};
ghost use Rattle.imap_world.specs.declared.effect.Effect.TheVariants.{Rename};

use crate::new_name::read_new_name;
use crate::selected::is_selected;
use imap_answer::{Answer, CommandContext, missing_right_refusal};
use imap_lex::Octets;
use imap_names::{Name, UserName};
use imap_print::Refusal;
use imap_rights::Rights;
use imap_values::beside;
use imap_view::View;
use imap_world::{Effect, can_move};
use std::alloc::{AllocError, Global};

/// Answers RENAME of a mailbox to a new name, both as they stand in the command, in a session that has
/// selected `selected`.
pub fn rename_answer(
    context: &CommandContext<'_>,
    selected: Option<&Name>,
    old: &Octets,
    new: &Octets,
) -> Result<Answer, AllocError>
    ensures { let selected = option_copied selected.entry in
        let answer = specs.rename_answer context.now.view selected context.now.tag in
        IfOk result (λ given. given ≡ answer old.now new.now) }
{
    match context.name(old)? {
        Some(old) => rename_of_name(context, selected, &old, new),
        None => context.refuse(Refusal::NonExistent),
    }
}

fn rename_of_name(
    context: &CommandContext<'_>,
    selected: Option<&Name>,
    old: &Name,
    new: &Octets,
) -> Result<Answer, AllocError>
    ensures { let selected = option_copied selected.entry in
        let answer = specs.rename_of_name context.now.view selected context.now.tag in
        IfOk result (λ given. given ≡ answer new.now old.now) }
{
    match read_new_name(context, new.as_slice())? {
        Ok(new) => rename_of_names(context, selected, old, &new),
        Err(refusal) => context.refuse(refusal),
    }
}

fn rename_of_names(
    context: &CommandContext<'_>,
    selected: Option<&Name>,
    old: &Name,
    new: &Name,
) -> Result<Answer, AllocError>
    ensures { let selected = option_copied selected.entry in
        let answer = specs.rename_of_names context.now.view selected context.now.tag in
        IfOk result (λ given. given ≡ answer old.now new.now) }
{
    let view = context.view();
    let rights = view.rights(&old.as_ref());
    if !rights.has_any(Rights::DELETE_MAILBOX) {
        return context.refuse(missing_right_refusal(rights));
    }
    if !can_move(old, new) {
        return context.refuse(Refusal::Cannot);
    }
    if is_selected(selected, old) {
        return context.refuse(Refusal::InUse);
    }
    if !view.may_create(&new.as_ref()) {
        return context.refuse(Refusal::NoPerm);
    }
    if is_in_use(view, new) {
        return context.refuse(Refusal::AlreadyExists);
    }
    if !can_all_arrive(context.alloc(), view, old, new)? {
        return context.refuse(Refusal::Limit);
    }
    context.done_with(renaming(view.owner(new), old, new)?)
}

/// The effect of RENAME.
fn renaming(owner: &UserName, old: &Name, new: &Name) -> Result<Effect, AllocError>
    ensures { IfOk result (λ effect. effect ≡ Rename owner.now old.now new.now) }
{
    let owner = owner.try_copy()?;
    let (old, owner) = beside(old.try_copy(), owner)?;
    let (new, (owner, old)) = beside(new.try_copy(), (owner, old))?;
    Ok(Effect::Rename(owner, old, new))
}

/// Whether the name or one below it is in use, as far as the user may know.
fn is_in_use(view: &View<'_>, name: &Name) -> bool
    ensures { result ≡ has_within name.now view.now.taken }
{
    view.is_taken(&name.as_ref()) || view.taken_below(&name.as_ref())
}

/// Whether each name that a mailbox gets can be had, and each superior that isn't there can be made.
fn can_all_arrive(
    alloc: Global,
    view: &View<'_>,
    old: &Name,
    new: &Name,
) -> Result<bool, AllocError>
    ensures { IfOk result (λ can. can ≡ can_all_arrive view.now old.now new.now) }
{
    if !can_arrive(alloc, view, old, old, new)? {
        return Ok(false);
    }
    Ok(can_all_below_arrive(alloc, view, old, new)? && are_superiors_left(view, new))
}

/// The same of the names below the mailbox alone.
fn can_all_below_arrive(
    alloc: Global,
    view: &View<'_>,
    old: &Name,
    new: &Name,
) -> Result<bool, AllocError>
    ensures { let names = map (moved old.now new.now) (names_below old.now view.now.taken) in
        IfOk result (λ can. can ≡ list_all (can_arrive view.now.epochs) names) }
{
    for name in view.taken_names(&old.as_ref()) {
        match can_arrive(alloc, view, name, old, new) {
            Ok(true) => {}
            Ok(false) => return Ok(false),
            Err(error) => return Err(error),
        }
    }
    Ok(true)
}

/// Whether the name that one mailbox gets, which is `old` or below it, can be had.
fn can_arrive(
    alloc: Global,
    view: &View<'_>,
    name: &Name,
    old: &Name,
    new: &Name,
) -> Result<bool, AllocError>
    requires { is_within old.now name.now ≡ true }
    ensures { IfOk result (λ can. can ≡ can_arrive view.now.epochs (moved old.now new.now name.now)) }
{
    match name.moved(alloc, old, new)? {
        Some(moved) => Ok(view.is_validity_left(&moved.as_ref())),
        None => Ok(false),
    }
}

/// Whether a UIDVALIDITY is left for each superior that is made.
fn are_superiors_left(view: &View<'_>, name: &Name) -> bool
    ensures { result ≡ validities_left view.now (missing_above view.now name.now) }
{
    match name.as_ref().superior() {
        Some(above) => view.are_validities_left(&above),
        None => true,
    }
}
