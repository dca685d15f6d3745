//! SETACL and DELETEACL (RFC 4314, sections 3.1 and 3.2).

ghost use Rattle.std.specs.Prelude.{◌≡◌, IfOk, Some};
ghost use Rattle.imap_tree.specs.SetAcl as specs;
ghost use Rattle.imap_view.specs.TreeAfter.{may_set_rights};
ghost use Rattle.imap_view.specs.View.{acl_in};

use crate::identifier::read_identifier;
use bitflags::Flags;
use imap_answer::{Answer, CommandContext, missing_right_refusal};
use imap_lex::Octets;
use imap_names::Name;
use imap_print::Refusal;
use imap_rights::{Identifier, Rights, RightsChange, read_rights};
use imap_values::beside;
use imap_view::View;
use imap_world::Effect;
use std::alloc::{AllocError, Global};

/// Answers SETACL of an identifier's rights on a mailbox, all as they stand in the command.
pub fn set_acl_answer(
    context: &CommandContext<'_>,
    mailbox: &Octets,
    identifier: &Octets,
    rights: &Octets,
) -> Result<Answer, AllocError>
    ensures { let answer = specs.set_acl_answer context.now.view context.now.tag in
        IfOk result (λ given. given ≡ answer mailbox.now identifier.now rights.now) }
{
    match read_rights(rights.as_slice()) {
        Some(change) => grant(context, mailbox, identifier, change),
        None => context.refuse(Refusal::Malformed),
    }
}

/// Answers DELETEACL of an identifier on a mailbox, both as they stand in the command.
pub fn delete_acl_answer(
    context: &CommandContext<'_>,
    mailbox: &Octets,
    identifier: &Octets,
) -> Result<Answer, AllocError>
    ensures { let answer = specs.delete_acl_answer context.now.view context.now.tag in
        IfOk result (λ given. given ≡ answer mailbox.now identifier.now) }
{
    let none = RightsChange::Replace(Rights::empty());
    let identifier = read_identifier(context.alloc(), identifier)?;
    set_rights(context, mailbox, identifier, none)
}

fn grant(
    context: &CommandContext<'_>,
    mailbox: &Octets,
    identifier: &Octets,
    change: RightsChange,
) -> Result<Answer, AllocError>
    ensures { let answer = specs.set_rights_answer context.now.view context.now.tag mailbox.now in
        IfOk result (λ given. given ≡ answer (specs.grantee_read identifier.now) change) }
{
    let identifier = read_grantee(context.alloc(), identifier)?;
    set_rights(context, mailbox, identifier, change)
}

/// The identifier that octets spell, if an entry may be set for it.
fn read_grantee(alloc: Global, octets: &Octets) -> Result<Option<Identifier>, AllocError>
    ensures { IfOk result (λ identifier. identifier ≡ specs.grantee_read octets.now) }
{
    let Some(identifier) = read_identifier(alloc, octets)? else {
        return Ok(None);
    };
    if identifier.misnames_group(alloc)? {
        return Ok(None);
    }
    Ok(Some(identifier))
}

fn set_rights(
    context: &CommandContext<'_>,
    mailbox: &Octets,
    identifier: Option<Identifier>,
    change: RightsChange,
) -> Result<Answer, AllocError>
    ensures { let answer = specs.set_rights_answer context.now.view context.now.tag mailbox.now in
        IfOk result (λ given. given ≡ answer identifier change) }
{
    match context.name(mailbox)? {
        Some(name) => set_rights_of_name(context, &name, identifier, change),
        None => context.refuse(Refusal::NonExistent),
    }
}

fn set_rights_of_name(
    context: &CommandContext<'_>,
    name: &Name,
    identifier: Option<Identifier>,
    change: RightsChange,
) -> Result<Answer, AllocError>
    ensures { let answer = specs.set_rights_of_name context.now.view context.now.tag identifier change in
        IfOk result (λ given. given ≡ answer name.now) }
{
    let rights = context.view().rights(&name.as_ref());
    if !rights.has_any(Rights::ADMINISTER) {
        return context.refuse(missing_right_refusal(rights));
    }
    match identifier {
        Some(identifier) => set_rights_of_identifier(context, name, identifier, change),
        None => context.refuse(Refusal::Cannot),
    }
}

fn set_rights_of_identifier(
    context: &CommandContext<'_>,
    name: &Name,
    identifier: Identifier,
    change: RightsChange,
) -> Result<Answer, AllocError>
    ensures { let answer = specs.set_rights_by context.now.view context.now.tag name.now change in
        IfOk result (λ given. given ≡ answer (Some identifier)) }
{
    if !may_set_rights(context.view(), name, &identifier, change) {
        return context.refuse(Refusal::Limit);
    }
    if keeps_entry(context.view(), name, &identifier, change) {
        return context.done();
    }
    let (name, identifier) = beside(name.try_copy(), identifier)?;
    context.done_with(Effect::SetRights(name, identifier, change))
}

/// Whether the identifier's rights in the list, if the user sees it, stay as they are.
fn keeps_entry(view: &View<'_>, name: &Name, identifier: &Identifier, change: RightsChange) -> bool
    ensures { result ≡ specs.keeps_entry identifier.now change (acl_in view.now name.now) }
{
    match view.acl(&name.as_ref()) {
        Some(acl) => {
            let rights = acl.rights_of(identifier);
            change.applied(rights).bits() == rights.bits()
        }
        None => true,
    }
}

/// Whether the user sees the list, and it has room for the entry.
fn may_set_rights(
    view: &View<'_>,
    name: &Name,
    identifier: &Identifier,
    change: RightsChange,
) -> bool
    ensures { result ≡ may_set_rights view.now name.now identifier.now change }
{
    match view.acl(&name.as_ref()) {
        Some(acl) => !acl.is_full_for(identifier, change.applied(acl.rights_of(identifier))),
        None => false,
    }
}
