//! DELETE (RFC 9051, section 6.3.5).

ghost use Rattle.std.specs.Prelude.{◌≡◌, option_copied, IfOk};
ghost use Rattle.imap_tree.specs.Delete as specs;

use crate::selected::is_selected;
use imap_answer::{Answer, CommandContext, missing_right_refusal};
use imap_lex::Octets;
use imap_names::Name;
use imap_print::Refusal;
use imap_rights::Rights;
use imap_world::Effect;
use std::alloc::AllocError;

/// Answers DELETE of a mailbox, as it is named in the command, in a session that has selected `selected`.
pub fn delete_answer(
    context: &CommandContext<'_>,
    selected: Option<&Name>,
    mailbox: &Octets,
) -> Result<Answer, AllocError>
    ensures { let selected = option_copied selected.entry in
        let answer = specs.delete_answer context.now.view selected context.now.tag in
        IfOk result (λ given. given ≡ answer mailbox.now) }
{
    match context.name(mailbox)? {
        Some(name) => delete_of_name(context, selected, &name),
        None => context.refuse(Refusal::NonExistent),
    }
}

fn delete_of_name(
    context: &CommandContext<'_>,
    selected: Option<&Name>,
    name: &Name,
) -> Result<Answer, AllocError>
    ensures { let selected = option_copied selected.entry in
        let answer = specs.delete_of_name context.now.view selected context.now.tag in
        IfOk result (λ given. given ≡ answer name.now) }
{
    let rights = context.view().rights(&name.as_ref());
    if !rights.has_any(Rights::DELETE_MAILBOX) {
        return context.refuse(missing_right_refusal(rights));
    }
    if name.is_inbox() {
        return context.refuse(Refusal::Cannot);
    }
    if is_selected(selected, name) {
        return context.refuse(Refusal::InUse);
    }
    if context.view().taken_below(&name.as_ref()) {
        return context.refuse(Refusal::HasChildren);
    }
    context.done_with(Effect::Delete(name.try_copy()?))
}
