//! CREATE (RFC 9051, section 6.3.4).

ghost use Rattle.std.specs.Prelude.{◌≡◌, IfOk};
ghost use Rattle.imap_tree.specs.Create as specs;

use crate::new_name::read_new_name;
use imap_answer::{Answer, CommandContext};
use imap_lex::Octets;
use imap_names::Name;
use imap_print::Refusal;
use imap_values::beside;
use imap_world::Effect;
use std::alloc::AllocError;

/// Answers CREATE of a mailbox, as it is named in the command.
pub fn create_answer(context: &CommandContext<'_>, mailbox: &Octets) -> Result<Answer, AllocError>
    ensures { let meant = specs.create_answer context.now.view context.now.tag mailbox.now in
        IfOk result (λ answer. answer ≡ meant) }
{
    match read_new_name(context, without_delimiter(mailbox.as_slice()))? {
        Ok(name) => create_of_name(context, &name),
        Err(refusal) => context.refuse(refusal),
    }
}

/// The text without one `/` at its end.
fn without_delimiter(text: &[u8]) -> &[u8]
    ensures { result.now ≡ specs.without_delimiter text.now }
{
    if text.ends_with(b"/") {
        &text[..text.len() - 1]
    } else {
        text
    }
}

fn create_of_name(context: &CommandContext<'_>, name: &Name) -> Result<Answer, AllocError>
    ensures { IfOk result (λ answer.
        answer ≡ specs.create_of_name context.now.view context.now.tag name.now) }
{
    let view = context.view();
    if !view.may_create(&name.as_ref()) {
        return context.refuse(Refusal::NoPerm);
    }
    if view.is_taken(&name.as_ref()) {
        return context.refuse(Refusal::AlreadyExists);
    }
    if !view.are_validities_left(&name.as_ref()) {
        return context.refuse(Refusal::Limit);
    }
    let owner = view.owner(name).try_copy()?;
    let (name, owner) = beside(name.try_copy(), owner)?;
    context.done_with(Effect::Create(owner, name))
}
