//! LISTRIGHTS (RFC 4314, section 3.4).

ghost use Rattle.std.specs.Prelude.{◌≡◌, IfOk, MatchOption};
ghost use Rattle.imap_print.specs.Lines.{IsPrintable};
ghost use Rattle.imap_rights.specs.Identifier.{identifier_read};
ghost use Rattle.imap_tree.specs.ListRights as specs;

use crate::identifier::read_identifier;
use imap_answer::{Answer, CommandContext, missing_right_refusal};
use imap_lex::Octets;
use imap_names::Name;
use imap_print::{Refusal, Response};
use imap_rights::{Identifier, Rights};
use std::alloc::AllocError;

/// Answers LISTRIGHTS of an identifier on a mailbox, both as they stand in the command.
pub fn list_rights_answer(
    context: &CommandContext<'_>,
    mailbox: &Octets,
    identifier: &Octets,
) -> Result<Answer, AllocError>
    ensures { let answer = specs.list_rights_answer context.now.view context.now.tag in
        IfOk result (λ given. given ≡ answer mailbox.now identifier.now) }
{
    match context.name(mailbox)? {
        Some(name) => list_rights_of_name(context, &name, identifier),
        None => context.refuse(Refusal::NonExistent),
    }
}

fn list_rights_of_name(
    context: &CommandContext<'_>,
    name: &Name,
    text: &Octets,
) -> Result<Answer, AllocError>
    ensures { let meant = specs.list_rights_of_name context.now.view context.now.tag text.now name.now in
        IfOk result (λ answer. answer ≡ meant) }
{
    let rights = context.view().rights(&name.as_ref());
    if !rights.has_any(Rights::ADMINISTER) {
        return context.refuse(missing_right_refusal(rights));
    }
    match read_identifier(context.alloc(), text)? {
        Some(identifier) => {
            let line = list_rights_line(context, name, &identifier)?;
            context.done_after_line(line)
        }
        None => context.refuse(Refusal::Cannot),
    }
}

fn list_rights_line(
    context: &CommandContext<'_>,
    name: &Name,
    identifier: &Identifier,
) -> Result<Response, AllocError>
    ensures line { let meant = specs.list_rights_line context.now.view name.now identifier.now in
        IfOk result (λ line. line ≡ meant) }
    ensures printable { IfOk result IsPrintable }
{
    let owner = context.view().owner(name);
    Ok(Response::ListRights {
        mailbox: context.shown(name)?,
        identifier: Octets::from_slice(context.alloc(), identifier.as_bytes())?,
        owner: identifier.as_bytes() == owner.as_str().as_bytes(),
    })
}
