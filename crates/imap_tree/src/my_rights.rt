//! MYRIGHTS (RFC 4314, section 3.5).

ghost use Rattle.std.specs.Prelude.{◌≡◌, IfOk};
ghost use Rattle.imap_tree.specs.MyRights as specs;

use imap_answer::{Answer, CommandContext};
use imap_lex::Octets;
use imap_names::Name;
use imap_print::{Refusal, Response};
use std::alloc::AllocError;

/// Answers MYRIGHTS of a mailbox, as it is named in the command.
pub fn my_rights_answer(
    context: &CommandContext<'_>,
    mailbox: &Octets,
) -> Result<Answer, AllocError>
    ensures { let meant = specs.my_rights_answer context.now.view context.now.tag mailbox.now in
        IfOk result (λ answer. answer ≡ meant) }
{
    match context.name(mailbox)? {
        Some(name) => my_rights_of_name(context, &name),
        None => context.refuse(Refusal::NonExistent),
    }
}

fn my_rights_of_name(context: &CommandContext<'_>, name: &Name) -> Result<Answer, AllocError>
    ensures { IfOk result (λ answer.
        answer ≡ specs.my_rights_of_name context.now.view context.now.tag name.now) }
{
    match context.view().seen(&name.as_ref()) {
        Some(seen) => {
            let line = Response::MyRights {
                mailbox: context.shown(name)?,
                rights: seen.rights(),
            };
            context.done_after_line(line)
        }
        None => context.refuse(Refusal::NonExistent),
    }
}
