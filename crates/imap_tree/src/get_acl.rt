//! GETACL (RFC 4314, section 3.3).

ghost use Rattle.std.specs.Prelude.{◌≡◌, IfOk, map};
ghost use Rattle.imap_print.specs.Lines.{IsPlain, IsPrintable};
ghost use Rattle.imap_rights.specs.Entries.{pairs_of};
ghost use Rattle.imap_rights.specs.Rights.{bits};
ghost use Rattle.imap_tree.specs.GetAcl as specs;

use imap_answer::{Answer, CommandContext, missing_right_refusal};
use imap_lex::Octets;
use imap_names::Name;
use imap_print::{AclEntry, Refusal, Response};
use imap_rights::{Acl, Entry};
use imap_syntax::Items;
use std::alloc::{AllocError, Global};

/// Answers GETACL of a mailbox, as it is named in the command.
pub fn get_acl_answer(context: &CommandContext<'_>, mailbox: &Octets) -> Result<Answer, AllocError>
    ensures { let meant = specs.get_acl_answer context.now.view context.now.tag mailbox.now in
        IfOk result (λ answer. answer ≡ meant) }
{
    match context.name(mailbox)? {
        Some(name) => get_acl_of_name(context, &name),
        None => context.refuse(Refusal::NonExistent),
    }
}

fn get_acl_of_name(context: &CommandContext<'_>, name: &Name) -> Result<Answer, AllocError>
    ensures { IfOk result (λ answer.
        answer ≡ specs.get_acl_of_name context.now.view context.now.tag name.now) }
{
    match context.view().acl(&name.as_ref()) {
        Some(acl) => context.done_after_line(acl_line(context, name, acl)?),
        None => context.refuse(missing_right_refusal(context.view().rights(&name.as_ref()))),
    }
}

fn acl_line(context: &CommandContext<'_>, name: &Name, acl: &Acl) -> Result<Response, AllocError>
    ensures line { IfOk result (λ line. line ≡ specs.acl_line context.now.view.user name.now acl.now) }
    ensures printable { IfOk result IsPrintable }
{
    let entries = printed_entries(context.alloc(), acl.entries())?;
    Ok(Response::Acl {
        mailbox: context.shown(name)?,
        entries: Items::from_vec(entries),
    })
}

fn printed_entries(alloc: Global, entries: &[Entry]) -> Result<Vec<AclEntry>, AllocError>
    ensures entries { IfOk result (λ printed. printed.items ≡ map specs.acl_entry (pairs_of entries.now)) }
    ensures plain { IfOk result (λ printed. specs.ArePlain printed.items) }
{
    let mut printed = Vec::with_capacity(alloc, entries.len())?;
    for entry in entries {
        printed.push(printed_entry(alloc, entry)?)?;
    }
    Ok(printed)
}

fn printed_entry(alloc: Global, entry: &Entry) -> Result<AclEntry, AllocError>
    ensures entry { IfOk result
        (λ printed. printed ≡ specs.acl_entry (entry.now.identifier, bits entry.now.rights)) }
    ensures plain { IsPlain entry.now.identifier }
{
    Ok(AclEntry {
        identifier: Octets::from_slice(alloc, entry.identifier.as_bytes())?,
        rights: entry.rights,
    })
}
