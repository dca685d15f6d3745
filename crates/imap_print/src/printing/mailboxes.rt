//! The properties of mailboxes.

ghost use Rattle.std.specs.Prelude.{◌≡◌, ◌++◌, IfOk, OnOk, map};
ghost use Rattle.imap_print.specs.declared.response.Response.TheVariants as response;
ghost use Rattle.imap_print.specs.Words.{before_each, GoesOn};
ghost use Rattle.imap_print.specs.Mailboxes.{children_words, attributes_text, value_text, values_text};
ghost use Rattle.imap_print.specs.Mailboxes.{entry_text, entries_text, grantable_text};
ghost use Rattle.imap_print.specs.Printed.{line_text};

use super::strings::push_name;
use super::words::push_given;
use crate::acl::AclEntry;
use crate::list::{Children, ListAttributes};
use crate::status::StatusValue;
use imap_lex::Octets;
use imap_rights::Rights;
use imap_syntax::{Keyword, push_number};
use std::alloc::AllocError;

fn push_children(out: &mut Vec<u8>, begun: bool, children: Children) -> Result<bool, AllocError>
    ensures { IfOk result (λ now. GoesOn out.old.items begun (children_words children) out.new.items now) }
{
    match children {
        Children::Omitted => Ok(begun),
        Children::Has => push_given(out, begun, true, b"\\HasChildren"),
        Children::HasNo => push_given(out, begun, true, b"\\HasNoChildren"),
    }
}

fn push_attributes(out: &mut Vec<u8>, attributes: ListAttributes) -> Result<(), AllocError>
    ensures { OnOk result (out.new.items ≡ out.old.items ++ attributes_text attributes) }
{
    out.push(b'(')?;
    let begun = push_given(out, false, attributes.non_existent, b"\\NonExistent")?;
    let begun = push_children(out, begun, attributes.children)?;
    push_given(out, begun, attributes.subscribed, b"\\Subscribed")?;
    out.push(b')')?;
    Ok(())
}

pub(super) fn push_list(
    out: &mut Vec<u8>,
    attributes: ListAttributes,
    mailbox: &Octets,
) -> Result<(), AllocError>
    ensures { OnOk result (out.new.items ≡ out.old.items
        ++ line_text (response.List attributes mailbox.now)) }
{
    out.extend_from_slice(b"* LIST ")?;
    push_attributes(out, attributes)?;
    out.extend_from_slice(b" \"/\" ")?;
    push_name(out, mailbox.as_slice())
}

fn push_value(out: &mut Vec<u8>, value: StatusValue) -> Result<(), AllocError>
    ensures { OnOk result (out.new.items ≡ out.old.items ++ value_text value) }
{
    out.extend_from_slice(value.item.name())?;
    out.push(b' ')?;
    push_number(out, value.value)
}

fn push_values(out: &mut Vec<u8>, values: &[StatusValue]) -> Result<(), AllocError>
    ensures { OnOk result (out.new.items ≡ out.old.items ++ values_text values.now) }
{
    out.push(b'(')?;
    if let [first, rest @ ..] = values {
        push_value(out, *first)?;
        push_further_values(out, rest)?;
    }
    out.push(b')')?;
    Ok(())
}

fn push_further_values(out: &mut Vec<u8>, values: &[StatusValue]) -> Result<(), AllocError>
    ensures { OnOk result (out.new.items ≡ out.old.items ++ before_each 32 (map value_text values.now)) }
{
    for value in values {
        out.push(b' ')?;
        push_value(out, *value)?;
    }
    Ok(())
}

pub(super) fn push_status(
    out: &mut Vec<u8>,
    mailbox: &Octets,
    items: &[StatusValue],
) -> Result<(), AllocError>
    ensures { OnOk result (out.new.items ≡ out.old.items
        ++ line_text (response.Status mailbox.now items.now)) }
{
    out.extend_from_slice(b"* STATUS ")?;
    push_name(out, mailbox.as_slice())?;
    out.push(b' ')?;
    push_values(out, items)
}

fn push_entry(out: &mut Vec<u8>, entry: &AclEntry) -> Result<(), AllocError>
    ensures { OnOk result (out.new.items ≡ out.old.items ++ entry_text entry.now) }
{
    push_name(out, entry.identifier.as_slice())?;
    out.push(b' ')?;
    entry.rights.push_letters(out)
}

fn push_entries(out: &mut Vec<u8>, entries: &[AclEntry]) -> Result<(), AllocError>
    ensures { OnOk result (out.new.items ≡ out.old.items ++ entries_text entries.now) }
{
    for entry in entries {
        out.push(b' ')?;
        push_entry(out, entry)?;
    }
    Ok(())
}

pub(super) fn push_acl(
    out: &mut Vec<u8>,
    mailbox: &Octets,
    entries: &[AclEntry],
) -> Result<(), AllocError>
    ensures { OnOk result (out.new.items ≡ out.old.items
        ++ line_text (response.Acl mailbox.now entries.now)) }
{
    out.extend_from_slice(b"* ACL ")?;
    push_name(out, mailbox.as_slice())?;
    push_entries(out, entries)
}

pub(super) fn push_my_rights(
    out: &mut Vec<u8>,
    mailbox: &Octets,
    rights: Rights,
) -> Result<(), AllocError>
    ensures { OnOk result (out.new.items ≡ out.old.items
        ++ line_text (response.MyRights mailbox.now rights)) }
{
    out.extend_from_slice(b"* MYRIGHTS ")?;
    push_name(out, mailbox.as_slice())?;
    out.push(b' ')?;
    rights.push_letters(out)
}

fn push_grantable(out: &mut Vec<u8>, owner: bool) -> Result<(), AllocError>
    ensures { OnOk result (out.new.items ≡ out.old.items ++ grantable_text owner) }
{
    if owner {
        out.extend_from_slice(b"la r s w i p k x t e")
    } else {
        out.extend_from_slice(b"\"\" l r s w i p k x t e a")
    }
}

pub(super) fn push_list_rights(
    out: &mut Vec<u8>,
    mailbox: &Octets,
    identifier: &Octets,
    owner: bool,
) -> Result<(), AllocError>
    ensures { OnOk result (out.new.items ≡ out.old.items
        ++ line_text (response.ListRights mailbox.now identifier.now owner)) }
{
    out.extend_from_slice(b"* LISTRIGHTS ")?;
    push_name(out, mailbox.as_slice())?;
    out.push(b' ')?;
    push_name(out, identifier.as_slice())?;
    out.push(b' ')?;
    push_grantable(out, owner)?;
    Ok(())
}
