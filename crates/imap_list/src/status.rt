//! STATUS (RFC 9051, section 6.3.11).

ghost use Rattle.std.specs.Prelude.{◌≡◌, IfOk, IfSome, map};
ghost use Rattle.std.specs.List.{list_any};
ghost use Rattle.imap_list.specs.Status as specs;
ghost use Rattle.imap_print.specs.Lines.{IsPrintable};

use imap_answer::{Answer, CommandContext, missing_right_refusal};
use imap_lex::Octets;
use imap_names::Name;
use imap_print::{EnabledCapabilities, Refusal, Response, StatusValue};
use imap_query::StatusItem;
use imap_syntax::Items;
use imap_view::Readable;
use std::alloc::{AllocError, Global};

/// Answers STATUS of a mailbox, as it is named in the command.
pub fn status_answer(
    context: &CommandContext<'_>,
    mailbox: &Octets,
    items: &Items<StatusItem>,
) -> Result<Answer, AllocError>
    ensures { let meant = specs.status_answer context.now.view context.now.tag mailbox.now items.now in
        IfOk result (λ answer. answer ≡ meant) }
{
    match context.name(mailbox)? {
        Some(name) => status_of_name(context, &name, items.as_slice()),
        None => context.refuse(Refusal::NonExistent),
    }
}

fn status_of_name(
    context: &CommandContext<'_>,
    name: &Name,
    items: &[StatusItem],
) -> Result<Answer, AllocError>
    ensures { let meant = specs.status_of_name context.now.view context.now.tag items.now name.now in
        IfOk result (λ answer. answer ≡ meant) }
{
    match status_line(context, name, items)? {
        Some(line) => {
            let answer = context.done_after_line(line)?;
            Ok(answer.enabling(enabled_by(items)))
        }
        None => context.refuse(missing_right_refusal(context.view().rights(&name.as_ref()))),
    }
}

/// The capabilities that are enabled by asking for these items: CONDSTORE by HIGHESTMODSEQ (RFC 7162, section
/// 3.1).
pub(crate) fn enabled_by(items: &[StatusItem]) -> EnabledCapabilities
    ensures { result ≡ specs.enabled_by items.now }
{
    EnabledCapabilities {
        condstore: has_highest(items),
        imap4rev2: false,
        qresync: false,
    }
}

fn has_highest(items: &[StatusItem]) -> bool
    ensures { result ≡ list_any specs.is_highest items.now }
{
    items
        .iter()
        .any(|item| matches!(item, StatusItem::HighestModSeq))
}

/// Returns the line with the numbers of the mailbox, or `None` if the user may not read it.
pub(crate) fn status_line(
    context: &CommandContext<'_>,
    name: &Name,
    items: &[StatusItem],
) -> Result<Option<Response>, AllocError>
    ensures line { IfOk result (λ line. line ≡ specs.status_in context.now.view items.now name.now) }
    ensures printable { IfOk result (λ line. IfSome line IsPrintable) }
{
    match context.view().readable(&name.as_ref()) {
        Some(mailbox) => {
            let values = status_values(context.alloc(), &mailbox, items)?;
            Ok(Some(Response::Status {
                mailbox: context.shown(name)?,
                items: Items::from_vec(values),
            }))
        }
        None => Ok(None),
    }
}

fn status_values(
    alloc: Global,
    mailbox: &Readable<'_>,
    items: &[StatusItem],
) -> Result<Vec<StatusValue>, AllocError>
    ensures { IfOk result (λ values. values.items ≡ map (specs.status_value mailbox.now) items.now) }
{
    let mut values = Vec::with_capacity(alloc, items.len())?;
    for item in items {
        values.push(StatusValue {
            item: *item,
            value: status_number(mailbox, *item),
        })?;
    }
    Ok(values)
}

fn status_number(mailbox: &Readable<'_>, item: StatusItem) -> u64
    ensures { result ≡ specs.status_number mailbox.now item }
{
    match item {
        StatusItem::Messages => mailbox.rows.len() as u64,
        StatusItem::UidNext => u64::from(mailbox.next_uid),
        StatusItem::UidValidity => u64::from(mailbox.validity),
        StatusItem::Unseen => mailbox.rows.unseen_len() as u64,
        StatusItem::Deleted => mailbox.rows.deleted_len() as u64,
        StatusItem::Size => mailbox.rows.size(),
        StatusItem::HighestModSeq => mailbox.highest,
    }
}
