//! COPY and MOVE, and their forms by UID (RFC 9051, sections 6.4.7, 6.4.8 and 6.4.9).

ghost use Rattle.std.specs.Prelude.{◌≡◌, ◌≤◌, ℕ, IfOk, Some};
ghost use Rattle.imap_changes.specs.Transfer as specs;
ghost use Rattle.imap_mailbox.specs.Order.{AreRowsInOrder};
ghost use Rattle.imap_mailbox.specs.Rows.{first_uid};
ghost use Rattle.imap_mailbox.specs.Summary.{Rises};
ghost use Rattle.imap_modseq.specs.Numbers.{max_events};
ghost use Rattle.imap_targets.specs.State.{selection_of, state_of};
ghost use Rattle.imap_view.specs.Seen.{shown};

use crate::copies::{Copies, copies_of_named};
use crate::copying::copy_messages;
use crate::moving::move_messages;
use crate::transfer_arguments::TransferArguments;
use crate::transfer_kind::TransferKind;
use imap_answer::{Answer, CommandContext};
use imap_names::Name;
use imap_print::Refusal;
use imap_rights::Rights;
use imap_targets::{
    Selected, Session, has_known_numbers, is_refused, is_saved, known_count, messages_named,
    target_refusal,
};
use imap_view::{Readable, Seen, View};
use std::alloc::AllocError;

/// Answers COPY, UID COPY, MOVE or UID MOVE of messages of the selected mailbox: all are copied or moved, or none. A
/// copy gets the flags for which the user holds the right on the target. One message that is named by its
/// number and is gone refuses the command; UIDs of messages that are gone are passed over.
pub fn transfer_answer(
    context: &CommandContext<'_>,
    session: &Session,
    arguments: &TransferArguments<'_>,
) -> Result<Answer, AllocError>
    ensures { let answer = specs.transfer_answer context.now.view (state_of session.now) context.now.tag in
        IfOk result (λ given. given ≡ answer arguments.now) }
{
    match &session.selected {
        Some(selected) => transfer_selected(context, arguments, selected),
        None => context.refuse(Refusal::WrongState),
    }
}

fn transfer_selected(
    context: &CommandContext<'_>,
    arguments: &TransferArguments<'_>,
    selected: &Selected,
) -> Result<Answer, AllocError>
    ensures { let answer = specs.transfer_selected context.now.view context.now.tag arguments.now in
        IfOk result (λ given. given ≡ answer (selection_of selected.now)) }
{
    let count = known_count(&selected.known);
    if !has_known_numbers(arguments.numbering, count, arguments.messages) {
        return context.refuse(Refusal::Malformed);
    }
    if is_saved(arguments.messages) {
        return context.refuse(Refusal::Cannot);
    }
    if !may_take(arguments.kind, context.view(), selected) {
        return context.refuse(Refusal::NoPerm);
    }
    match context.view().readable(&selected.name.as_ref()) {
        Some(mailbox) => transfer_readable(context, arguments, selected, &mailbox),
        None => context.refuse(Refusal::NonExistent),
    }
}

/// Whether the user may take messages away from the selected mailbox, if the command does.
fn may_take(kind: TransferKind, view: &View<'_>, selected: &Selected) -> bool
    ensures { result ≡ specs.may_take kind view.now (selection_of selected.now) }
{
    match kind {
        TransferKind::Copy => true,
        TransferKind::Move => !selected.read_only && holds_move_rights(view, selected),
    }
}

/// Whether the user holds `t` and `e`.
fn holds_move_rights(view: &View<'_>, selected: &Selected) -> bool
    ensures { result ≡ specs.holds_move_rights view.now (selection_of selected.now) }
{
    let rights = view.rights(&selected.name.as_ref());
    rights.has_any(Rights::DELETE_MESSAGES) && rights.has_any(Rights::EXPUNGE)
}

fn transfer_readable(
    context: &CommandContext<'_>,
    arguments: &TransferArguments<'_>,
    selected: &Selected,
    mailbox: &Readable<'_>,
) -> Result<Answer, AllocError>
    requires order { AreRowsInOrder mailbox.now.next_uid mailbox.now.highest mailbox.now.rows }
    requires few { mailbox.now.own ≤ max_events }
    ensures { let answer = specs.transfer_if_readable context.now.view context.now.tag arguments.now in
        IfOk result (λ given. given ≡ answer (selection_of selected.now) (Some mailbox.now)) }
{
    match context.name(arguments.mailbox)? {
        Some(name) => transfer_to_name(context, arguments, selected, mailbox, &name),
        None => context.refuse(Refusal::NonExistent),
    }
}

fn transfer_to_name(
    context: &CommandContext<'_>,
    arguments: &TransferArguments<'_>,
    selected: &Selected,
    mailbox: &Readable<'_>,
    name: &Name,
) -> Result<Answer, AllocError>
    requires order { AreRowsInOrder mailbox.now.next_uid mailbox.now.highest mailbox.now.rows }
    requires few { mailbox.now.own ≤ max_events }
    ensures { let s = selection_of selected.now in
        let answer = specs.transfer_to_name context.now.view context.now.tag arguments.now s mailbox.now in
        IfOk result (λ given. given ≡ answer name.now) }
{
    match context.view().seen(&name.as_ref()) {
        Some(target) => transfer_to_seen(context, arguments, selected, mailbox, name, &target),
        None => context.refuse(target_refusal(context.view(), name)),
    }
}

fn transfer_to_seen(
    context: &CommandContext<'_>,
    arguments: &TransferArguments<'_>,
    selected: &Selected,
    mailbox: &Readable<'_>,
    name: &Name,
    target: &Seen<'_>,
) -> Result<Answer, AllocError>
    requires order { AreRowsInOrder mailbox.now.next_uid mailbox.now.highest mailbox.now.rows }
    requires few { mailbox.now.own ≤ max_events }
    ensures { let s = selection_of selected.now in
        let answer = specs.transfer_to_seen context.now.view context.now.tag arguments.now s mailbox.now in
        IfOk result (λ given. given ≡ answer name.now (Some (shown target.now))) }
{
    if !target.rights().has_any(Rights::INSERT) {
        return context.refuse(target_refusal(context.view(), name));
    }
    let named = messages_named(
        context.alloc(),
        arguments.numbering,
        arguments.messages,
        mailbox.next_uid,
        &selected.known,
    )?;
    if is_refused(arguments.numbering, named.as_slice(), &mailbox.rows) {
        return context.refuse(Refusal::ExpungeIssued);
    }
    let copies = copies_of_named(
        context.alloc(),
        target.rights(),
        named.as_slice(),
        &mailbox.rows,
    )?;
    transfer_messages(
        context,
        arguments.kind,
        selected,
        mailbox,
        name,
        target,
        copies,
    )
}

fn transfer_messages(
    context: &CommandContext<'_>,
    kind: TransferKind,
    selected: &Selected,
    mailbox: &Readable<'_>,
    name: &Name,
    target: &Seen<'_>,
    copies: Copies,
) -> Result<Answer, AllocError>
    requires rise { (high : ℕ) × Rises first_uid high copies.uids.items }
    requires few { mailbox.now.own ≤ max_events }
    ensures { let s = selection_of selected.now in
        let answer = specs.transfer_messages kind context.now.view context.now.tag s mailbox.now name.now in
        IfOk result (λ given. given ≡ answer (shown target.now) copies.uids.items copies.messages.items) }
{
    match kind {
        TransferKind::Copy => copy_messages(context, name, target, copies),
        TransferKind::Move => move_messages(context, selected, mailbox, name, target, copies),
    }
}
