//! STORE and UID STORE (RFC 9051, sections 6.4.6 and 6.4.9; RFC 7162, section 3.1.3).

ghost use Rattle.std.specs.Prelude.{◌≡◌, ◌≤◌, IfOk, Some, map};
ghost use Rattle.std.specs.List.{AllByRecursion};
ghost use Rattle.imap_answer.specs.Answer.{carried_out, enabling, telling};
ghost use Rattle.imap_changes.specs.Store as specs;
ghost use Rattle.imap_mailbox.specs.Order.{AreRowsInOrder};
ghost use Rattle.imap_mailbox.specs.Summary.{AreRising};
ghost use Rattle.imap_modseq.specs.Numbers.{max_events, max_number};
ghost use Rattle.imap_print.specs.Lines.{IsPrintable};
ghost use Rattle.imap_rights.specs.Rights.{bits};
ghost use Rattle.imap_targets.specs.State.{selection_of, state_of};
ghost use Rattle.imap_targets.specs.Effects.{marking_effect};
ghost use Rattle.imap_targets.specs.MessageNumbers.{uids_of};

use crate::store_flags::lacks_right;
use crate::store_lines::store_lines;
use crate::store_outcome::{
    StoreOutcome, flag_changes, marks_of, seen_changes, stored_all, uids_of,
};
use crate::unchanged_since::{enabled_by, modified_code};
use imap_answer::{Answer, CommandContext};
use imap_grammar::StoreSpec;
use imap_modseq::MAX_EVENTS;
use imap_print::{EnabledCapabilities, Refusal, Response};
use imap_rights::Rights;
use imap_syntax::{MessageSet, Numbering};
use imap_targets::{
    Numbered, Selected, Session, has_known_numbers, is_refused, is_saved, known_count,
    lacks_events, marking_effect, messages_named, remove_skipped, skipped_numbers, storing_rights,
};
use imap_values::beside;
use imap_view::Readable;
use imap_world::Effect;
use std::alloc::AllocError;
use std::marker::Model;

/// The arguments of STORE, as they stand in the command.
#[derive(Drop)]
pub struct StoreArguments<'a> {
    pub numbering: Numbering,
    pub messages: &'a MessageSet,
    pub spec: &'a StoreSpec,
}

impl<'a> Model for StoreArguments<'a> {
    ghost use Rattle.std.specs.Prelude.{refl};
    ghost use Rattle.std.specs.Coded.{code_by, codes};
    ghost use Rattle.imap_changes.specs.Store as specs;
    ghost use Rattle.imap_commands.specs.contracts.commands.store.StoreSpec.{the_row as spec_row};
    ghost use Rattle.imap_commands.specs.declared.commands.store.StoreSpec.{StoreSpec};
    ghost use Rattle.imap_syntax.specs.contracts.set.MessageSet.{the_row as messages_row};
    ghost use Rattle.imap_syntax.specs.contracts.set.Numbering.{the_row as numbering_row};
    ghost use Rattle.imap_syntax.specs.declared.set.MessageSet.{MessageSet};
    ghost use Rattle.imap_syntax.specs.declared.set.Numbering.{Numbering};

    ghost Value = { specs.StoreArguments };

    ghost coded = { code_by (Numbering × (MessageSet × StoreSpec))
        (Prim.hlevel (codes, numbering_row.coded, messages_row.coded, spec_row.coded))
        (λ s. (s.numbering, (s.messages, s.spec)))
        (λ p. record { numbering = p.0; messages = p.1.0; spec = p.1.1 }) (λ _. refl) };

    ghost view = { λ s. record {
      numbering = s.numbering;
      messages = s.messages.now;
      spec = s.spec.now;
    } };
}

/// Answers STORE, or UID STORE, of messages of the selected mailbox: flags for which the user lacks the right
/// stay as they are. One message that is named by its number and is gone refuses the command; UIDs of messages
/// that are gone are passed over. Messages with a mod-sequence greater than that of UNCHANGEDSINCE stay as they are,
/// and the code MODIFIED of the last line has their numbers, or their UIDs. UNCHANGEDSINCE enables CONDSTORE.
pub fn store_answer(
    context: &CommandContext<'_>,
    session: &Session,
    arguments: &StoreArguments<'_>,
) -> Result<Answer, AllocError>
    ensures { let answer = specs.store_answer context.now.view (state_of session.now) context.now.tag in
        IfOk result (λ given. given ≡ answer arguments.now) }
{
    match &session.selected {
        Some(selected) => store_selected(context, session.enabled, arguments, selected),
        None => context.refuse(Refusal::WrongState),
    }
}

fn store_selected(
    context: &CommandContext<'_>,
    enabled: EnabledCapabilities,
    arguments: &StoreArguments<'_>,
    selected: &Selected,
) -> Result<Answer, AllocError>
    ensures { let answer = specs.store_selected context.now.view enabled context.now.tag arguments.now in
        IfOk result (λ given. given ≡ answer (selection_of selected.now)) }
{
    let count = known_count(&selected.known);
    if !has_known_numbers(arguments.numbering, count, arguments.messages) {
        return context.refuse(Refusal::Malformed);
    }
    if is_saved(arguments.messages) {
        return context.refuse(Refusal::Cannot);
    }
    let rights = storing_rights(context.view(), selected);
    if lacks_right(rights, arguments.spec.flags.as_slice()) {
        return context.refuse(Refusal::NoPerm);
    }
    match context.view().readable(&selected.name.as_ref()) {
        Some(mailbox) => store_readable(context, enabled, arguments, rights, selected, &mailbox),
        None => context.refuse(Refusal::NonExistent),
    }
}

fn store_readable(
    context: &CommandContext<'_>,
    enabled: EnabledCapabilities,
    arguments: &StoreArguments<'_>,
    rights: Rights,
    selected: &Selected,
    mailbox: &Readable<'_>,
) -> Result<Answer, AllocError>
    requires order { AreRowsInOrder mailbox.now.next_uid mailbox.now.highest mailbox.now.rows }
    requires few { mailbox.now.own ≤ max_events }
    requires bounded { mailbox.now.highest ≤ max_number }
    ensures { let store = specs.store_if_readable context.now.view enabled context.now.tag in
        let answer = store arguments.now (bits rights) (selection_of selected.now) (Some mailbox.now) in
        IfOk result (λ given. given ≡ answer) }
{
    let named = messages_named(
        context.alloc(),
        arguments.numbering,
        arguments.messages,
        mailbox.next_uid,
        &selected.known,
    )?;
    if is_refused(arguments.numbering, named.as_slice(), &mailbox.rows) {
        return context.refuse(Refusal::ExpungeIssued);
    }
    store_named(
        context, enabled, arguments, rights, selected, mailbox, named,
    )
}

/// Answers STORE of these messages, of which each is there or is named by its UID.
fn store_named(
    context: &CommandContext<'_>,
    enabled: EnabledCapabilities,
    arguments: &StoreArguments<'_>,
    rights: Rights,
    selected: &Selected,
    mailbox: &Readable<'_>,
    mut named: Vec<Numbered>,
) -> Result<Answer, AllocError>
    requires rise { AreRising (uids_of named.items) }
    requires order { AreRowsInOrder mailbox.now.next_uid mailbox.now.highest mailbox.now.rows }
    requires few { mailbox.now.own ≤ max_events }
    requires bounded { mailbox.now.highest ≤ max_number }
    ensures { let store = specs.store_unskipped context.now.view enabled context.now.tag in
        let answer = store arguments.now (bits rights) (selection_of selected.now) mailbox.now in
        IfOk result (λ given. given ≡ answer named.items) }
{
    let alloc = context.alloc();
    let spec = arguments.spec;
    let since = spec.unchanged_since;
    let rows = &mailbox.rows;
    let skipped = skipped_numbers(alloc, arguments.numbering, since, rows, named.as_slice())?;
    remove_skipped(&mut named, since, rows);
    match stored_all(alloc, rights, spec, selected, rows, named.as_slice())? {
        Some(stored) => store_messages(
            context,
            enabled,
            arguments,
            selected,
            mailbox,
            skipped,
            stored.as_slice(),
        ),
        None => context.refuse(Refusal::Limit),
    }
}

/// Whether the mailbox has no event left for one of the changes.
fn lacks_changes(mailbox: &Readable<'_>, messages: &[StoreOutcome]) -> bool
    requires { mailbox.now.own ≤ max_events }
    ensures { result ≡ specs.lacks_changes mailbox.now messages.now }
{
    lacks_events(mailbox, flag_changes(messages))
        || MAX_EVENTS < mailbox.own + seen_changes(messages)
}

fn store_messages(
    context: &CommandContext<'_>,
    enabled: EnabledCapabilities,
    arguments: &StoreArguments<'_>,
    selected: &Selected,
    mailbox: &Readable<'_>,
    skipped: Vec<u32>,
    messages: &[StoreOutcome],
) -> Result<Answer, AllocError>
    requires rise { AreRising (map (λ m. m.uid) messages.now) }
    requires few { mailbox.now.own ≤ max_events }
    requires bounded { mailbox.now.highest ≤ max_number }
    ensures { let answer = specs.store_events context.now.view enabled context.now.tag arguments.now in
        let stored = answer (selection_of selected.now) mailbox.now skipped.items messages.now in
        IfOk result (λ given. given ≡ stored) }
{
    if lacks_changes(mailbox, messages) {
        return context.refuse(Refusal::Limit);
    }
    let effect = flags_effect(context, selected, messages)?;
    let lines = store_lines(
        context.alloc(),
        arguments.spec.silent,
        enabled.condstore || arguments.spec.unchanged_since.is_some(),
        mailbox.highest,
        messages,
    );
    let (lines, effect) = beside(lines, effect)?;
    store_carried_out(context, arguments.spec, skipped, messages, lines, effect)
}

/// Answers STORE of these messages, which is carried out by the effect, with these lines.
fn store_carried_out(
    context: &CommandContext<'_>,
    spec: &StoreSpec,
    skipped: Vec<u32>,
    messages: &[StoreOutcome],
    lines: Vec<Response>,
    effect: Option<Effect>,
) -> Result<Answer, AllocError>
    requires rise { AreRising (map (λ m. m.uid) messages.now) }
    requires printable { AllByRecursion IsPrintable lines.items }
    ensures { let code = specs.modified_code skipped.items in
        let made = carried_out lines.items context.now.tag code effect in
        let answer = telling (map (λ m. m.uid) messages.now) made in
        IfOk result (λ given. given ≡ enabling (specs.enabled_by spec.now) answer) }
{
    let (told, (lines, effect)) = beside(uids_of(context.alloc(), messages), (lines, effect))?;
    let answer = context.carried_out(lines, modified_code(skipped), effect)?;
    Ok(answer.telling(told).enabling(enabled_by(spec)))
}

/// The effect that changes the flags, if one changes.
fn flags_effect(
    context: &CommandContext<'_>,
    selected: &Selected,
    messages: &[StoreOutcome],
) -> Result<Option<Effect>, AllocError>
    ensures { let effect = marking_effect context.now.view.user (selection_of selected.now).name in
        IfOk result (λ given. given ≡ effect (specs.marks_of messages.now)) }
{
    let marks = marks_of(context.alloc(), messages)?;
    marking_effect(
        context.alloc(),
        context.view().user(),
        &selected.name,
        marks,
    )
}
