//! FETCH and UID FETCH (RFC 9051, sections 6.4.5 and 6.4.9).
//!
//! The known messages between the first and the last of the set are tested, and each named one is looked up
//! by halving: one message costs a few searches, `1,20000` a test of all between.

ghost use Rattle.std.specs.Prelude.{◌≡◌, ◌≤◌, ◌&&◌, not, is_none, is_some, option_map, Some, None, IfOk, IfSome};
ghost use Rattle.std.specs.List.{AllByRecursion, list_any};
ghost use Rattle.imap_answer.specs.Answer.{carried_out, enabling, preceded_by, telling};
ghost use Rattle.imap_mailbox.specs.Summary.{AreRising};
ghost use Rattle.imap_mailbox.specs.Lent.{row_shown, row_uids};
ghost use Rattle.imap_mailbox.specs.Order.{AreAtMost, AreRowsInOrder};
ghost use Rattle.imap_messages.specs.Changed.{changed_of, fetched_set, vanished_lines};
ghost use Rattle.imap_messages.specs.Changed as changed;
ghost use Rattle.imap_messages.specs.Fetch as specs;
ghost use Rattle.imap_messages.specs.Found.{IsReading};
ghost use Rattle.imap_targets.specs.Effects.{marking_effect};
ghost use Rattle.imap_modseq.specs.Numbers.{max_events, max_number};
ghost use Rattle.imap_targets.specs.MessageNumbers.{is_by_uid as by_uid_in, is_refused, ranges_of, row_with};
ghost use Rattle.imap_targets.specs.Spans.{named_in};
ghost use Rattle.imap_print.specs.Lines.{IsPrintable};
ghost use Rattle.imap_rights.specs.Rights.{has_any, seen};
ghost use Rattle.imap_targets.specs.Held.{UidsRise};
ghost use Rattle.imap_targets.specs.State.{selection_of, state_of};
ghost use Rattle.imap_view.specs.View.{rights_in};

use crate::changed::{may_skip, next_to_read};
use crate::reading::Reading;
use crate::wanted::Wanted;
use imap_answer::{Answer, CommandContext};
use imap_mailbox::{Row, Rows};
use imap_names::Name;
use imap_print::{EnabledCapabilities, Refusal, Response};
use imap_query::FetchItem;
use imap_resync::{UidSet, vanished_lines};
use imap_rights::Rights;
use imap_syntax::{Items, MessageSet, Numbering};
use imap_targets::{
    KnownList, MessageNumbers, RowFinder, Selected, Session, has_known_numbers, is_by_uid,
    is_saved, known_count, last_of, marking_effect, number_at, ranges_of,
};
use imap_values::beside;
use imap_view::{Readable, View};
use std::alloc::{AllocError, Global};
use std::marker::Model;

/// The arguments of FETCH, as they stand in the command.
#[derive(Drop)]
pub struct FetchArguments<'a> {
    pub numbering: Numbering,
    pub messages: &'a MessageSet,
    pub items: &'a Items<FetchItem>,
    /// CHANGEDSINCE (RFC 7162, section 3.1.4.1).
    pub changed_since: Option<u64>,
    /// VANISHED (RFC 7162, section 3.2.6).
    pub vanished: bool,
}

impl<'a> Model for FetchArguments<'a> {
    ghost use Rattle.std.specs.Prelude.{ℕ, Bool, List, Option, refl};
    ghost use Rattle.std.specs.Coded.{code_by, codes};
    ghost use Rattle.imap_messages.specs.Changed.{changed_of, fetched_set, vanished_lines};
    ghost use Rattle.imap_messages.specs.Changed as changed;
    ghost use Rattle.imap_messages.specs.Fetch as specs;
    ghost use Rattle.imap_query.specs.contracts.fetch.FetchItem.{the_row as item_row};
    ghost use Rattle.imap_query.specs.declared.fetch.FetchItem.{FetchItem};
    ghost use Rattle.imap_syntax.specs.contracts.set.MessageSet.{the_row as messages_row};
    ghost use Rattle.imap_syntax.specs.contracts.set.Numbering.{the_row as numbering_row};
    ghost use Rattle.imap_syntax.specs.declared.set.MessageSet.{MessageSet};
    ghost use Rattle.imap_syntax.specs.declared.set.Numbering.{Numbering};

    ghost Value = { specs.FetchArguments };

    ghost coded = { code_by (Numbering × (MessageSet × (List FetchItem × (Option ℕ × Bool))))
        (Prim.hlevel (codes, numbering_row.coded, messages_row.coded, item_row.coded))
        (λ f. (f.numbering, (f.messages, (f.items, (f.changed_since, f.vanished)))))
        (λ p. record {
          numbering = p.0;
          messages = p.1.0;
          items = p.1.1.0;
          changed_since = p.1.1.1.0;
          vanished = p.1.1.1.1;
        }) (λ _. refl) };

    ghost view = { λ f. record {
      numbering = f.numbering;
      messages = f.messages.now;
      items = f.items.now;
      changed_since = f.changed_since;
      vanished = f.vanished;
    } };
}

/// Answers FETCH, or UID FETCH, of messages of the selected mailbox. Messages have the numbers by which the
/// session knows them. One that is named by its number and is gone refuses the command; UIDs of messages that
/// are gone are passed over.
pub fn fetch_answer(
    context: &CommandContext<'_>,
    session: &Session,
    arguments: &FetchArguments<'_>,
) -> Result<Answer, AllocError>
    ensures { let answer = specs.fetch_answer context.now.view (state_of session.now) context.now.tag in
        IfOk result (λ given. given ≡ answer arguments.now) }
{
    match &session.selected {
        Some(selected) => fetch_selected(context, session.enabled, arguments, selected),
        None => context.refuse(Refusal::WrongState),
    }
}

fn fetch_selected(
    context: &CommandContext<'_>,
    enabled: EnabledCapabilities,
    arguments: &FetchArguments<'_>,
    selected: &Selected,
) -> Result<Answer, AllocError>
    ensures { let answer = specs.fetch_selected context.now.view enabled context.now.tag arguments.now in
        IfOk result (λ given. given ≡ answer (selection_of selected.now)) }
{
    if is_malformed(enabled, known_count(&selected.known), arguments) {
        return context.refuse(Refusal::Malformed);
    }
    if is_impossible(arguments) {
        return context.refuse(Refusal::Cannot);
    }
    match context.view().readable(&selected.name.as_ref()) {
        Some(mailbox) => fetch_readable(context, enabled, arguments, selected, &mailbox),
        None => context.refuse(Refusal::NonExistent),
    }
}

/// Whether a number is that of no message, or VANISHED may not be asked for.
fn is_malformed(enabled: EnabledCapabilities, count: u32, arguments: &FetchArguments<'_>) -> bool
    ensures { result ≡ specs.is_malformed enabled count arguments.now }
{
    (arguments.vanished && !may_ask_vanished(enabled, arguments))
        || !has_known_numbers(arguments.numbering, count, arguments.messages)
}

fn may_ask_vanished(enabled: EnabledCapabilities, arguments: &FetchArguments<'_>) -> bool
    ensures { result ≡ specs.may_ask_vanished enabled arguments.now }
{
    enabled.qresync && (is_by_uid(arguments.numbering) && arguments.changed_since.is_some())
}

/// Whether an item isn't served, or the set is `$`.
fn is_impossible(arguments: &FetchArguments<'_>) -> bool
    ensures { result ≡ specs.is_impossible arguments.now }
{
    has_unserved(arguments.items.as_slice()) || is_saved(arguments.messages)
}

fn has_unserved(items: &[FetchItem]) -> bool
    ensures { result ≡ list_any specs.is_unserved items.now }
{
    items.iter().any(|item| matches!(item, FetchItem::Unserved))
}

/// Whether an item is read, and not only peeked at.
fn is_reading(items: &[FetchItem]) -> bool
    ensures { result ≡ list_any specs.is_reading items.now }
{
    items.iter().any(|item| matches!(item, FetchItem::Section(body) if !body.peek))
}

/// Whether the command sets `\Seen` of the messages.
fn sets_seen(view: &View<'_>, selected: &Selected, arguments: &FetchArguments<'_>) -> bool
    ensures { result ≡ specs.sets_seen view.now (selection_of selected.now) arguments.now }
{
    is_reading(arguments.items.as_slice()) && may_set_seen(view, selected)
}

/// Whether the user may set `\Seen` of messages of the selected mailbox.
fn may_set_seen(view: &View<'_>, selected: &Selected) -> bool
    ensures { let rights = rights_in view.now selected.now.name in
        result ≡ (not selected.now.read_only && has_any rights seen) }
{
    !selected.read_only && view.rights(&selected.name.as_ref()).has_any(Rights::SEEN)
}

fn fetch_readable(
    context: &CommandContext<'_>,
    enabled: EnabledCapabilities,
    arguments: &FetchArguments<'_>,
    selected: &Selected,
    mailbox: &Readable<'_>,
) -> Result<Answer, AllocError>
    requires order { AreRowsInOrder mailbox.now.next_uid mailbox.now.highest mailbox.now.rows }
    requires few { mailbox.now.own ≤ max_events }
    requires bounded { mailbox.now.highest ≤ max_number }
    ensures { let s = selection_of selected.now in
        let answer = specs.fetch_messages context.now.view enabled context.now.tag arguments.now s in
        let messages = specs.messages_of arguments.now s.known mailbox.now in
        IfOk result (λ given. given ≡ answer mailbox.now messages) }
{
    let wanted = wanted_by(context.alloc(), enabled, arguments)?;
    let messages = MessageNumbers {
        numbering: arguments.numbering,
        last: last_of(arguments.numbering, mailbox.next_uid, &selected.known),
        ranges: ranges_of(arguments.messages),
    };
    let sets = sets_seen(context.view(), selected, arguments);
    match read_messages(
        context.alloc(),
        &messages,
        arguments.changed_since,
        &wanted,
        &selected.known,
        mailbox,
        sets,
    )? {
        Some(reading) => answer_of_changed(
            context,
            arguments,
            &selected.name,
            mailbox.next_uid,
            reading,
        ),
        None => context.refuse(Refusal::ExpungeIssued),
    }
}

/// Returns what is sent of each message. A session that enabled CONDSTORE, or that this command enables it for, is
/// sent mod-sequences.
fn wanted_by(
    alloc: Global,
    enabled: EnabledCapabilities,
    arguments: &FetchArguments<'_>,
) -> Result<Wanted, AllocError>
    ensures { IfOk result (λ wanted. wanted ≡ specs.wanted_by enabled arguments.now) }
{
    Wanted::of_items(
        alloc,
        is_by_uid(arguments.numbering),
        enabled.condstore || arguments.changed_since.is_some(),
        arguments.items.as_slice(),
    )
}

/// The answer of a FETCH that has read its messages, after the line of those that went.
fn answer_of_changed(
    context: &CommandContext<'_>,
    arguments: &FetchArguments<'_>,
    name: &Name,
    next_uid: u32,
    reading: Reading,
) -> Result<Answer, AllocError>
    requires lines { AllByRecursion IsPrintable reading.lines.items }
    requires told { AreRising reading.told.items }
    ensures { let asks = marking_effect context.now.view.user name.now reading.marks.items in
        let answer = carried_out reading.lines.items context.now.tag None asks in
        let enabled = enabling (specs.enabled_by arguments.now) answer in
        let uids = fetched_set (ranges_of arguments.now.messages) next_uid in
        let front = vanished_lines context.now.view name.now arguments.now.vanished in
        let front = front arguments.now.changed_since uids in
        IfOk result (λ given. given ≡ preceded_by front (telling reading.told.items enabled)) }
{
    let front = vanished_of(context, arguments, name, next_uid)?;
    let (answer, front) = beside(answer_of_reading(context, arguments, name, reading), front)?;
    answer.preceded_by(front)
}

fn answer_of_reading(
    context: &CommandContext<'_>,
    arguments: &FetchArguments<'_>,
    name: &Name,
    reading: Reading,
) -> Result<Answer, AllocError>
    requires lines { AllByRecursion IsPrintable reading.lines.items }
    requires told { AreRising reading.told.items }
    ensures { let asks = marking_effect context.now.view.user name.now reading.marks.items in
        let answer = carried_out reading.lines.items context.now.tag None asks in
        let enabled = enabling (specs.enabled_by arguments.now) answer in
        IfOk result (λ given. given ≡ telling reading.told.items enabled) }
{
    let Reading {
        lines,
        marks,
        told,
        ..
    } = reading;
    let effect = marking_effect(context.alloc(), context.view().user(), name, marks);
    let (effect, (lines, told)) = beside(effect, (lines, told))?;
    let answer = context.carried_out(lines, None, effect)?;
    let answer = answer.enabling(enabled_by(arguments));
    Ok(answer.telling(told))
}

/// The capabilities that the command enables: CONDSTORE by MODSEQ and by CHANGEDSINCE (RFC 7162, section 3.1).
fn enabled_by(arguments: &FetchArguments<'_>) -> EnabledCapabilities
    ensures { result ≡ specs.enabled_by arguments.now }
{
    EnabledCapabilities {
        condstore: has_mod_seq(arguments.items.as_slice()) || arguments.changed_since.is_some(),
        imap4rev2: false,
        qresync: false,
    }
}

fn has_mod_seq(items: &[FetchItem]) -> bool
    ensures { result ≡ list_any specs.is_mod_seq items.now }
{
    items.iter().any(|item| matches!(item, FetchItem::ModSeq))
}

/// The line of the messages that went, if it is asked for (RFC 7162, section 3.2.6).
fn vanished_of(
    context: &CommandContext<'_>,
    arguments: &FetchArguments<'_>,
    name: &Name,
    next_uid: u32,
) -> Result<Vec<Response>, AllocError>
    ensures lines { let uids = fetched_set (ranges_of arguments.now.messages) next_uid in
        let meant = vanished_lines context.now.view name.now arguments.now.vanished in
        IfOk result (λ lines. lines.items ≡ meant arguments.now.changed_since uids) }
    ensures printable { IfOk result (λ lines. AllByRecursion IsPrintable lines.items) }
{
    match arguments.changed_since {
        Some(since) => {
            if arguments.vanished {
                let uids = Some(fetched_set(arguments, next_uid));
                vanished_lines(context, name, since, &uids)
            } else {
                Ok(Vec::new(context.alloc()))
            }
        }
        None => Ok(Vec::new(context.alloc())),
    }
}

/// The UIDs of the command, in which `*` stands for the greatest one that was ever given.
fn fetched_set<'a>(arguments: &FetchArguments<'a>, next_uid: u32) -> UidSet<'a>
    ensures { result ≡ fetched_set (ranges_of arguments.now.messages) next_uid }
{
    UidSet {
        last: next_uid.saturating_sub(1),
        ranges: ranges_of(arguments.messages),
    }
}

/// Reads the messages that changed, or returns `None` if one that is named by its number is gone. Reads nothing for
/// UIDs if HIGHESTMODSEQ isn't greater than `since`.
fn read_messages(
    alloc: Global,
    messages: &MessageNumbers<'_>,
    since: Option<u64>,
    wanted: &Wanted,
    known: &KnownList,
    mailbox: &Readable<'_>,
    sets: bool,
) -> Result<Option<Reading>, AllocError>
    requires order { AreRising (row_uids mailbox.now.rows) }
    requires numbers { AreAtMost mailbox.now.highest mailbox.now.rows }
    requires few { mailbox.now.own ≤ max_events }
    requires bounded { mailbox.now.highest ≤ max_number }
    ensures refused { let rows = mailbox.now.rows in
        let refused = is_refused (by_uid_in messages.now.numbering) rows in
        IfOk result (λ r. is_none r ≡ refused (named_in messages.now known.now.list)) }
    ensures known { UidsRise known.now.list }
    ensures read { let mailbox = mailbox.now in
        let named = changed_of since mailbox.rows (named_in messages.now known.now.list) in
        IfOk result (λ r. IfSome r (IsReading wanted.now sets mailbox named)) }
{
    let _count = known.len();
    if is_by_uid(messages.numbering) && is_up_to_date(since, mailbox.highest) {
        let reading = Reading::new(alloc, sets, mailbox.highest, mailbox.own);
        return Ok(Some(reading));
    }
    read_named(alloc, messages, since, wanted, known, mailbox, sets)
}

/// Reads the messages that changed, or returns `None` if one that is named by its number is gone. Tests each known
/// message between the first and the last of the set.
fn read_named(
    alloc: Global,
    messages: &MessageNumbers<'_>,
    since: Option<u64>,
    wanted: &Wanted,
    known: &KnownList,
    mailbox: &Readable<'_>,
    sets: bool,
) -> Result<Option<Reading>, AllocError>
    requires order { AreRising (row_uids mailbox.now.rows) }
    requires few { mailbox.now.own ≤ max_events }
    requires bounded { mailbox.now.highest ≤ max_number }
    ensures refused { let rows = mailbox.now.rows in
        let refused = is_refused (by_uid_in messages.now.numbering) rows in
        IfOk result (λ r. is_none r ≡ refused (named_in messages.now known.now.list)) }
    ensures read { let mailbox = mailbox.now in
        let named = changed_of since mailbox.rows (named_in messages.now known.now.list) in
        IfOk result (λ r. IfSome r (IsReading wanted.now sets mailbox named)) }
{
    let by_uid = is_by_uid(messages.numbering);
    let mut reading = Reading::new(alloc, sets, mailbox.highest, mailbox.own);
    let mut finder = RowFinder::start();
    let (start, end) = messages.span(known);
    let skips = may_skip(by_uid, since, known, start, end, &mailbox.rows);
    let mut next = start;
    for index in start..end {
        if index < next {
            continue;
        }
        next = next_to_read(skips, since, known, index, &mailbox.rows);
        if index < next {
            continue;
        }
        let number = number_at(known, index);
        let uid = known.uid(index);
        if !messages.has(number, uid) {
            continue;
        }
        if passes_over(&mut finder, since, &mailbox.rows, uid) {
            continue;
        }
        let row = finder.find(&mailbox.rows, uid);
        if refuses(by_uid, &row) {
            return Ok(None);
        }
        reading.add_if_there(alloc, wanted, number, &row)?;
    }
    Ok(Some(reading))
}

/// Whether the message with the UID is there, and hasn't changed after `since`.
fn passes_over(finder: &mut RowFinder, since: Option<u64>, rows: &Rows<'_>, uid: u32) -> bool
    requires { AreRising (row_uids rows.now) }
    ensures { result ≡ changed.is_left since (row_with uid rows.now) }
{
    match since {
        Some(since) => finder.skip_unchanged(rows, uid, since),
        None => false,
    }
}

/// Whether no message can have a mod-sequence greater than `since`, as HIGHESTMODSEQ has none.
fn is_up_to_date(since: Option<u64>, highest: u64) -> bool
    ensures { result ≡ changed.is_up_to_date since highest }
{
    match since {
        Some(since) => highest <= since,
        None => false,
    }
}

/// Whether the message is gone, and is named by its number.
fn refuses(by_uid: bool, row: &Option<Row<'_>>) -> bool
    ensures { result ≡ (not by_uid && not (is_some (option_map row_shown row.now))) }
{
    !by_uid && row.is_none()
}
