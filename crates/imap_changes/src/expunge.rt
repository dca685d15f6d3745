//! EXPUNGE, UID EXPUNGE and CLOSE (RFC 9051, sections 6.4.1, 6.4.3 and 6.4.9).

ghost use Rattle.std.specs.Prelude.{◌≡◌, ◌<◌, ◌≤◌, None, Some, length, filter, option_copied, slice_index_or, IfOk};
ghost use Rattle.imap_changes.specs.Expunge as specs;
ghost use Rattle.imap_mailbox.specs.Lent.{row_uids};
ghost use Rattle.imap_mailbox.specs.Rows.{Row, is_among};
ghost use Rattle.imap_modseq.specs.Numbers.{max_events, max_number};
ghost use Rattle.imap_targets.specs.State.{selection_of, state_of};

use imap_answer::{Answer, CommandContext};
use imap_batch::Batch;
use imap_mailbox::Rows;
use imap_names::{Name, UserName};
use imap_print::{Code, Refusal};
use imap_rights::Rights;
use imap_syntax::{MessageSet, Numbering};
use imap_targets::{
    KnownList, Selected, Session, batch_effect, events_left, in_set, is_saved, last_of, ranges_of,
};
use imap_view::{Readable, View};
use imap_world::Effect;
use std::alloc::{AllocError, Global};

/// Answers EXPUNGE: all messages with `\Deleted` that the session knows are expunged.
pub fn expunge_answer(context: &CommandContext<'_>, session: &Session) -> Result<Answer, AllocError>
    ensures { let meant = specs.expunge_answer context.now.view (state_of session.now) context.now.tag None in
        IfOk result (λ answer. answer ≡ meant) }
{
    answer_of_asked(context, session, None)
}

/// Answers UID EXPUNGE: of these messages those of the set are expunged (RFC 9051, section 6.4.9).
pub fn uid_expunge_answer(
    context: &CommandContext<'_>,
    session: &Session,
    messages: &MessageSet,
) -> Result<Answer, AllocError>
    ensures { let answer = specs.expunge_answer context.now.view (state_of session.now) context.now.tag in
        IfOk result (λ given. given ≡ answer (Some messages.now)) }
{
    answer_of_asked(context, session, Some(messages))
}

fn answer_of_asked(
    context: &CommandContext<'_>,
    session: &Session,
    set: Option<&MessageSet>,
) -> Result<Answer, AllocError>
    ensures { let answer = specs.expunge_answer context.now.view (state_of session.now) context.now.tag in
        IfOk result (λ given. given ≡ answer (option_copied set.entry)) }
{
    match &session.selected {
        Some(selected) => expunge_selected(context, session.enabled.qresync, set, selected),
        None => context.refuse(Refusal::WrongState),
    }
}

fn expunge_selected(
    context: &CommandContext<'_>,
    qresync: bool,
    set: Option<&MessageSet>,
    selected: &Selected,
) -> Result<Answer, AllocError>
    ensures { let answer = specs.expunge_selected context.now.view qresync context.now.tag in
        IfOk result (λ given. given ≡ answer (option_copied set.entry) (selection_of selected.now)) }
{
    if is_saved_set(set) {
        return context.refuse(Refusal::Cannot);
    }
    if !may_expunge(context.view(), selected) {
        return context.refuse(Refusal::NoPerm);
    }
    match context.view().readable(&selected.name.as_ref()) {
        Some(mailbox) => expunge_readable(context, qresync, set, selected, &mailbox),
        None => context.refuse(Refusal::NonExistent),
    }
}

fn is_saved_set(set: Option<&MessageSet>) -> bool
    ensures { result ≡ specs.is_saved_set (option_copied set.entry) }
{
    match set {
        Some(messages) => is_saved(messages),
        None => false,
    }
}

/// Whether the user may expunge messages of the selected mailbox.
fn may_expunge(view: &View<'_>, selected: &Selected) -> bool
    ensures { result ≡ specs.may_expunge view.now (selection_of selected.now) }
{
    !selected.read_only
        && view
            .rights(&selected.name.as_ref())
            .has_any(Rights::EXPUNGE)
}

fn expunge_readable(
    context: &CommandContext<'_>,
    qresync: bool,
    set: Option<&MessageSet>,
    selected: &Selected,
    mailbox: &Readable<'_>,
) -> Result<Answer, AllocError>
    requires few { mailbox.now.own ≤ max_events }
    requires bounded { mailbox.now.highest ≤ max_number }
    ensures { let s = selection_of selected.now in
        let uids = specs.expunged_uids (option_copied set.entry) s.known mailbox.now in
        let answer = specs.expunge_messages context.now.view qresync context.now.tag s mailbox.now uids in
        IfOk result (λ given. given ≡ answer) }
{
    let uids = expunged_uids(context.alloc(), set, &selected.known, mailbox)?;
    let code = expunge_code(qresync, mailbox, &uids);
    let effect = expunge_effect(context.alloc(), context.view().user(), &selected.name, uids)?;
    context.carried_out(Vec::new(context.alloc()), code, effect)
}

/// HIGHESTMODSEQ afterwards, if messages went and QRESYNC is enabled (RFC 7162, section 3.2.7).
fn expunge_code(qresync: bool, mailbox: &Readable<'_>, uids: &[u32]) -> Option<Code>
    requires { mailbox.now.highest ≤ max_number }
    ensures { result ≡ specs.expunge_code qresync mailbox.now uids.now }
{
    if uids.is_empty() || !qresync {
        return None;
    }
    Some(Code::HighestModSeq(mailbox.highest + uids.len() as u64))
}

/// The UIDs of the messages that go: as many as the mailbox has events left for.
fn expunged_uids(
    alloc: Global,
    set: Option<&MessageSet>,
    known: &KnownList,
    mailbox: &Readable<'_>,
) -> Result<Vec<u32>, AllocError>
    requires { mailbox.now.own ≤ max_events }
    ensures { let uids = specs.expunged_uids (option_copied set.entry) known.now.list mailbox.now in
        IfOk result (λ given. given.items ≡ uids) }
{
    let last = last_of(Numbering::Uid, mailbox.next_uid, known);
    let mut uids = taken_uids(alloc, set, last, known, &mailbox.rows)?;
    let left = events_left(mailbox);
    if left < uids.len() as u64 {
        uids.truncate(left as usize);
    }
    Ok(uids)
}

/// The UIDs of the messages with `\Deleted` that are wanted, by a walk. It looks at the flags that all users
/// share alone.
fn taken_uids(
    alloc: Global,
    set: Option<&MessageSet>,
    last: u32,
    known: &KnownList,
    rows: &Rows<'_>,
) -> Result<Vec<u32>, AllocError>
    ensures { let taken = specs.is_taken (option_copied set.entry) last known.now.list in
        IfOk result (λ uids. uids.items ≡ row_uids (filter taken rows.now)) }
{
    let mut uids = Vec::new(alloc);
    for index in 0..rows.len() {
        if is_taken(set, last, known, rows, index) {
            uids.push(rows.uid(index))?;
        }
    }
    Ok(uids)
}

/// Whether the message at `index` goes.
fn is_taken(
    set: Option<&MessageSet>,
    last: u32,
    known: &KnownList,
    rows: &Rows<'_>,
    index: usize,
) -> bool
    requires { index < length rows.now }
    ensures { let taken = specs.is_taken (option_copied set.entry) last known.now.list in
        (r : Row) → r ≡ slice_index_or rows.now index r → result ≡ taken r }
{
    rows.flags(index).deleted && is_wanted(set, last, known, rows.uid(index))
}

/// Whether the session knows the message, and the set has its UID, if there is one.
fn is_wanted(set: Option<&MessageSet>, last: u32, known: &KnownList, uid: u32) -> bool
    ensures { result ≡ specs.is_wanted (option_copied set.entry) last known.now.list uid }
{
    knows(known, uid) && is_in_asked(set, last, uid)
}

/// Whether the session knows the message, by a search that halves.
pub(crate) fn knows(known: &KnownList, uid: u32) -> bool
    ensures { result ≡ is_among uid known.now.list }
{
    known.place_of(uid).is_some()
}

fn is_in_asked(set: Option<&MessageSet>, last: u32, uid: u32) -> bool
    ensures { result ≡ specs.is_in_asked (option_copied set.entry) last uid }
{
    match set {
        Some(messages) => in_set(last, ranges_of(messages), uid),
        None => true,
    }
}

fn expunge_effect(
    alloc: Global,
    user: &UserName,
    name: &Name,
    uids: Vec<u32>,
) -> Result<Option<Effect>, AllocError>
    ensures { let effect = specs.expunge_effect user.now name.now uids.items in
        IfOk result (λ given. given ≡ effect) }
{
    if uids.is_empty() {
        return Ok(None);
    }
    let batch = Batch::expunging(alloc, user, uids)?;
    Ok(Some(batch_effect(name, batch)?))
}

/// Answers CLOSE (RFC 9051, section 6.4.1): it expunges as EXPUNGE does, if the user may. What becomes of the
/// session is not part of the answer.
pub fn close_answer(context: &CommandContext<'_>, session: &Session) -> Result<Answer, AllocError>
    ensures { let meant = specs.close_answer context.now.view (state_of session.now) context.now.tag in
        IfOk result (λ answer. answer ≡ meant) }
{
    match &session.selected {
        Some(selected) => close_selected(context, selected),
        None => context.refuse(Refusal::WrongState),
    }
}

fn close_selected(context: &CommandContext<'_>, selected: &Selected) -> Result<Answer, AllocError>
    ensures { let answer = specs.close_selected context.now.view context.now.tag in
        IfOk result (λ given. given ≡ answer (selection_of selected.now)) }
{
    let effect = match context.view().readable(&selected.name.as_ref()) {
        Some(mailbox) => close_effect(context, selected, &mailbox)?,
        None => None,
    };
    context.carried_out(Vec::new(context.alloc()), None, effect)
}

fn close_effect(
    context: &CommandContext<'_>,
    selected: &Selected,
    mailbox: &Readable<'_>,
) -> Result<Option<Effect>, AllocError>
    requires { mailbox.now.own ≤ max_events }
    ensures { let s = selection_of selected.now in
        let effect = specs.close_effect context.now.view s (Some mailbox.now) in
        IfOk result (λ given. given ≡ effect) }
{
    if !may_expunge(context.view(), selected) {
        return Ok(None);
    }
    let uids = expunged_uids(context.alloc(), None, &selected.known, mailbox)?;
    expunge_effect(context.alloc(), context.view().user(), &selected.name, uids)
}
