//! Notices: the lines on changes of the selected mailbox, before the last line of a command's answer.

ghost use Rattle.std.specs.Prelude.{◌≡◌, if◌then◌else◌, Some, None, IfOk, IfSome, option_map};
ghost use Rattle.std.specs.List.{AllByRecursion};
ghost use Rattle.imap_sessions.specs.Notices as specs;
ghost use Rattle.imap_sessions.specs.Planned.{IsFoundFor, IsFoundForEffect};
ghost use Rattle.imap_mailbox.specs.Summary.{AreRising};
ghost use Rattle.imap_print.specs.Lines.{IsPrintable};
ghost use Rattle.imap_session.specs.Lost.{has_other_validity};
ghost use Rattle.imap_session.specs.State.{IsTellingFor, both_enabled, state_of};
ghost use Rattle.imap_session.specs.Told.{IsInStepIfSelected};
ghost use Rattle.imap_upcoming.specs.Readable.{readable};
ghost use Rattle.imap_view.specs.View.{view_of};
ghost use Rattle.imap_world.specs.Effects.{after_writes};
ghost use Rattle.imap_world.specs.Stored.{world_of};

use crate::sessions::SessionEffect;
use imap_answer::Answer;
use imap_grammar::Command;
use imap_names::UserName;
use imap_print::{EnabledCapabilities, Refusal, Response};
use imap_session::{KnownUpdate, NoticeOptions, Session, SessionNotices};
use imap_syntax::Numbering;
use imap_upcoming::Upcoming;
use imap_world::{Change, Site, World};
use std::alloc::{AllocError, Global};

/// A change that a user asked for, before it is written.
#[derive(Drop)]
pub struct PlannedChange<'a> {
    pub world: &'a World,
    pub site: &'a Site,
    pub user: &'a UserName,
    pub change: &'a Change,
}

/// Returns the lines before the last one of the answer, and what the session then knows.
pub fn notices_of(
    alloc: Global,
    planned: &PlannedChange<'_>,
    session: &Session,
    expunges: bool,
    answer: &Answer,
) -> Result<SessionNotices, AllocError>
    requires { let world = world_of planned.now.world.now in
        let own = state_of session.now in
        let effect = answer.now.effect in
        IsFoundForEffect planned.now.site.now planned.now.user.now world planned.now.change.now own effect }
    ensures lines { let world = world_of planned.now.world.now in
        let view = view_of planned.now.site.now planned.now.user.now world in
        let own = state_of session.now in
        let o = specs.options_after expunges own answer.now in
        let mailbox = specs.mailbox_after view own answer.now in
        let meant = specs.notice_lines o answer.now.told own.selected mailbox in
        IfOk result (λ n. n.lines.items ≡ meant) }
    ensures told { let world = world_of planned.now.world.now in
        let view = view_of planned.now.site.now planned.now.user.now world in
        let own = state_of session.now in
        let o = specs.options_after expunges own answer.now in
        let mailbox = specs.mailbox_after view own answer.now in
        let meant = specs.notice_telling o own.selected mailbox in
        IfOk result (λ n. n.told ≡ meant) }
    ensures change { let selected = (state_of session.now).selected in
        IfOk result (λ n. IfSome n.told (λ t. IsTellingFor t selected)) }
    ensures printable { IfOk result (λ n. AllByRecursion IsPrintable n.lines.items) }
{
    let options = options_after(expunges, session.enabled, answer.enables());
    let mailbox = mailbox_after(planned, session, answer);
    notices_of_mailbox(alloc, session, mailbox, &options, answer.told())
}

/// What the session is told of its mailbox, if one is left. The command's own lines told of the messages with the
/// UIDs `told`.
pub fn notices_of_mailbox(
    alloc: Global,
    session: &Session,
    mailbox: Option<Upcoming<'_>>,
    options: &NoticeOptions,
    told: &[u32],
) -> Result<SessionNotices, AllocError>
    requires step { let selected = (state_of session.now).selected in
        IfSome mailbox (λ m. IsInStepIfSelected m.highest m.messages selected) }
    requires told { AreRising told.now }
    ensures lines { let left = option_map readable mailbox.entry in
        let meant = specs.notice_lines options.now told.now (state_of session.now).selected left in
        IfOk result (λ n. n.lines.items ≡ meant) }
    ensures told { let left = option_map readable mailbox.entry in
        let meant = specs.notice_telling options.now (state_of session.now).selected left in
        IfOk result (λ n. n.told ≡ meant) }
    ensures change { let selected = (state_of session.now).selected in
        IfOk result (λ n. IfSome n.told (λ t. IsTellingFor t selected)) }
    ensures printable { IfOk result (λ n. AllByRecursion IsPrintable n.lines.items) }
{
    match mailbox {
        Some(mailbox) => {
            let mut rows = mailbox.messages.cursor();
            session.notices(alloc, &mut rows, options, told, mailbox.highest)
        }
        None => Ok(SessionNotices {
            lines: Vec::new(alloc),
            told: None,
        }),
    }
}

/// The selected mailbox as the command leaves it. `None` if the answer is BAD or the session loses the mailbox.
fn mailbox_after<'a>(
    planned: &PlannedChange<'a>,
    session: &Session,
    answer: &Answer,
) -> Option<Upcoming<'a>>
    requires { let world = world_of planned.now.world.now in
        let own = state_of session.now in
        let effect = answer.now.effect in
        IsFoundForEffect planned.now.site.now planned.now.user.now world planned.now.change.now own effect }
    ensures mailbox { let world = world_of planned.now.world.now in
        let view = view_of planned.now.site.now planned.now.user.now world in
        option_map readable result ≡ specs.mailbox_after view (state_of session.now) answer.now }
    ensures step { let selected = (state_of session.now).selected in
        IfSome result (λ m. IsInStepIfSelected m.highest m.messages selected) }
{
    if is_bad(answer.last()) {
        return None;
    }
    mailbox_left(planned, session)
}

/// The selected mailbox after the change, unless the session has lost it then.
pub fn mailbox_left<'a>(planned: &PlannedChange<'a>, session: &Session) -> Option<Upcoming<'a>>
    requires { let world = world_of planned.now.world.now in
        let own = state_of session.now in
        IsFoundFor planned.now.site.now planned.now.user.now world planned.now.change.now own }
    ensures mailbox { let after = after_writes planned.now.change.now (world_of planned.now.world.now) in
        let view = view_of planned.now.site.now planned.now.user.now after in
        option_map readable result ≡ specs.mailbox_left view (state_of session.now) }
    ensures step { let selected = (state_of session.now).selected in
        IfSome result (λ m. IsInStepIfSelected m.highest m.messages selected) }
{
    match &session.selected {
        Some(selected) => {
            let PlannedChange {
                world,
                site,
                user,
                change,
            } = planned;
            let mailbox = Upcoming::after(world, site, user, change, &selected.name);
            unless_other(mailbox, selected.validity)
        }
        None => None,
    }
}

/// A mailbox of another UIDVALIDITY is another one.
fn unless_other(mailbox: Option<Upcoming<'_>>, validity: u32) -> Option<Upcoming<'_>>
    ensures { let is_other = has_other_validity validity (option_map readable mailbox.entry) in
        result ≡ (if is_other then None else mailbox.entry) }
{
    match mailbox {
        Some(mailbox) => {
            if mailbox.validity == validity {
                Some(mailbox)
            } else {
                None
            }
        }
        None => None,
    }
}

/// What the command enables is enabled for its notices, too.
fn options_after(
    expunges: bool,
    enabled: EnabledCapabilities,
    more: EnabledCapabilities,
) -> NoticeOptions
    ensures { result ≡ specs.notice_options expunges (both_enabled more enabled) }
{
    NoticeOptions {
        expunges,
        qresync: more.qresync || enabled.qresync,
        condstore: more.condstore || enabled.condstore,
    }
}

/// What a session notes of an answer.
pub fn noting(enables: EnabledCapabilities, told: Option<KnownUpdate>) -> SessionEffect
    ensures { result ≡ specs.noting enables told }
{
    match told {
        Some(told) => SessionEffect::Note(enables, Some(told)),
        None => {
            if enables.condstore || enables.imap4rev2 || enables.qresync {
                SessionEffect::Note(enables, None)
            } else {
                SessionEffect::Keep
            }
        }
    }
}

/// Whether it is BAD (RFC 9051, section 7.1.3).
fn is_bad(last: &Response) -> bool
    ensures { result ≡ specs.is_bad last.now }
{
    match last {
        Response::Refused { refusal, .. } => {
            matches!(refusal, Refusal::Malformed | Refusal::WrongState)
        }
        _ => false,
    }
}

/// Whether the answer to the command may tell expunges: a message's number stays while FETCH, STORE and SEARCH
/// name messages by their numbers (RFC 9051, section 7.5.1).
pub fn may_tell_expunges(command: &Command) -> bool
    ensures { result ≡ specs.may_tell_expunges command.now }
{
    match command {
        Command::Fetch { numbering, .. }
        | Command::Search { numbering, .. }
        | Command::Store { numbering, .. } => matches!(numbering, Numbering::Uid),
        _ => true,
    }
}
