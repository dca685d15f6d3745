//! Sessions that idle (RFC 2177).

ghost use Rattle.std.specs.Prelude.{◌≡◌, ◌∷◌, ◌++◌, [], IfOk, IfSome, None, Some, option_map};
ghost use Rattle.std.specs.List.{AllByRecursion};
ghost use Rattle.imap_answer.specs.Answer.{done_line, nothing_enabled, refused_line};
ghost use Rattle.imap_print.specs.Lines.{IsPrintable};
ghost use Rattle.imap_print.specs.declared.response.Response.TheVariants as response;
ghost use Rattle.imap_print.specs.declared.response.Refusal.TheVariants.{Malformed};
ghost use Rattle.imap_session.specs.State.{IsTellingFor, state_of};
ghost use Rattle.imap_session.specs.Told.{IsInStepIfSelected};
ghost use Rattle.imap_sessions.specs.Readable.{readable};
ghost use Rattle.imap_view.specs.View.{view_of};
ghost use Rattle.imap_world.specs.Stored.{world_of};
ghost use Rattle.imap_sessions.specs.Notices as specs;
ghost use Rattle.imap_core.specs.Outcome.{said};
ghost use Rattle.imap_sessions.specs.Planned.{IsFoundForEffect, MayTell};
ghost use Rattle.imap_core.specs.Reply as reply;
ghost use Rattle.imap_sessions.specs.declared.sessions.SessionEffect.TheVariants as session;

use crate::outcome::Outcome;
use imap_answer::refused_line;
use imap_lex::Tag;
use imap_print::{EnabledCapabilities, Refusal, Response};
use imap_session::{KnownUpdate, NoticeOptions, Session, SessionNotices};
use imap_sessions::{
    PlannedChange, SessionEffect, Upcoming, mailbox_left, notices_of_mailbox, noting,
};
use std::alloc::{AllocError, Global};

/// A step of an IDLE, before notices are added.
#[derive(Drop)]
pub(crate) enum Idling {
    /// It begins, under the tag of its command.
    Begins(Tag),
    /// It goes on, and its client may be told something.
    Polls,
    /// DONE ends it. The tag is that of its command.
    Ends(Tag),
}

/// Returns the outcome of a step of an IDLE.
pub(crate) fn idle_outcome(
    alloc: Global,
    planned: &PlannedChange<'_>,
    session: &Session,
    idling: Idling,
) -> Result<Outcome, AllocError>
    requires { let world = world_of planned.now.world.now in
        let own = state_of session.now in
        IsFoundForEffect planned.now.site.now planned.now.user.now world planned.now.change.now own None }
    ensures outcome { let world = world_of planned.now.world.now in
        let view = view_of planned.now.site.now planned.now.user.now world in
        let meant = reply.idle_outcome view (state_of session.now) idling in
        IfOk result (λ outcome. outcome ≡ meant) }
    ensures told { let own = state_of session.now in
        IfOk result (λ outcome. MayTell (Some own) outcome.session) }
{
    let SessionNotices { lines, told } = idle_notices(alloc, planned, session)?;
    match idling {
        Idling::Begins(tag) => begun(alloc, tag, lines, told),
        Idling::Polls => Ok(polled(lines, told)),
        Idling::Ends(tag) => ended(tag, lines, told),
    }
}

/// A line other than DONE ends an IDLE, with the tag of that.
pub(crate) fn idle_broken(alloc: Global, tag: &Tag) -> Result<Outcome, AllocError>
    ensures { let meant = said (refused_line tag.now Malformed ∷ []) (session.Idle None None) in
        IfOk result (λ outcome. outcome ≡ meant) }
{
    let line = refused_line(alloc, tag, Refusal::Malformed)?;
    Ok(Outcome::said(vec![in alloc; line]?, SessionEffect::Idle(None, None)))
}

/// Returns the notices of the session, with expunges.
fn idle_notices(
    alloc: Global,
    planned: &PlannedChange<'_>,
    session: &Session,
) -> Result<SessionNotices, AllocError>
    requires { let world = world_of planned.now.world.now in
        let own = state_of session.now in
        IsFoundForEffect planned.now.site.now planned.now.user.now world planned.now.change.now own None }
    ensures lines { let world = world_of planned.now.world.now in
        let view = view_of planned.now.site.now planned.now.user.now world in
        let meant = specs.idle_lines view (state_of session.now) in
        IfOk result (λ n. n.lines.items ≡ meant) }
    ensures told { let world = world_of planned.now.world.now in
        let view = view_of planned.now.site.now planned.now.user.now world in
        let meant = specs.idle_telling view (state_of session.now) in
        IfOk result (λ n. n.told ≡ meant) }
    ensures change { let selected = (state_of session.now).selected in
        IfOk result (λ n. IfSome n.told (λ t. IsTellingFor t selected)) }
    ensures printable { IfOk result (λ n. AllByRecursion IsPrintable n.lines.items) }
{
    let options = NoticeOptions {
        expunges: true,
        qresync: session.enabled.qresync,
        condstore: session.enabled.condstore,
    };
    let mailbox = idle_mailbox(planned, session);
    notices_of_mailbox(alloc, session, mailbox, &options, &[])
}

/// The selected mailbox, which the step leaves as it is.
fn idle_mailbox<'a>(planned: &PlannedChange<'a>, session: &Session) -> Option<Upcoming<'a>>
    requires { let world = world_of planned.now.world.now in
        let own = state_of session.now in
        IsFoundForEffect planned.now.site.now planned.now.user.now world planned.now.change.now own None }
    ensures mailbox { let world = world_of planned.now.world.now in
        let view = view_of planned.now.site.now planned.now.user.now world in
        option_map readable result ≡ specs.mailbox_left view (state_of session.now) }
    ensures step { let selected = (state_of session.now).selected in
        IfSome result (λ m. IsInStepIfSelected m.highest m.messages selected) }
{
    mailbox_left(planned, session)
}

/// An IDLE begins: the client may send DONE once it has read the first line.
fn begun(
    alloc: Global,
    tag: Tag,
    lines: Vec<Response>,
    told: Option<KnownUpdate>,
) -> Result<Outcome, AllocError>
    requires { AllByRecursion IsPrintable lines.items }
    ensures { let meant = said (response.Idling ∷ lines.items) (session.Idle (Some tag) told) in
        IfOk result (λ outcome. outcome ≡ meant) }
{
    let mut replies = vec![in alloc; Response::Idling]?;
    let mut lines = lines;
    replies.append(&mut lines)?;
    Ok(Outcome::said(replies, SessionEffect::Idle(Some(tag), told)))
}

/// An IDLE goes on.
fn polled(lines: Vec<Response>, told: Option<KnownUpdate>) -> Outcome
    requires { AllByRecursion IsPrintable lines.items }
    ensures { result ≡ said lines.items (specs.noting nothing_enabled told) }
{
    let nothing = EnabledCapabilities {
        condstore: false,
        imap4rev2: false,
        qresync: false,
    };
    Outcome::said(lines, noting(nothing, told))
}

/// An IDLE ends.
fn ended(tag: Tag, lines: Vec<Response>, told: Option<KnownUpdate>) -> Result<Outcome, AllocError>
    requires { AllByRecursion IsPrintable lines.items }
    ensures { let meant = said (lines.items ++ done_line tag ∷ []) (session.Idle None told) in
        IfOk result (λ outcome. outcome ≡ meant) }
{
    let mut replies = lines;
    replies.push(last_line(tag))?;
    Ok(Outcome::said(replies, SessionEffect::Idle(None, told)))
}

/// The tagged line of an IDLE.
fn last_line(tag: Tag) -> Response
    ensures line { result ≡ done_line tag }
    ensures printable { IsPrintable (done_line tag) }
{
    let _ = tag.as_slice();
    Response::Done { tag, code: None }
}
