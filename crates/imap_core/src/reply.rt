//! What a step is answered.

ghost use Rattle.std.specs.Prelude.{◌≡◌, true, false, Some, IfOk};
ghost use Rattle.std.specs.FinMap as map;
ghost use Rattle.imap_print.specs.Lines.{IsPrintable};
ghost use Rattle.imap_print.specs.declared.response.Response.TheVariants as response;
ghost use Rattle.imap_core.specs.Pending.{IsCompletable, completed, tells_nothing};
ghost use Rattle.imap_core.specs.Reply as specs;
ghost use Rattle.imap_sessions.specs.Sessions.{own_of};
ghost use Rattle.imap_session.specs.Lost.{is_lost};
ghost use Rattle.imap_session.specs.State.{SessionState, state_of};
ghost use Rattle.imap_view.specs.View.{View};

use crate::commands::command_pending;
use crate::idling::{Idling, idle_broken};
use crate::outcome::Outcome;
use crate::pending::Pending;
use crate::step::{Act, Step};
use imap_answer::{CommandContext, Moment, refused_line};
use imap_grammar::{Command, Request};
use imap_lex::Tag;
use imap_print::{Farewell, Refusal, Response};
use imap_session::Session;
use imap_sessions::{OwnSessions, SessionEffect};
use imap_view::View;
use std::alloc::{AllocError, Global};

/// Returns the outcome of a step before the notices of its session are added.
pub(crate) fn step_pending(
    alloc: Global,
    view: &View<'_>,
    own: &OwnSessions,
    step: &Step,
) -> Result<Pending, AllocError>
    ensures outcome { let active = map.get (own_of own.now) step.now.who.number in
        let meant = specs.reply view.now (own_of own.now) step.now in
        IfOk result (λ pending. completed view.now active pending ≡ meant) }
    ensures completable { let active = map.get (own_of own.now) step.now.who.number in
        IfOk result (λ pending. IsCompletable view.now active pending) }
{
    match own.get(step.who.number) {
        Some(session) => pending_when_open(alloc, view, session, step),
        None => Ok(Pending::Whole(outcome_when_closed(alloc, own, &step.act)?)),
    }
}

fn pending_when_open(
    alloc: Global,
    view: &View<'_>,
    session: &Session,
    step: &Step,
) -> Result<Pending, AllocError>
    ensures outcome { let active = state_of session.now in
        let meant = specs.reply_when_open view.now active step.now.at step.now.act in
        IfOk result (λ pending. completed view.now (Some active) pending ≡ meant) }
    ensures completable { let own = Some (state_of session.now) in
        IfOk result (λ pending. IsCompletable view.now own pending) }
{
    match &step.act {
        Act::Open => Ok(Pending::Whole(greeting(alloc)?)),
        Act::Leave => Ok(Pending::Whole(Outcome::said(Vec::new(alloc), SessionEffect::End))),
        act => {
            if session.is_lost(view) {
                Ok(Pending::Whole(lost_outcome(alloc)?))
            } else {
                dispatch_idle(alloc, view, session, step.at, act)
            }
        }
    }
}

/// A session that has lost its mailbox ends, whatever its client asks.
fn lost_outcome(alloc: Global) -> Result<Outcome, AllocError>
    ensures { IfOk result (λ outcome. outcome ≡ specs.lost) }
{
    let bye = vec![in alloc; Response::Bye(Farewell::MailboxUnavailable)]?;
    Ok(Outcome::said(bye, SessionEffect::End))
}

/// The session has not lost its mailbox.
fn dispatch_idle(
    alloc: Global,
    view: &View<'_>,
    session: &Session,
    at: Moment,
    act: &Act,
) -> Result<Pending, AllocError>
    requires { is_lost view.now (state_of session.now) ≡ false }
    ensures outcome { let active = state_of session.now in
        let meant = specs.reply_by_idle view.now active at act.now active.idle in
        IfOk result (λ pending. completed view.now (Some active) pending ≡ meant) }
    ensures completable { let own = Some (state_of session.now) in
        IfOk result (λ pending. IsCompletable view.now own pending) }
{
    match &session.idle {
        Some(tag) => pending_of_idle(alloc, tag, act),
        None => dispatch_act(alloc, view, session, at, act),
    }
}

/// Returns the outcome of a step of a session that idles. A poll and DONE bring notices. Any other line ends the IDLE.
fn pending_of_idle(alloc: Global, tag: &Tag, act: &Act) -> Result<Pending, AllocError>
    ensures outcome { IfOk result (λ pending. (view : View) (own : SessionState)
        → completed view (Some own) pending ≡ specs.reply_to_idle view own tag.now act.now) }
    ensures completable { IfOk result (λ pending. (view : View) (own : SessionState)
        → is_lost view own ≡ false → IsCompletable view (Some own) pending) }
{
    match act {
        Act::Poll => Ok(Pending::Idle(Idling::Polls)),
        Act::Done => Ok(Pending::Idle(Idling::Ends(tag.try_copy(alloc)?))),
        Act::Open | Act::Do(_) | Act::Leave => Ok(Pending::Whole(idle_broken(alloc, tag)?)),
    }
}

/// The session has not lost its mailbox, and doesn't idle.
fn dispatch_act(
    alloc: Global,
    view: &View<'_>,
    session: &Session,
    at: Moment,
    act: &Act,
) -> Result<Pending, AllocError>
    requires { is_lost view.now (state_of session.now) ≡ false }
    ensures outcome { let active = state_of session.now in
        let meant = specs.reply_of_act view.now active at act.now in
        IfOk result (λ pending. completed view.now (Some active) pending ≡ meant) }
    ensures completable { let own = Some (state_of session.now) in
        IfOk result (λ pending. IsCompletable view.now own pending) }
{
    match act {
        Act::Do(request) => pending_of_request(alloc, view, session, at, request),
        Act::Done => Ok(Pending::Whole(refused(alloc, &None, Refusal::Malformed)?)),
        Act::Open | Act::Poll | Act::Leave => Ok(Pending::Whole(Outcome::silence(alloc))),
    }
}

/// What a client says to a session that isn't open is lost.
fn outcome_when_closed(alloc: Global, own: &OwnSessions, act: &Act) -> Result<Outcome, AllocError>
    ensures outcome { IfOk result (λ outcome. outcome ≡ specs.reply_when_closed (own_of own.now) act.now) }
    ensures silent { IfOk result (λ outcome. tells_nothing outcome.session ≡ true) }
{
    match act {
        Act::Open => open_outcome(alloc, own),
        _ => Ok(Outcome::silence(alloc)),
    }
}

fn open_outcome(alloc: Global, own: &OwnSessions) -> Result<Outcome, AllocError>
    ensures outcome { IfOk result (λ outcome. outcome ≡ specs.open_outcome (own_of own.now)) }
    ensures silent { IfOk result (λ outcome. tells_nothing outcome.session ≡ true) }
{
    if own.is_full() {
        let bye = vec![in alloc; Response::Bye(Farewell::LimitReached)]?;
        return Ok(Outcome::said(bye, SessionEffect::Keep));
    }
    greeting(alloc)
}

fn greeting(alloc: Global) -> Result<Outcome, AllocError>
    ensures { IfOk result (λ outcome. outcome ≡ specs.opened) }
{
    let greeting = vec![in alloc; Response::Greeting]?;
    Ok(Outcome::said(greeting, SessionEffect::Open))
}

fn pending_of_request(
    alloc: Global,
    view: &View<'_>,
    session: &Session,
    at: Moment,
    request: &Request,
) -> Result<Pending, AllocError>
    requires { is_lost view.now (state_of session.now) ≡ false }
    ensures outcome { let active = state_of session.now in
        let meant = specs.request_outcome view.now active at request.now in
        IfOk result (λ pending. completed view.now (Some active) pending ≡ meant) }
    ensures completable { let own = Some (state_of session.now) in
        IfOk result (λ pending. IsCompletable view.now own pending) }
{
    match request {
        Request::Command { tag, body } => pending_of_command(alloc, view, session, at, tag, body),
        Request::Malformed { tag } => {
            Ok(Pending::Whole(refused(alloc, tag, Refusal::Malformed)?))
        }
        Request::TooBig { tag } => {
            let tag = Some(tag.try_copy(alloc)?);
            Ok(Pending::Whole(refused(alloc, &tag, Refusal::Limit)?))
        }
    }
}

fn pending_of_command(
    alloc: Global,
    view: &View<'_>,
    session: &Session,
    at: Moment,
    tag: &Tag,
    command: &Command,
) -> Result<Pending, AllocError>
    requires { is_lost view.now (state_of session.now) ≡ false }
    ensures outcome { let active = state_of session.now in
        let meant = specs.command_outcome view.now active tag.now at command.now in
        IfOk result (λ pending. completed view.now (Some active) pending ≡ meant) }
    ensures completable { let own = Some (state_of session.now) in
        IfOk result (λ pending. IsCompletable view.now own pending) }
{
    match command {
        Command::Idle => Ok(Pending::Idle(Idling::Begins(tag.try_copy(alloc)?))),
        _ => command_pending(&CommandContext::new(alloc, view, tag, at), session, command),
    }
}

/// Refuses octets that aren't a command, and a DONE while no IDLE runs (RFC 2177). `tag` is `None` for a DONE.
fn refused(alloc: Global, tag: &Option<Tag>, refusal: Refusal) -> Result<Outcome, AllocError>
    ensures { IfOk result (λ outcome. outcome ≡ specs.refused (tag.now) refusal) }
{
    let line = line_of_refusal(alloc, tag, refusal)?;
    Ok(Outcome::said(vec![in alloc; line]?, SessionEffect::Keep))
}

fn line_of_refusal(
    alloc: Global,
    tag: &Option<Tag>,
    refusal: Refusal,
) -> Result<Response, AllocError>
    ensures line { IfOk result (λ line. line ≡ response.Refused tag.now refusal) }
    ensures printable { IfOk result IsPrintable }
{
    match tag {
        Some(tag) => refused_line(alloc, tag, refusal),
        None => Ok(Response::Refused { tag: None, refusal }),
    }
}
