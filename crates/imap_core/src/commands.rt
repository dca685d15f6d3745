//! What each command is answered.

ghost use Rattle.std.specs.Prelude.{◌≡◌, ◌≢◌, false, Some, IfOk};
ghost use Rattle.std.specs.List.{AllByRecursion};
ghost use Rattle.imap_commands.specs.declared.command.Command.TheVariants.{Idle};
ghost use Rattle.imap_answer.specs.Answer.{nothing_enabled};
ghost use Rattle.imap_core.specs.declared.pending.Pending.TheVariants as pending;
ghost use Rattle.imap_sessions.specs.declared.sessions.SessionEffect.TheVariants as session;
ghost use Rattle.imap_sessions.specs.Notices.{may_tell_expunges, selected_mailbox};
ghost use Rattle.imap_core.specs.Outcome.{answered};
ghost use Rattle.imap_core.specs.Pending.{IsCompletable, completed};
ghost use Rattle.imap_core.specs.Reply as specs;
ghost use Rattle.imap_core.specs.Answers.{command_answer};
ghost use Rattle.imap_core.specs.Reply.{command_outcome};
ghost use Rattle.imap_print.specs.Lines.{IsPrintable};
ghost use Rattle.imap_session.specs.Lost.{is_lost};
ghost use Rattle.imap_session.specs.State.{state_of};

mod answers;
mod session;

use crate::outcome::Outcome;
use crate::pending::Pending;
use answers::command_answer;
use imap_answer::{Answer, CommandContext};
use imap_changes::close_answer;
use imap_grammar::{Command, SelectParameters};
use imap_lex::Octets;
use imap_messages::{is_malformed, select_with_parameters};
use imap_print::{EnabledCapabilities, Refusal, Response};
use imap_session::{NewSelection, Selecting, Session};
use imap_sessions::{SessionEffect, may_tell_expunges};
use imap_values::beside;
use imap_view::{Readable, View};
use session::logout_answer;
use std::alloc::AllocError;

/// Returns the outcome of a command other than IDLE before the notices of its session are added.
pub(crate) fn command_pending(
    context: &CommandContext<'_>,
    session: &Session,
    command: &Command,
) -> Result<Pending, AllocError>
    requires unlost { is_lost context.now.view (state_of session.now) ≡ false }
    requires not_idle { command.now ≢ Idle }
    ensures outcome { let own = state_of session.now in
        let meant = command_outcome context.now.view own context.now.tag context.now.at command.now in
        IfOk result (λ pending. completed context.now.view (Some own) pending ≡ meant) }
    ensures completable { let own = state_of session.now in
        IfOk result (λ pending. IsCompletable context.now.view (Some own) pending) }
{
    match command {
        Command::Logout => whole(logout_answer(context)?, SessionEffect::End),
        Command::Select {
            mailbox,
            parameters,
        } => select_pending(context, session, false, mailbox, parameters),
        Command::Examine {
            mailbox,
            parameters,
        } => select_pending(context, session, true, mailbox, parameters),
        Command::Close => close_pending(context, session),
        Command::Unselect => unselect_pending(context, session),
        _ => answer_pending(context, session, command),
    }
}

/// An answer with notices, if there are any.
fn answer_pending(
    context: &CommandContext<'_>,
    session: &Session,
    command: &Command,
) -> Result<Pending, AllocError>
    requires { is_lost context.now.view (state_of session.now) ≡ false }
    ensures outcome { let own = state_of session.now in
        let answer = command_answer context.now.view own context.now.tag context.now.at command.now in
        let meant = specs.outcome_of_answer context.now.view own (may_tell_expunges command.now) answer in
        IfOk result (λ pending. completed context.now.view (Some own) pending ≡ meant) }
    ensures completable { let own = state_of session.now in
        IfOk result (λ pending. IsCompletable context.now.view (Some own) pending) }
{
    let answer = command_answer(context, session, command)?;
    let answer = with_highest(context, session, answer)?;
    Ok(Pending::Command(answer, may_tell_expunges(command)))
}

/// Returns the outcome of an answer to which no notices are added.
fn whole(answer: Answer, session: SessionEffect) -> Result<Pending, AllocError>
    ensures { IfOk result (λ given. given ≡ pending.Whole (answered answer session)) }
{
    Ok(Pending::Whole(Outcome::answered(answer, session)?))
}

/// Puts a line with HIGHESTMODSEQ of the selected mailbox before the answer if the command newly enables CONDSTORE
/// (RFC 7162, section 3.1).
fn with_highest(
    context: &CommandContext<'_>,
    session: &Session,
    answer: Answer,
) -> Result<Answer, AllocError>
    ensures { let meant = specs.with_highest context.now.view (state_of session.now) answer in
        IfOk result (λ given. given ≡ meant) }
{
    if !answer.enables().condstore || session.enabled.condstore {
        return Ok(answer);
    }
    let (front, answer) = beside(highest_line(context, session), answer)?;
    answer.preceded_by(front)
}

/// The line that tells HIGHESTMODSEQ of the selected mailbox, if one is selected that the user may read.
fn highest_line(
    context: &CommandContext<'_>,
    session: &Session,
) -> Result<Vec<Response>, AllocError>
    ensures lines { let mailbox = selected_mailbox context.now.view (state_of session.now).selected in
        IfOk result (λ lines. lines.items ≡ specs.highest_line mailbox) }
    ensures printable { IfOk result (λ lines. AllByRecursion IsPrintable lines.items) }
{
    match selected_mailbox(context.view(), session) {
        Some(mailbox) => {
            let line = Response::HighestModSeq(mailbox.highest);
            Ok(vec![in context.alloc(); line]?)
        }
        None => Ok(Vec::new(context.alloc())),
    }
}

/// The selected mailbox, if the user may read it.
pub(crate) fn selected_mailbox<'a>(view: &View<'a>, session: &Session) -> Option<Readable<'a>>
    ensures { result ≡ selected_mailbox view.now (state_of session.now).selected }
{
    match &session.selected {
        Some(selected) => view.readable(&selected.name.as_ref()),
        None => None,
    }
}

fn select_pending(
    context: &CommandContext<'_>,
    session: &Session,
    read_only: bool,
    mailbox: &Octets,
    parameters: &SelectParameters,
) -> Result<Pending, AllocError>
    ensures { let own = state_of session.now in
        let outcome = specs.select_outcome context.now.view own context.now.tag read_only in
        IfOk result (λ given. given ≡ pending.Whole (outcome mailbox.now parameters.now)) }
{
    if is_malformed(session.enabled, parameters) {
        return whole(context.refuse(Refusal::Malformed)?, SessionEffect::Keep);
    }
    let Selecting { answer, selection } = select_with_parameters(
        context, session, read_only, mailbox, parameters,
    )?;
    let enables = answer.enables();
    whole(answer, SessionEffect::Select(enables, selection))
}

fn unselect_pending(context: &CommandContext<'_>, session: &Session) -> Result<Pending, AllocError>
    ensures outcome { let outcome = specs.unselect_outcome (state_of session.now) context.now.tag in
        IfOk result (λ given. given ≡ pending.Whole outcome) }
    ensures completable { let own = state_of session.now in
        IfOk result (λ given. IsCompletable context.now.view (Some own) given) }
{
    match &session.selected {
        Some(_) => whole(context.done()?, unselecting()),
        None => whole(context.refuse(Refusal::WrongState)?, SessionEffect::Keep),
    }
}

/// No mailbox is selected any more.
fn unselecting() -> SessionEffect
    ensures { result ≡ session.Select nothing_enabled None }
{
    let nothing = EnabledCapabilities {
        condstore: false,
        imap4rev2: false,
        qresync: false,
    };
    SessionEffect::Select(nothing, NewSelection::none())
}

/// A mailbox is closed without notices.
fn close_pending(context: &CommandContext<'_>, session: &Session) -> Result<Pending, AllocError>
    ensures outcome { let own = state_of session.now in
        let outcome = specs.close_outcome context.now.view own context.now.tag in
        IfOk result (λ given. given ≡ pending.Whole outcome) }
    ensures completable { let own = state_of session.now in
        IfOk result (λ given. IsCompletable context.now.view (Some own) given) }
{
    match &session.selected {
        Some(_) => whole(close_answer(context, session)?, unselecting()),
        None => whole(context.refuse(Refusal::WrongState)?, SessionEffect::Keep),
    }
}
