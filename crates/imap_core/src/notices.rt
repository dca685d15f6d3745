//! Outcomes with the notices of their sessions.

ghost use Rattle.std.specs.Prelude.{◌≡◌, Some, None, IfOk, option_copied, option_map};
ghost use Rattle.imap_core.specs.Pending.{AreFound, completed};
ghost use Rattle.imap_sessions.specs.Planned.{IsFoundForEffect, MayTell};
ghost use Rattle.imap_core.specs.Reply as reply;
ghost use Rattle.imap_session.specs.State.{state_of};
ghost use Rattle.imap_view.specs.View.{view_of};
ghost use Rattle.imap_world.specs.Stored.{world_of};

use crate::idling::idle_outcome;
use crate::outcome::Outcome;
use crate::pending::Pending;
use imap_answer::Answer;
use imap_grammar::Command;
use imap_session::{Session, SessionNotices};
use imap_sessions::{PlannedChange, SessionEffect, notices_of, noting};
use imap_values::beside;
use std::alloc::{AllocError, Global};

/// Returns the outcome of a step with the notices of its session. A session that isn't open gets none.
pub(crate) fn with_notices(
    alloc: Global,
    planned: &PlannedChange<'_>,
    session: Option<&Session>,
    pending: Pending,
) -> Result<Outcome, AllocError>
    requires { let own = option_map state_of (option_copied session) in
        let world = world_of planned.now.world.now in
        AreFound planned.now.site.now planned.now.user.now world planned.now.change.now own pending }
    ensures outcome { let world = world_of planned.now.world.now in
        let view = view_of planned.now.site.now planned.now.user.now world in
        let own = option_map state_of (option_copied session.entry) in
        IfOk result (λ outcome. outcome ≡ completed view own pending) }
    ensures told { let own = option_map state_of (option_copied session.entry) in
        IfOk result (λ outcome. MayTell own outcome.session) }
{
    match pending {
        Pending::Whole(outcome) => Ok(outcome),
        Pending::Command(answer, expunges) => match session {
            Some(session) => outcome_of_answer(alloc, planned, session, expunges, answer),
            None => Outcome::answered(answer, SessionEffect::Keep),
        },
        Pending::Idle(idling) => match session {
            Some(session) => idle_outcome(alloc, planned, session, idling),
            None => Ok(Outcome::silence(alloc)),
        },
    }
}

fn outcome_of_answer(
    alloc: Global,
    planned: &PlannedChange<'_>,
    session: &Session,
    expunges: bool,
    answer: Answer,
) -> Result<Outcome, AllocError>
    requires { let world = world_of planned.now.world.now in
        let own = state_of session.now in
        let effect = answer.effect in
        IsFoundForEffect planned.now.site.now planned.now.user.now world planned.now.change.now own effect }
    ensures outcome { let world = world_of planned.now.world.now in
        let view = view_of planned.now.site.now planned.now.user.now world in
        let meant = reply.with_notices view (state_of session.now) expunges answer in
        IfOk result (λ outcome. outcome ≡ meant) }
    ensures told { let own = state_of session.now in
        IfOk result (λ outcome. MayTell (Some own) outcome.session) }
{
    let found = notices_of(alloc, planned, session, expunges, &answer);
    let (found, answer) = beside(found, answer)?;
    let SessionNotices { lines, told } = found;
    let effect = noting(answer.enables(), told);
    let (answer, effect) = beside(answer.followed_by(lines), effect)?;
    Outcome::answered(answer, effect)
}
