//! The outcome of a step, before the step is made.

ghost use Rattle.std.specs.Prelude.{◌≡◌, IfOk};
ghost use Rattle.std.specs.List.{AllByRecursion};
ghost use Rattle.imap_print.specs.Lines.{IsPrintable};
ghost use Rattle.imap_core.specs.Outcome as specs;

use imap_answer::Answer;
use imap_print::Response;
use imap_sessions::SessionEffect;
use imap_values::{beside, pushed};
use imap_world::Effect;
use std::alloc::{AllocError, Global};
use std::marker::Model;

/// The replies to a step, its effect on the mailboxes, and its effect on its session. A client reads
/// each reply as one line.
#[derive(Drop)]
pub(crate) struct Outcome {
    replies: Vec<Response>,
    effect: Option<Effect>,
    session: SessionEffect,
}

impl Model for Outcome {
    ghost use Rattle.std.specs.Prelude.{List, Option, refl};
    ghost use Rattle.std.specs.Coded.{code_by, coded×, codes};
    ghost use Rattle.std.specs.List.{AllByRecursion};
    ghost use Rattle.imap_print.specs.Lines.{IsPrintable};
    ghost use Rattle.imap_print.specs.contracts.response.Response.{the_row as response_row};
    ghost use Rattle.imap_print.specs.declared.response.Response.{Response};
    ghost use Rattle.imap_world.specs.contracts.effect.Effect.{the_row as effect_row};
    ghost use Rattle.imap_world.specs.declared.effect.Effect.{Effect};
    ghost use Rattle.imap_sessions.specs.contracts.sessions.SessionEffect.{the_row as session_row};
    ghost use Rattle.imap_sessions.specs.declared.sessions.SessionEffect.{SessionEffect};
    ghost use Rattle.imap_core.specs.Outcome as specs;

    ghost Value = { specs.Outcome };

    ghost coded = { code_by (List Response × (Option Effect × SessionEffect))
        (Prim.hlevel (codes, response_row.coded, effect_row.coded, session_row.coded))
        (λ outcome. (outcome.replies, (outcome.effect, outcome.session)))
        (λ p. record { replies = p.0; effect = p.1.0; session = p.1.1 }) (λ _. refl) };

    ghost view = { λ outcome. record {
      replies = outcome.replies.items;
      effect = outcome.effect;
      session = outcome.session;
    } };

    ghost invariant = { λ outcome. AllByRecursion IsPrintable outcome.replies.items };
}

impl Outcome {
    /// The outcome of a command with this answer.
    pub(crate) fn answered(answer: Answer, session: SessionEffect) -> Result<Outcome, AllocError>
        ensures { IfOk result (λ outcome. outcome ≡ specs.answered answer session) }
    {
        let (untagged, last, effect) = answer.into_parts();
        let rest = (effect, session);
        let (replies, (effect, session)) = beside(pushed(untagged, last), rest)?;
        Ok(Outcome {
            replies,
            effect,
            session,
        })
    }

    /// The outcome of a step that isn't a command: these replies, and no effect.
    pub(crate) fn said(replies: Vec<Response>, session: SessionEffect) -> Outcome
        requires { AllByRecursion IsPrintable replies.items }
        ensures { result ≡ specs.said replies.items session }
    {
        Outcome {
            replies,
            effect: None,
            session,
        }
    }

    /// The outcome that says nothing and leaves the session as it is.
    pub(crate) fn silence(alloc: Global) -> Outcome
        ensures { result ≡ specs.silence }
    {
        Outcome::said(Vec::new(alloc), SessionEffect::Keep)
    }

    /// What the step asks of the mailboxes.
    pub(crate) fn effect(&self) -> &Option<Effect>
        ensures { result.now ≡ self.now.effect }
    {
        &self.effect
    }

    /// Returns the replies and the effect on the session.
    pub(crate) fn into_parts(self) -> (Vec<Response>, SessionEffect)
        ensures replies { result.0.items ≡ self.replies }
        ensures session { result.1 ≡ self.session }
        ensures printable { AllByRecursion IsPrintable result.0.items }
    {
        let Outcome {
            replies,
            effect: _,
            session,
        } = self;
        (replies, session)
    }
}
