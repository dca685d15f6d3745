//! The answer to a command.

ghost use Rattle.std.specs.Prelude.{◌≡◌, [], IfOk};
ghost use Rattle.std.specs.List.{AllByRecursion};
ghost use Rattle.imap_print.specs.Lines.{IsPrintable};
ghost use Rattle.imap_answer.specs.Answer.{enabling, followed_by, nothing_enabled, preceded_by, telling};
ghost use Rattle.imap_view.specs.Summary.{AreRising};

use imap_print::{EnabledCapabilities, Response};
use imap_values::{beside, joined};
use imap_view::Effect;
use std::alloc::{AllocError, Global};
use std::marker::Model;

/// The untagged responses to a command, its last line, what it asks of the mailboxes, and what it enables in
/// its session. A client reads each response as one line, whatever names and tags are in it. The UIDs of
/// messages of which its lines tell the flags and the mod-sequence rise.
pub struct Answer {
    untagged: Vec<Response>,
    last: Response,
    effect: Option<Effect>,
    enables: EnabledCapabilities,
    told: Vec<u32>,
}

// Not derived: a derived one is proved anew in each crate that lets go of one.
impl Drop for Answer {
    fn drop(self) {
        let Answer {
            untagged: _,
            last: _,
            effect: _,
            enables: _,
            told: _,
        } = self;
    }
}

impl Model for Answer {
    ghost use Rattle.std.specs.Prelude.{ℕ, List, Option, refl};
    ghost use Rattle.std.specs.Coded.{code_by, coded×, codes};
    ghost use Rattle.std.specs.List.{AllByRecursion};
    ghost use Rattle.imap_view.specs.Summary.{AreRising};
    ghost use Rattle.imap_print.specs.Lines.{IsPrintable};
    ghost use Rattle.imap_print.specs.contracts.enabled.EnabledCapabilities.{the_row as enabled_row};
    ghost use Rattle.imap_print.specs.contracts.response.Response.{the_row as response_row};
    ghost use Rattle.imap_print.specs.declared.enabled.EnabledCapabilities.{EnabledCapabilities};
    ghost use Rattle.imap_print.specs.declared.response.Response.{Response};
    ghost use Rattle.imap_view.specs.EffectType.{the_row as effect_row};
    ghost use Rattle.imap_view.specs.Effect.{Effect};
    ghost use Rattle.imap_answer.specs.Answer as specs;

    ghost Value = { specs.Answer };

    ghost coded = { code_by
        (List Response × (Response × (Option Effect × (EnabledCapabilities × List ℕ))))
        (Prim.hlevel (codes, response_row.coded, effect_row.coded, enabled_row.coded))
        (λ answer. (answer.untagged, (answer.last, (answer.effect, (answer.enables, answer.told)))))
        (λ p. record {
          untagged = p.0;
          last = p.1.0;
          effect = p.1.1.0;
          enables = p.1.1.1.0;
          told = p.1.1.1.1;
        }) (λ _. refl) };

    ghost view = { λ answer. record {
      untagged = answer.untagged.items;
      last = answer.last;
      effect = answer.effect;
      enables = answer.enables;
      told = answer.told.items;
    } };

    ghost invariant = { λ answer. AllByRecursion IsPrintable answer.untagged.items
        × IsPrintable answer.last × AreRising answer.told.items };
}

impl Answer {
    /// The responses `untagged` and then the line `last`, and what the command asks of the mailboxes. It
    /// enables nothing, and tells of no message.
    pub fn new(
        alloc: Global,
        untagged: Vec<Response>,
        last: Response,
        effect: Option<Effect>,
    ) -> Answer
        requires untagged { AllByRecursion IsPrintable untagged.items }
        requires last { IsPrintable last }
        ensures { result ≡ record {
          untagged = untagged.items;
          last = last;
          effect = effect;
          enables = nothing_enabled;
          told = [];
        } }
    {
        Answer {
            untagged,
            last,
            effect,
            enables: EnabledCapabilities {
                condstore: false,
                imap4rev2: false,
                qresync: false,
            },
            told: Vec::new(alloc),
        }
    }

    /// The same answer, to a command that enables these capabilities.
    pub fn enabling(mut self, enables: EnabledCapabilities) -> Answer
        ensures { result ≡ enabling enables self }
    {
        self.enables = enables;
        self
    }

    /// The same answer, whose FETCH lines tell of messages with these UIDs.
    pub fn telling(mut self, uids: Vec<u32>) -> Answer
        requires { AreRising uids.items }
        ensures { result ≡ telling uids.items self }
    {
        self.told = uids;
        self
    }

    /// The same answer, after these responses.
    pub fn preceded_by(self, front: Vec<Response>) -> Result<Answer, AllocError>
        requires { AllByRecursion IsPrintable front.items }
        ensures { IfOk result (λ answer. answer ≡ preceded_by front.items self) }
    {
        let Answer {
            untagged,
            last,
            effect,
            enables,
            told,
        } = self;
        let (untagged, (last, effect, told)) = beside(
            joined(front, untagged),
            (last, effect, told),
        )?;
        Ok(Answer {
            untagged,
            last,
            effect,
            enables,
            told,
        })
    }

    /// The same answer, with these responses before its last line.
    pub fn followed_by(self, back: Vec<Response>) -> Result<Answer, AllocError>
        requires { AllByRecursion IsPrintable back.items }
        ensures { IfOk result (λ answer. answer ≡ followed_by back.items self) }
    {
        let Answer {
            untagged,
            last,
            effect,
            enables,
            told,
        } = self;
        let (untagged, (last, effect, told)) = beside(
            joined(untagged, back),
            (last, effect, told),
        )?;
        Ok(Answer {
            untagged,
            last,
            effect,
            enables,
            told,
        })
    }

    /// The last line.
    pub fn last(&self) -> &Response
        ensures { result.now ≡ self.now.last }
    {
        &self.last
    }

    /// What the command asks of the mailboxes.
    pub fn effect(&self) -> &Option<Effect>
        ensures { result.now ≡ self.now.effect }
    {
        &self.effect
    }

    /// What the command enables in its session.
    pub fn enables(&self) -> EnabledCapabilities
        ensures { result ≡ self.now.enables }
    {
        self.enables
    }

    /// The UIDs of messages of which the answer's lines tell the flags and the mod-sequence.
    pub fn told(&self) -> &[u32]
        ensures told { result.now ≡ self.now.told }
        ensures valid { AreRising result.now }
    {
        self.told.as_slice()
    }

    /// Returns the untagged responses, the last line and the effect.
    pub fn into_parts(self) -> (Vec<Response>, Response, Option<Effect>)
        ensures untagged { result.0.items ≡ self.untagged }
        ensures last { result.1 ≡ self.last }
        ensures effect { result.2 ≡ self.effect }
        ensures printable { AllByRecursion IsPrintable result.0.items × IsPrintable result.1 }
    {
        let Answer {
            untagged,
            last,
            effect,
            enables: _,
            told: _,
        } = self;
        (untagged, last, effect)
    }
}
