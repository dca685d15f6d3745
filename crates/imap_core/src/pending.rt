//! The outcome of a step before notices are added.

ghost use Rattle.std.specs.Prelude.{◌≡◌};
ghost use Rattle.imap_answer.specs.Alike.{effects_of};
ghost use Rattle.imap_core.specs.Pending as specs;
ghost use Rattle.imap_world.specs.Ready.{AreApart};

use crate::idling::Idling;
use crate::outcome::Outcome;
use imap_answer::Answer;
use imap_world::Effect;

/// What a step is answered, before it is known what its session is told of its mailbox: that is found from the
/// mailbox as the step's change leaves it.
#[derive(Drop)]
pub(crate) enum Pending {
    /// The outcome is complete. No notices are added.
    Whole(Outcome),
    /// The answer to a command, before whose last line notices are put, and whether these may have expunges.
    Command(Answer, bool),
    /// An IDLE (RFC 2177) begins, goes on or ends.
    Idle(Idling),
}

impl Pending {
    /// What the step asks of the mailboxes.
    pub(crate) fn effects(&self) -> &[Effect]
        ensures effects { result.now ≡ effects_of (specs.effect_in self.now) }
        ensures apart { AreApart result.now }
    {
        match self {
            Pending::Whole(outcome) => outcome.effect().as_slice(),
            Pending::Command(answer, _) => answer.effect().as_slice(),
            Pending::Idle(_) => &[],
        }
    }
}
