//! The run of a script.
//!
//! The mailboxes of the head are saved as CREATE and SETACL would save them, since a keeper takes changes
//! and no whole world.

use crate::error::ScriptError;
use crate::step::{Event, ScriptStep};
use crate::transcript::Transcript;
use imap_hall::{Act, Hall, HallError, Receipt, SharedReplies, Step};
use imap_keeper::Keeper;
use imap_lex::{Frame, Framer, LexError};
use imap_print::{Farewell, Response};
use imap_values::beside;
use std::alloc::Global;
use std::collections::HashMap;
use std::io::Write;

/// Makes the steps of a script, and writes the transcript. Returns the keeper.
pub(crate) fn run_steps<K: Keeper, O: Write + Drop>(
    alloc: Global,
    hall: Hall<K>,
    max_octets: u64,
    steps: &[ScriptStep],
    output: O,
) -> (K, Result<(), ScriptError>) {
    match Transcript::new(alloc, output) {
        Ok(transcript) => {
            let mut run = Run {
                hall,
                max_octets,
                framers: HashMap::new(alloc),
                transcript,
            };
            let ended = run.make_all(alloc, steps);
            (run.into_keeper(), ended)
        }
        Err(error) => (hall.into_keeper(), Err(error)),
    }
}

/// The hall, the framers of its connections, and the transcript.
struct Run<K: Keeper, O: Write + Drop> {
    hall: Hall<K>,
    /// The most octets that the literals of one command may have together.
    max_octets: u64,
    /// A framer for each open session, by its label.
    framers: HashMap<String, Framer>,
    transcript: Transcript<O>,
}

impl<K: Keeper, O: Write + Drop> Run<K, O> {
    fn into_keeper(self) -> K {
        let Run {
            hall,
            max_octets: _,
            framers: _,
            transcript: _,
        } = self;
        hall.into_keeper()
    }

    /// Makes all steps, and flushes the transcript.
    fn make_all(&mut self, alloc: Global, steps: &[ScriptStep]) -> Result<(), ScriptError> {
        for step in steps {
            self.make(alloc, step)?;
        }
        self.transcript.finish()
    }

    fn make(&mut self, alloc: Global, step: &ScriptStep) -> Result<(), ScriptError> {
        match &step.event {
            Event::Open => self.open(alloc, step),
            Event::Poll => self.act(alloc, step, Act::Poll),
            Event::Leave => self.leave(alloc, step),
            Event::Octets(octets) => self.receive(alloc, step, octets.as_slice()),
        }
    }

    /// Begins a stream, unless the session is refused.
    fn open(&mut self, alloc: Global, step: &ScriptStep) -> Result<(), ScriptError> {
        let replies = self.make_act(alloc, step, Act::Open)?;
        let told = self.begin(alloc, step, replies.as_slice());
        drop(replies);
        told
    }

    /// Begins the stream of a session that has been opened, and writes the replies.
    fn begin(
        &mut self,
        alloc: Global,
        step: &ScriptStep,
        replies: &[Response],
    ) -> Result<(), ScriptError> {
        if self.hall.is_open(&step.who) {
            let label = String::from_str(alloc, step.label.as_str())?;
            self.framers
                .insert(label, Framer::new(alloc, self.max_octets))?;
        }
        self.transcript.tell(alloc, step.label.as_str(), replies)
    }

    /// Ends the session's stream, and makes the act Leave.
    fn leave(&mut self, alloc: Global, step: &ScriptStep) -> Result<(), ScriptError> {
        drop(self.framers.remove(step.label.as_str()));
        self.act(alloc, step, Act::Leave)
    }

    /// Takes octets of the session's client. Octets that follow the end of the session are dropped.
    fn receive(
        &mut self,
        alloc: Global,
        step: &ScriptStep,
        octets: &[u8],
    ) -> Result<(), ScriptError> {
        for frame in self.frames(alloc, step, octets)? {
            self.take_frame(alloc, step, frame)?;
        }
        Ok(())
    }

    /// Takes a frame of the session's client, unless the session has ended.
    fn take_frame(
        &mut self,
        alloc: Global,
        step: &ScriptStep,
        frame: Frame,
    ) -> Result<(), ScriptError> {
        if !self.framers.contains_key(step.label.as_str()) {
            drop(frame);
            return Ok(());
        }
        match frame {
            Frame::Continue => self.tell(alloc, step, Response::Ready),
            Frame::Hangup => self.hang_up(alloc, step),
            frame => self.act_on_frame(alloc, step, frame),
        }
    }

    /// The frames that end in `octets`, and none if the session isn't open.
    fn frames(
        &mut self,
        alloc: Global,
        step: &ScriptStep,
        octets: &[u8],
    ) -> Result<Vec<Frame>, ScriptError> {
        match self.framers.get_mut(step.label.as_str()) {
            Some(framer) => match framer.feed(alloc, octets) {
                Ok(frames) => Ok(frames),
                Err(LexError::Closed) => Ok(Vec::new(alloc)),
                Err(LexError::Memory) => Err(ScriptError::Memory),
            },
            None => Ok(Vec::new(alloc)),
        }
    }

    /// Ends a session whose line was too long, or that sent too long a literal without waiting.
    fn hang_up(&mut self, alloc: Global, step: &ScriptStep) -> Result<(), ScriptError> {
        self.tell(alloc, step, Response::Bye(Farewell::LimitReached))?;
        self.leave(alloc, step)
    }

    /// Writes a response that no step of the machine gave.
    fn tell(
        &mut self,
        alloc: Global,
        step: &ScriptStep,
        response: Response,
    ) -> Result<(), ScriptError> {
        let responses = [response];
        let told = self
            .transcript
            .tell(alloc, step.label.as_str(), responses.as_slice());
        drop(responses);
        told
    }

    /// Makes the act of a frame, if it has one.
    fn act_on_frame(
        &mut self,
        alloc: Global,
        step: &ScriptStep,
        frame: Frame,
    ) -> Result<(), ScriptError> {
        match Act::of_frame(alloc, frame)? {
            Some(act) => self.act(alloc, step, act),
            None => Ok(()),
        }
    }

    /// Makes an act of an open session.
    fn act(&mut self, alloc: Global, step: &ScriptStep, act: Act) -> Result<(), ScriptError> {
        let replies = self.make_act(alloc, step, act)?;
        if !self.hall.is_open(&step.who) {
            drop(self.framers.remove(step.label.as_str()));
        }
        let told = self
            .transcript
            .tell(alloc, step.label.as_str(), replies.as_slice());
        drop(replies);
        told
    }

    /// Makes the act, and returns the replies.
    fn make_act(
        &mut self,
        alloc: Global,
        step: &ScriptStep,
        act: Act,
    ) -> Result<SharedReplies, ScriptError> {
        let (who, act) = beside(step.who.try_copy(), act)?;
        let step = Step {
            who,
            at: step.at,
            act,
        };
        let replies = self.replies_to(alloc, &step);
        drop(step);
        replies
    }

    /// Makes the step in the hall, and returns its replies.
    fn replies_to(&mut self, alloc: Global, step: &Step) -> Result<SharedReplies, ScriptError> {
        match self.hall.step(alloc, step) {
            Ok(
                Receipt {
                    place: _,
                    own: _,
                    replies,
                },
            ) => Ok(replies),
            // No script has as many steps as a journal has room for.
            Err(HallError::Memory | HallError::Exhausted) => Err(ScriptError::Memory),
        }
    }
}
