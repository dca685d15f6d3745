//! Readers and writers, and what they answered last.
//!
//! What the reader answered last is noted, so that the end of the input isn't taken for a read that brought
//! nothing, nor the other way round; and that of a writer, so that a session breaks off only where it failed.

ghost use Rattle.std.specs.Prelude.{◌≡◌, ◌<◌, ◌≤◌, [], length, take, IfOk, OnErr, OnOk, Some};
ghost use Rattle.std.specs.Io.KnownBytes.{Appends, Consumes};
ghost use Rattle.imap_serve.specs.declared.watched.Answer.TheVariants as specs;
ghost use Rattle.imap_serve.specs.Reading.{Accepts, AppendsPart, Brings, HasFailed, HasNotWritten, IsAnswer};
ghost use Rattle.imap_serve.specs.Reading.{IsAnswerOf, IsQuiet, IsTaken, Takes, noted, unasked};
ghost use Rattle.imap_serve.specs.Reading.{interruptions_after};

use std::io;
use std::io::{ErrorKind, Read, Write};

/// How many times in a row a read or a write that was interrupted is tried.
const MAX_TRIES: u32 = 1001;

/// A reader or a writer, and what it answered last. Only its own calls note that.
#[derive(Drop)]
pub struct Watched<T> {
    inner: T,
    log: Log,
    /// How many reads in a row brought nothing.
    quiet: u64,
}

/// What a reader or a writer answered last.
#[derive(Clone, Copy)]
pub(crate) struct Log {
    pub(crate) last: Option<Answer>,
    /// How many of the last answers in a row were interruptions.
    pub(crate) interruptions: u64,
}

impl Log {
    /// Notes an answer.
    fn note(&mut self, answer: Answer)
        ensures { self.new ≡ noted self.old answer }
    {
        self.last = Some(answer);
        self.interruptions = match answer {
            Answer::Interrupted => self.interruptions.saturating_add(1),
            Answer::Octets(_) | Answer::Nothing | Answer::Fault => 0,
        };
    }
}

/// What a reader or a writer answers.
#[derive(Clone, Copy)]
pub(crate) enum Answer {
    /// This many octets. A reader has none at the end.
    Octets(usize),
    /// Nothing came in time.
    Nothing,
    Interrupted,
    Fault,
}

/// What a read brought.
#[derive(Clone, Copy)]
pub(crate) enum Taken {
    /// This many octets.
    Octets(usize),
    End,
    /// Nothing came in time.
    Occasion,
}

/// The reader or the writer failed.
#[derive(Clone, Copy)]
pub(crate) struct Failed;

impl<T> Watched<T> {
    /// A reader or a writer that was not asked yet.
    pub fn new(inner: T) -> Watched<T>
        ensures inner { result.inner ≡ inner }
        ensures fresh { (result.log ≡ unasked) × (result.quiet ≡ 0) }
    {
        Watched {
            inner,
            log: Log {
                last: None,
                interruptions: 0,
            },
            quiet: 0,
        }
    }

    /// Returns the reader or the writer.
    pub fn into_inner(self) -> T
        ensures { result ≡ self.inner }
    {
        self.inner
    }

    /// Returns how many reads in a row brought nothing.
    pub(crate) fn quiet(&self) -> u64
        ensures { result ≡ self.now.quiet }
    {
        self.quiet
    }
}

impl<I: Read> Watched<I> {
    /// Reads once, and notes what the reader answered.
    fn ask(&mut self, buf: &mut [u8]) -> Answer
        requires { 0 < length buf.old }
        ensures brings { Brings result (I.remaining self.old.inner) (I.remaining self.new.inner) buf.new }
        ensures noted { self.new.log ≡ noted self.old.log result }
        ensures quiet { self.new.quiet ≡ self.old.quiet }
        ensures len { length buf.new ≡ length buf.old }
    {
        let read = self.inner.read(buf);
        let answer = answer_of(&read);
        self.log.note(answer);
        answer
    }

    /// Reads into a buffer that isn't empty. A read that was interrupted is made again, up to 1,000 times.
    pub(crate) fn read(&mut self, buf: &mut [u8]) -> Result<Taken, Failed>
        requires { 0 < length buf.old }
        ensures ok { IfOk result (λ taken.
            Takes taken (I.remaining self.old.inner) (I.remaining self.new.inner) buf.new) }
        ensures answered { IfOk result (λ taken. IsTaken taken self.new.log.last) }
        ensures quiet { IfOk result (λ taken. IsQuiet taken self.old.quiet self.new.quiet) }
        ensures err { OnErr result (Consumes (I.remaining self.old.inner) (I.remaining self.new.inner) []) }
        ensures fault { OnErr result (HasFailed self.new.log) }
    {
        for _ in 0..MAX_TRIES {
            match self.ask(buf) {
                Answer::Octets(0) => return Ok(Taken::End),
                Answer::Octets(count) => {
                    self.quiet = 0;
                    return Ok(Taken::Octets(count));
                }
                Answer::Nothing => {
                    self.quiet = self.quiet.saturating_add(1);
                    return Ok(Taken::Occasion);
                }
                Answer::Interrupted => {}
                Answer::Fault => return Err(Failed),
            }
        }
        Err(Failed)
    }
}

/// Returns what the result of a read or a write says.
fn answer_of(read: &io::Result<usize>) -> Answer
    ensures { IsAnswer read.now result }
{
    match read {
        Ok(count) => Answer::Octets(*count),
        Err(error) => answer_of_kind(error.kind()),
    }
}

fn answer_of_kind(kind: ErrorKind) -> Answer
    ensures { IsAnswerOf kind result }
{
    if kind == ErrorKind::WouldBlock || kind == ErrorKind::TimedOut {
        Answer::Nothing
    } else if kind == ErrorKind::Interrupted {
        Answer::Interrupted
    } else {
        Answer::Fault
    }
}

impl<O: Write> Watched<O> {
    /// Writes once, and notes what the writer answered.
    fn offer(&mut self, bytes: &[u8]) -> Answer
        ensures accepts { Accepts result (O.contents self.old.inner) (O.contents self.new.inner) bytes.now }
        ensures noted { self.new.log ≡ noted self.old.log result }
    {
        let written = self.inner.write(bytes);
        let answer = answer_of(&written);
        self.log.note(answer);
        answer
    }

    /// Writes some octets of a piece that isn't empty. A write that was interrupted is made again, up to 1,000
    /// times. A write of nothing is a failure.
    fn write_some(&mut self, bytes: &[u8]) -> Result<usize, Failed>
        requires { 0 < length bytes.now }
        ensures ok { IfOk result (λ n.
            Appends (O.contents self.old.inner) (O.contents self.new.inner) (take n bytes.now)
            × (0 < n) × (n ≤ length bytes.now)) }
        ensures answered { IfOk result (λ n. self.new.log.last ≡ Some (specs.Octets n)) }
        ensures err { OnErr result (Appends (O.contents self.old.inner) (O.contents self.new.inner) []) }
        ensures fault { OnErr result (HasNotWritten self.new.log) }
    {
        for _ in 0..MAX_TRIES {
            match self.offer(bytes) {
                Answer::Octets(0) | Answer::Nothing | Answer::Fault => return Err(Failed),
                Answer::Octets(count) => return Ok(count),
                Answer::Interrupted => continue,
            }
        }
        Err(Failed)
    }

    /// Writes all octets, or the first of them and then fails.
    pub(crate) fn write_whole(&mut self, bytes: &[u8]) -> Result<(), Failed>
        ensures ok { OnOk result
            (Appends (O.contents self.old.inner) (O.contents self.new.inner) bytes.now) }
        ensures err { OnErr result
            (AppendsPart (O.contents self.old.inner) (O.contents self.new.inner) bytes.now) }
        ensures fault { OnErr result (HasNotWritten self.new.log) }
    {
        let mut done = 0;
        while done < bytes.len() {
            done += self.write_some(&bytes[done..])?;
        }
        Ok(())
    }
}
