//! Step lines of a script.

use crate::line::LineError;
use imap_hall::{Moment, SessionId, SessionNumber};
use imap_limits::read_number;
use imap_names::UserName;
use imap_values::beside;
use std::alloc::{AllocError, Global};

/// What happens to a session.
#[derive(Drop)]
pub(crate) enum Event {
    Open,
    Poll,
    Leave,
    /// The client sends these octets.
    Octets(Vec<u8>),
}

/// A step line.
#[derive(Drop)]
pub(crate) struct ScriptStep {
    pub(crate) who: SessionId,
    /// The session as the transcript names it, as `ann.1`.
    pub(crate) label: String,
    pub(crate) at: Moment,
    pub(crate) event: Event,
}

impl ScriptStep {
    /// Reads a line `SESSION TEXT`. Returns `None` if the session's user has no user name: nobody knows
    /// that user.
    pub(crate) fn read(
        alloc: Global,
        at: Moment,
        session: &str,
        text: &str,
    ) -> Result<Option<ScriptStep>, LineError> {
        let (user, number) = session.rsplit_once('.').ok_or(LineError::Bad)?;
        let number = read_session_number(number).ok_or(LineError::Bad)?;
        let event = Event::read(alloc, text)?;
        let (user, event) = beside(UserName::read(alloc, user), event)?;
        match user {
            Some(user) => Ok(Some(ScriptStep::of(alloc, at, SessionId { user, number }, event)?)),
            None => {
                drop(event);
                Ok(None)
            }
        }
    }

    /// The step of a session.
    fn of(
        alloc: Global,
        at: Moment,
        who: SessionId,
        event: Event,
    ) -> Result<ScriptStep, AllocError> {
        let label = label_of(alloc, &who);
        let (label, (who, event)) = beside(label, (who, event))?;
        Ok(ScriptStep {
            who,
            label,
            at,
            event,
        })
    }
}

/// The session as the transcript names it.
fn label_of(alloc: Global, who: &SessionId) -> Result<String, AllocError> {
    let name = who.user.as_str();
    let number = who.number.get();
    format!(in alloc; "{name}.{number}")
}

impl Event {
    fn read(alloc: Global, text: &str) -> Result<Event, LineError> {
        match text {
            "open" => Ok(Event::Open),
            "poll" => Ok(Event::Poll),
            "leave" => Ok(Event::Leave),
            _ => Ok(Event::Octets(read_octets(alloc, text)?)),
        }
    }
}

/// The octets of `< TEXT`, then CRLF, or the octets of `raw HEX`.
fn read_octets(alloc: Global, text: &str) -> Result<Vec<u8>, LineError> {
    if let Some(line) = text.strip_prefix("<") {
        let line = line.strip_prefix(" ").unwrap_or(line);
        let mut octets = Vec::from_slice(alloc, line.as_bytes())?;
        octets.extend_from_slice(b"\r\n")?;
        return Ok(octets);
    }
    let digits = text.strip_prefix("raw ").ok_or(LineError::Bad)?;
    Ok(hex::decode(alloc, digits)?)
}

fn read_session_number(text: &str) -> Option<SessionNumber> {
    SessionNumber::new(read_number(text, 1, u64::from(u32::MAX))? as u32)
}
