//! What a session has from its Open to its Leave.

use crate::gate::Gate;
use crate::moments::Moments;
use imap_hall::SessionId;
use std::alloc::Global;

/// A session's identifier, its clock, and the gate before its requests.
#[derive(Drop)]
pub(crate) struct Session<'a, C: Moments, G: Gate> {
    pub(crate) alloc: Global,
    pub(crate) who: &'a SessionId,
    pub(crate) clock: &'a C,
    pub(crate) gate: &'a G,
}
