//! Envelopes, structures and parts of messages, beside those that Python found.

mod envelopes;
mod numbered;
mod structures;
