//! COPY or MOVE.

/// Whether the messages that are copied stay in their mailbox.
#[derive(Clone, Copy)]
pub enum TransferKind {
    /// They stay where they are (RFC 9051, section 6.4.7).
    Copy,
    /// They are expunged there (RFC 9051, section 6.4.8).
    Move,
}
