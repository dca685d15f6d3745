//! The tokens of a pattern.

/// One token of a pattern of LIST (RFC 9051, section 6.3.9).
#[derive(Clone, Copy)]
pub enum Token {
    /// `*`, which stands for any octets.
    Any,
    /// `%`, which stands for any octets but `/`.
    AnyInLevel,
    /// An octet that stands for itself.
    Octet(u8),
}
