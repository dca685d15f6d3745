//! What a session may be told.

/// What a session may be told at the end of a command, and how.
#[derive(Clone, Copy)]
pub struct NoticeOptions {
    /// Expunged messages may be told (RFC 9051, section 7.5.1).
    pub expunges: bool,
    /// QRESYNC is enabled: expunged messages are told by UIDs (RFC 7162, section 3.2.10).
    pub qresync: bool,
    /// CONDSTORE is enabled: mod-sequences are told (RFC 7162, section 3.2).
    pub condstore: bool,
}
