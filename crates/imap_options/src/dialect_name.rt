//! The dialects that clients are spoken to in.

/// The dialect that clients are spoken to in.
#[derive(Clone, Copy, PartialEq, Eq)]
pub enum DialectName {
    /// The server's own, IMAP4rev2 (RFC 9051).
    Rev2,
    /// IMAP4rev1 (RFC 3501), until a client enables IMAP4rev2.
    Rev1,
}

impl DialectName {
    /// Reads the value of the option. Returns `None` for another word.
    pub fn read(text: &str) -> Option<DialectName> {
        match text {
            "rev2" => Some(DialectName::Rev2),
            "rev1" => Some(DialectName::Rev1),
            _ => None,
        }
    }
}
