//! The attributes of a mailbox name.

use imap_values::Same;

/// Whether there are names below a name.
#[derive(Clone, Copy, PartialEq, Eq)]
pub enum Children {
    /// The attribute is left out.
    Omitted,
    Has,
    HasNo,
}

/// The attributes of a mailbox name (RFC 9051, section 7.3.1).
#[derive(Clone, Copy, PartialEq, Eq)]
pub struct ListAttributes {
    pub non_existent: bool,
    pub children: Children,
    pub subscribed: bool,
}

impl Same for ListAttributes {
    fn is_same(&self, other: &ListAttributes) -> bool {
        self == other
    }
}
