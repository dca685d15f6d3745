//! How folders that are loaded stand for mailboxes.

/// How folders that are loaded stand for mailboxes.
#[derive(Clone, Copy, PartialEq, Eq)]
pub enum LayoutName {
    /// As `dump` writes them; a user's folder that can't be so is one of Maildir++.
    Recognised,
    /// As `dump` writes them.
    Dump,
    /// As in Maildir++, the layout of Dovecot and Courier.
    Maildirpp,
}

impl LayoutName {
    /// Reads the value of the option, which is empty without the option. Returns `None` for another word.
    pub fn read(text: &str) -> Option<LayoutName> {
        match text {
            "" => Some(LayoutName::Recognised),
            "dump" => Some(LayoutName::Dump),
            "maildir++" => Some(LayoutName::Maildirpp),
            _ => None,
        }
    }
}
