//! What tells one state of a mailbox from the next.

ghost use Rattle.std.specs.Prelude.{◌≡◌};
ghost use Rattle.imap_core.specs.Version as specs;

use imap_view::Readable;

/// UIDVALIDITY and HIGHESTMODSEQ of a mailbox, as its user sees it: while both stay, so do its messages and their flags
/// (RFC 7162, section 3.1).
#[derive(Clone, Copy)]
pub struct MailboxVersion {
    pub uid_validity: u32,
    pub highest_mod_seq: u64,
}

impl MailboxVersion {
    pub(crate) fn of(mailbox: &Readable<'_>) -> MailboxVersion
        ensures { result ≡ specs.version_of mailbox.now }
    {
        MailboxVersion {
            uid_validity: mailbox.validity,
            highest_mod_seq: mailbox.highest,
        }
    }
}
