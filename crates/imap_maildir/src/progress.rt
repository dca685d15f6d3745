//! Who is told how far the work is.

use crate::maildir_error::MaildirError;

/// Is told how far the work is, and what can't be written or read.
pub trait Progress {
    /// Is told how many messages are done.
    fn done(&mut self, messages: u64);

    /// Is told what is left out or changed, and why. The work goes on.
    fn passed_over(&mut self, error: &MaildirError);

    /// Is told of a folder that is read as one of Maildir++.
    fn found_maildirpp(&mut self, path: &str);
}
