//! What a terminal is told of work that takes long.

use imap_maildir::{MaildirError, Progress};
use std::io::IsTerminal;

/// Tells standard error what is left out, and how far it is if that is a terminal.
#[derive(Drop)]
pub(crate) struct ToldProgress<'a, R: Eprint> {
    rt: &'a R,
    is_terminal: bool,
}

impl<'a, R: Eprint> ToldProgress<'a, R> {
    /// `stderr` is where `rt` tells its errors.
    pub(crate) fn new(rt: &'a R, stderr: &impl IsTerminal) -> ToldProgress<'a, R> {
        ToldProgress {
            rt,
            is_terminal: stderr.is_terminal(),
        }
    }

    /// Ends the line.
    pub(crate) fn end(&self) {
        if self.is_terminal {
            let _said = eprintln!(self.rt);
        }
    }
}

impl<R: Eprint> Progress for ToldProgress<'_, R> {
    fn done(&mut self, messages: u64) {
        if self.is_terminal {
            let _said = eprint!(self.rt; "\rimapd: {messages} messages");
        }
    }

    fn passed_over(&mut self, error: &MaildirError) {
        let _said = eprintln!(self.rt; "imapd: {error}");
    }

    fn found_maildirpp(&mut self, path: &str) {
        let _said = eprintln!(self.rt; "imapd: {path}: read as Maildir++");
    }
}
