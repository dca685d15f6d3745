//! What the server says while it runs: lines of standard error.
//!
//! No line is waited for: one that can't be written at once is dropped, and counted. The kit's `log` would put a start
//! among the warnings, and ask each line for a level of its own. No line has a text of a message or a name of a
//! mailbox.

use crate::reception::SEATS;
use crate::standard_error::takes_line;
use imap_names::UserName;
use imap_options::LogLevel;
use std::fmt::Display;
use std::net::SocketAddr;
use std::sync::{Mutex, Wait};

/// Says lines on standard error, as far as it takes them at once. A line has at most 1,024 octets.
#[derive(Drop)]
pub struct Report<'a, R: Eprint> {
    rt: &'a R,
    level: LogLevel,
    /// How many lines were dropped since the last one that was written. Who writes holds the lock, so that of two
    /// threads one writes where there was room for one line.
    dropped: Mutex<u64>,
}

impl<'a, R: Eprint> Report<'a, R> {
    /// Says the lines of this level.
    pub fn new(rt: &'a R, level: LogLevel) -> Report<'a, R> {
        Report {
            rt,
            level,
            dropped: Mutex::new(0),
        }
    }

    /// Says how many octets of the database's log were not read when it was opened. No other thread runs then.
    pub(crate) fn unread_log(&self, octets: u64) {
        if self.says_errors() && takes_line() {
            let _said = eprintln!(self.rt;
                "imapd: {octets} octets at the end of the database's log are not read: torn by a crash, or damaged"
            );
        }
    }

    fn says_errors(&self) -> bool {
        self.level != LogLevel::Off
    }

    fn says_connections(&self) -> bool {
        self.level == LogLevel::Connections
    }
}

impl<'a, R: Eprint + Wait> Report<'a, R> {
    /// Says that mail is served: of how many users, mailboxes and messages, and after how many milliseconds.
    pub(crate) fn started(&self, users: usize, mailboxes: usize, messages: u64, millis: u128) {
        if self.says_errors() {
            self.say(format_args!(
                "imapd: serving {users} users, {mailboxes} mailboxes, {messages} messages after {millis} ms"
            ));
        }
    }

    /// Says that the store refused to save a change.
    pub(crate) fn save_refused(&self) {
        if self.says_errors() {
            self.say("imapd: the store refused a change");
        }
    }

    /// Says that the store saves changes again.
    pub(crate) fn saves_again(&self) {
        if self.says_errors() {
            self.say("imapd: the store saves changes again");
        }
    }

    /// Says how many logins of the user's clients were wrong since the last right one.
    pub(crate) fn wrong_login(&self, user: &UserName, count: usize) {
        if self.says_errors() {
            let user = user.as_str();
            self.say(format_args!("imapd: {user}: wrong login, {count} since the last right one"));
        }
    }

    /// Says that the user's session with this number was opened, that the user has this many, and whose it is.
    pub(crate) fn opened(
        &self,
        user: &UserName,
        number: usize,
        sessions: usize,
        peer: Option<SocketAddr>,
    ) {
        if self.says_connections() {
            let user = user.as_str();
            match peer {
                Some(peer) => self.say(format_args!(
                    "imapd: {user}.{number} opened, {sessions} of {SEATS} sessions, from {peer}"
                )),
                None => self.say(format_args!(
                    "imapd: {user}.{number} opened, {sessions} of {SEATS} sessions"
                )),
            }
        }
    }

    /// Says why it ended, and how many sessions the user has then.
    pub(crate) fn ended(&self, user: &UserName, number: usize, sessions: usize, why: &str) {
        if self.says_connections() {
            let user = user.as_str();
            self.say(format_args!(
                "imapd: {user}.{number} ended: {why}, {sessions} of {SEATS} sessions"
            ));
        }
    }

    /// Says that a connection was refused, since the user has as many as may be.
    pub(crate) fn refused(&self, user: &UserName, peer: Option<SocketAddr>) {
        self.say_of(user, "one connection too many was refused", peer);
    }

    /// Says that a connection ended before a login.
    pub(crate) fn not_logged_in(&self, user: &UserName, peer: Option<SocketAddr>) {
        self.say_of(user, "a connection ended before its login", peer);
    }

    /// Says what became of a connection that has no session.
    fn say_of(&self, user: &UserName, what: &str, peer: Option<SocketAddr>) {
        if self.says_connections() {
            let user = user.as_str();
            match peer {
                Some(peer) => self.say(format_args!("imapd: {user}: {what}, from {peer}")),
                None => self.say(format_args!("imapd: {user}: {what}")),
            }
        }
    }

    /// Writes the line if standard error takes it at once, after one that says how many were dropped before. Else drops
    /// and counts it.
    fn say<D: Display + Drop>(&self, line: D) {
        let mut dropped = self.dropped.lock(self.rt);
        if !takes_line() {
            *dropped = dropped.saturating_add(1);
            return;
        }
        if *dropped > 0 {
            let count = *dropped;
            let _said = eprintln!(self.rt;
                "imapd: {count} lines were dropped, since nobody read standard error"
            );
            *dropped = 0;
        }
        if takes_line() {
            let _said = self.rt.eprintln(line);
        } else {
            *dropped = 1;
        }
    }
}
