//! Messages that a mailbox has already.

use crate::moments::seconds_of;
use imap_batch::NewMessage;
use imap_lex::Octets;
use imap_mailbox::{Mailbox, Near};
use std::alloc::{AllocError, Global};

/// A message that a mailbox has.
#[derive(Drop)]
struct HeldMessage {
    uid: u32,
    octets: Octets,
    /// The moment of its internal date, in seconds from the beginning of 1970.
    moment: i64,
    /// Whether a file was found to be this message.
    is_met: bool,
}

/// The messages that a mailbox has, by their octets. Each is met by one file.
#[derive(Drop)]
pub(crate) struct HeldMessages(Vec<HeldMessage>);

impl HeldMessages {
    /// No messages.
    pub(crate) fn none(alloc: Global) -> HeldMessages {
        HeldMessages(Vec::new(alloc))
    }

    /// The messages of the mailbox, whose octets aren't copied.
    pub(crate) fn of(alloc: Global, mailbox: &Mailbox) -> Result<HeldMessages, AllocError> {
        let rows = mailbox.rows("");
        let mut near = Near::start();
        let mut held = Vec::new(alloc);
        for place in 0..rows.len() {
            let row = rows.get_near(place, &mut near);
            let octets = row.octets.try_copy()?;
            let moment = seconds_of(row.date);
            held.push(HeldMessage {
                uid: row.uid,
                octets,
                moment,
                is_met: false,
            })?;
        }
        held.as_mut_slice().sort_unstable_by(|one, other| one
            .octets
            .as_slice()
            .cmp(other.octets.as_slice()));
        Ok(HeldMessages(held))
    }

    /// The UID of a message with these octets and this moment that no file met before. It is met then.
    pub(crate) fn meet(&mut self, message: &NewMessage) -> Option<u32> {
        let octets = message.octets.as_slice();
        let moment = seconds_of(message.date);
        let start = self
            .0
            .as_slice()
            .partition_point(|held| held.octets.as_slice() < octets);
        for held in self.0.as_mut_slice().iter_mut().skip(start) {
            if held.octets.as_slice() != octets {
                return None;
            }
            if held.moment == moment && !held.is_met {
                held.is_met = true;
                return Some(held.uid);
            }
        }
        None
    }
}
