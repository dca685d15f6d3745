//! About how much memory steps hold.

use crate::memory::keys::keys_octets;
use crate::memory::{Holds, list_octets, plain_octets};
use imap_commands::{Command, Patterns, Request};
use imap_saving::{Act, Step};

/// The size of a step, of an item of a command, and of a text.
const STEP: u64 = 256;

const ITEM: u64 = 96;

const TEXT: u64 = 40;

/// About how many octets a step holds.
pub(crate) fn step_octets(step: &Step) -> u64 {
    match &step.act {
        Act::Do(request) => request_octets(request).saturating_add(STEP),
        Act::Open | Act::Poll | Act::Done | Act::Leave => STEP,
    }
}

fn request_octets(request: &Request) -> u64 {
    match request {
        Request::Command { tag: _, body } => command_octets(body),
        Request::Malformed { tag: _ } | Request::TooBig { tag: _ } => 0,
    }
}

fn command_octets(command: &Command) -> u64 {
    match command {
        Command::Append {
            mailbox,
            flags: _,
            date: _,
            message,
        } => mailbox.octets().saturating_add(message.octets()),
        Command::Search { keys, .. } => keys_octets(keys.as_slice()),
        Command::Fetch {
            messages,
            items,
            ..
        } => messages
            .octets()
            .saturating_add(plain_octets(items.as_slice().len(), ITEM)),
        Command::Store { messages, .. } => messages.octets(),
        Command::UidExpunge { messages } => messages.octets(),
        Command::Copy {
            messages,
            mailbox,
            ..
        } => messages.octets().saturating_add(mailbox.octets()),
        Command::Move {
            messages,
            mailbox,
            ..
        } => messages.octets().saturating_add(mailbox.octets()),
        _ => name_octets(command),
    }
}

/// What the names in a command on mailboxes hold.
fn name_octets(command: &Command) -> u64 {
    match command {
        Command::Create { mailbox }
        | Command::Delete { mailbox }
        | Command::Subscribe { mailbox }
        | Command::Unsubscribe { mailbox }
        | Command::GetAcl { mailbox }
        | Command::MyRights { mailbox } => mailbox.octets(),
        Command::Select { mailbox, .. }
        | Command::Examine { mailbox, .. }
        | Command::Status { mailbox, .. } => mailbox.octets(),
        Command::Rename { from, to } => from.octets().saturating_add(to.octets()),
        Command::List {
            reference,
            patterns,
            ..
        } => reference.octets().saturating_add(patterns.octets()),
        Command::SetAcl {
            mailbox,
            identifier,
            rights,
        } => mailbox
            .octets()
            .saturating_add(identifier.octets())
            .saturating_add(rights.octets()),
        Command::DeleteAcl {
            mailbox,
            identifier,
        } => mailbox.octets().saturating_add(identifier.octets()),
        Command::ListRights {
            mailbox,
            identifier,
        } => mailbox.octets().saturating_add(identifier.octets()),
        _ => 0,
    }
}

impl Holds for Patterns {
    fn octets(&self) -> u64 {
        match self {
            Patterns::One(pattern) => pattern.octets(),
            Patterns::Many(patterns) => list_octets(patterns.as_slice(), TEXT),
        }
    }
}
