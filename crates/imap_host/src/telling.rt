//! Steps after which sessions may be told something.

use imap_grammar::{Command, Request};
use imap_query::FetchItem;
use imap_serve::Act;

/// Whether sessions may be told something after this act. It is a hint.
pub(crate) fn may_tell(act: &Act) -> bool {
    match act {
        Act::Do(request) => may_change(request),
        Act::Open | Act::Poll | Act::Done | Act::Leave => false,
    }
}

/// Whether the request may change messages, mailboxes or rights.
fn may_change(request: &Request) -> bool {
    match request {
        Request::Command { tag: _, body } => changes(body),
        Request::Malformed { tag: _ } | Request::TooBig { tag: _ } => false,
    }
}

fn changes(command: &Command) -> bool {
    match command {
        Command::Append { .. }
        | Command::Close
        | Command::Copy { .. }
        | Command::Create { .. }
        | Command::Delete { .. }
        | Command::DeleteAcl { .. }
        | Command::Expunge
        | Command::Move { .. }
        | Command::Rename { .. }
        | Command::SetAcl { .. }
        | Command::Store { .. }
        | Command::UidExpunge { .. } => true,
        Command::Fetch { items, .. } => sets_seen(items.as_slice()),
        _ => false,
    }
}

/// Whether what is fetched is marked as seen (RFC 9051, section 6.4.5).
fn sets_seen(items: &[FetchItem]) -> bool {
    items.iter().any(|item| matches!(item, FetchItem::Section(body) if !body.peek))
}
