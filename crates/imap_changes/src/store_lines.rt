//! The lines of STORE (RFC 9051, section 6.4.6; RFC 7162, section 3.1.3).

ghost use Rattle.std.specs.Prelude.{◌≡◌, ◌++◌, ◌+◌, ◌<◌, ◌^◌, IfOk, OnOk};
ghost use Rattle.std.specs.List.{AllByRecursion};
ghost use Rattle.imap_changes.specs.Store as specs;
ghost use Rattle.imap_changes.specs.Storing.{events_in};
ghost use Rattle.imap_print.specs.Lines.{IsPrintable};

use crate::store_outcome::StoreOutcome;
use imap_mailbox::KnownMessage;
use imap_print::{FetchedItems, Response, fetch_is_printable};
use imap_syntax::Items;
use imap_targets::fetch_line;
use imap_values::TryCopy;
use std::alloc::{AllocError, Global};

/// Returns the lines of the messages. `highest` is HIGHESTMODSEQ before the command.
pub(crate) fn store_lines(
    alloc: Global,
    silent: bool,
    condstore: bool,
    highest: u64,
    messages: &[StoreOutcome],
) -> Result<Vec<Response>, AllocError>
    requires { highest + events_in messages.now < 2 ^ 64 }
    ensures lines { let meant = specs.lines_from silent condstore highest messages.now in
        IfOk result (λ lines. lines.items ≡ meant) }
    ensures printable { IfOk result (λ lines. AllByRecursion IsPrintable lines.items) }
{
    let mut lines = Vec::new(alloc);
    let mut before = highest;
    for message in messages {
        let after = before + event_count(message);
        push_line(&mut lines, alloc, silent, condstore, after, message)?;
        before = after;
    }
    Ok(lines)
}

fn event_count(message: &StoreOutcome) -> u64
    ensures { result ≡ specs.event_count message.now }
{
    u64::from(message.flags_change) + u64::from(message.seen_changes)
}

/// Appends the line of the message, if it has one. `after` is HIGHESTMODSEQ after its events.
fn push_line(
    lines: &mut Vec<Response>,
    alloc: Global,
    silent: bool,
    condstore: bool,
    after: u64,
    message: &StoreOutcome,
) -> Result<(), AllocError>
    ensures line { let line = specs.line_of silent condstore after message.now in
        OnOk result (lines.new.items ≡ lines.old.items ++ line) }
    ensures printable { let are_printable = AllByRecursion IsPrintable in
        OnOk result (are_printable lines.old.items → are_printable lines.new.items) }
{
    let now = message_after(alloc, after, message)?;
    if !silent || message.behind {
        lines.push(fetch_line(alloc, message.number, &now, condstore)?)?;
        return Ok(());
    }
    if condstore {
        lines.push(short_line(alloc, message.number, &now))?;
    }
    Ok(())
}

/// The message after its events. `after` is HIGHESTMODSEQ then.
fn message_after(
    alloc: Global,
    after: u64,
    message: &StoreOutcome,
) -> Result<KnownMessage, AllocError>
    ensures { IfOk result (λ k. k ≡ specs.message_after after message.now) }
{
    Ok(KnownMessage {
        uid: message.uid,
        flags: message.flags.try_copy(alloc)?,
        seen: message.seen,
        number: if message.flags_change || message.seen_changes {
            after
        } else {
            message.before
        },
    })
}

/// UID and MODSEQ alone.
fn short_line(alloc: Global, number: u32, message: &KnownMessage) -> Response
    ensures line { result ≡ specs.short_line number message.now }
    ensures printable { IsPrintable result }
{
    let items = FetchedItems {
        uid: Some(message.uid),
        flags: None,
        internal_date: None,
        size: None,
        mod_seq: Some(message.number),
        sections: Items::from_vec(Vec::new(alloc)),
    };
    fetch_is_printable(number, &items);
    Response::Fetch { number, items }
}
