//! Changes of a mailbox that are made one by one, and may be refused. Commands make theirs as batches.

use crate::owned::push_text;
use crate::wanted::expect_text;
use imap_lex::Octets;
use imap_mailbox::{GoneUids, Mailbox, MailboxError, SharedFlags};
use imap_modseq::MAX_EVENTS;
use imap_syntax::{Atom, DateTime};
use std::alloc::{AllocError, Global};

/// What is done to a mailbox.
#[derive(Clone, Copy)]
enum Act {
    /// A message with this many keywords is added, where this many messages may be.
    Add(u8, u64),
    /// The message with this UID has this many keywords and no other flags.
    Words(u32, u8),
    /// bob sets his own `\Seen` of it, or takes it away.
    Seen(u32, bool),
    Expunge(u32),
    /// The same in room that was made before. Of a UID that is gone it changes nothing.
    ExpungeInRoom(u32),
}

fn insert_words(alloc: Global, flags: &mut SharedFlags, count: u8) -> Result<(), MailboxError> {
    for i in 0..count {
        let word = Atom::read(alloc, &[b'a' + i / 26, b'a' + i % 26])?;
        let word = word.ok_or(MailboxError::Limit)?;
        flags.keywords.insert(alloc, &word)?;
    }
    Ok(())
}

/// Keywords of two letters, as many as `count`.
fn words(alloc: Global, count: u8) -> Result<SharedFlags, MailboxError> {
    let mut flags = SharedFlags::new(alloc);
    match insert_words(alloc, &mut flags, count) {
        Ok(()) => Ok(flags),
        Err(error) => Err(error),
    }
}

fn add(
    alloc: Global,
    mailbox: &mut Mailbox,
    count: u8,
    max_messages: u64,
) -> Result<(), MailboxError> {
    let date = DateTime::of_moment(1_000_000).ok_or(MailboxError::Limit)?;
    let flags = words(alloc, count)?;
    let octets = Octets::from_slice(alloc, b"hi")?;
    mailbox.add(max_messages, date, octets, flags)?;
    Ok(())
}

fn set_words(
    alloc: Global,
    mailbox: &mut Mailbox,
    uid: u32,
    count: u8,
) -> Result<(), MailboxError> {
    let others = words(alloc, count)?;
    let mut flags = SharedFlags::new(alloc);
    flags.insert_all(alloc, &others)?;
    mailbox.set_flags(uid, flags)
}

fn expunge_in_room(mailbox: &mut Mailbox, uid: u32) -> Result<(), MailboxError> {
    mailbox.reserve(0, 1)?;
    if mailbox.shared_len() == MAX_EVENTS {
        return Err(MailboxError::Limit);
    }
    mailbox.expunge_reserved(uid);
    Ok(())
}

fn make(alloc: Global, mailbox: &mut Mailbox, act: Act) -> Result<(), MailboxError> {
    match act {
        Act::Add(count, max_messages) => add(alloc, mailbox, count, max_messages),
        Act::Words(uid, count) => set_words(alloc, mailbox, uid, count),
        Act::Seen(uid, seen) => mailbox.mark_seen(alloc, "bob", uid, seen),
        Act::Expunge(uid) => mailbox.expunge(uid),
        Act::ExpungeInRoom(uid) => expunge_in_room(mailbox, uid),
    }
}

fn push_gone(alloc: Global, text: &mut String, gone: &GoneUids<'_>) -> Result<(), AllocError> {
    for place in 0..gone.len() {
        let row = gone.get(place);
        push_text(text, format!(in alloc; "{}={}; ", row.uid, row.number))?;
    }
    Ok(())
}

/// The place of the row that goes with a change of the second message after this number of shared events: a row stays
/// that is the last before a shared event.
fn push_dropped(
    alloc: Global,
    text: &mut String,
    mailbox: &Mailbox,
    before: u64,
) -> Result<(), AllocError> {
    match mailbox.dropped_by("bob", 2, before) {
        Some(place) => push_text(text, format!(in alloc; "{place} goes after {before}; ")),
        None => push_text(text, format!(in alloc; "none goes after {before}; ")),
    }
}

/// The messages that are gone, each with the place of its event, how many own changes bob made, which row of these
/// goes with one more of the second message, and how many keywords that has.
fn push_kept(alloc: Global, text: &mut String, mailbox: &Mailbox) -> Result<(), AllocError> {
    for gone in mailbox.gone_messages() {
        push_text(text, format!(in alloc; "{}@{}; ", gone.uid, gone.place))?;
    }
    let own = mailbox.own_len("bob");
    push_text(text, format!(in alloc; "own changes: {own}; "))?;
    push_dropped(alloc, text, mailbox, 6)?;
    push_dropped(alloc, text, mailbox, 7)?;
    match mailbox.find(2) {
        Some(message) => push_text(
            text,
            format!(in alloc; "keywords: {}", message.flags.keywords.len()),
        ),
        None => Ok(()),
    }
}

/// Why acts were refused, what went for bob after the seventh number, and what the mailbox keeps.
fn make_all(
    alloc: Global,
    text: &mut String,
    mailbox: &mut Mailbox,
    acts: &[Act],
) -> Result<(), AllocError> {
    for act in acts {
        if let Err(error) = make(alloc, mailbox, *act) {
            push_text(text, format!(in alloc; "{error}; "))?;
        }
    }
    push_gone(alloc, text, &mailbox.gone_since("bob", 7))?;
    push_kept(alloc, text, mailbox)
}

fn run(alloc: Global, acts: &[Act]) -> Result<String, AllocError> {
    let mut mailbox = Mailbox::new(alloc);
    let mut text = String::new(alloc);
    let made = make_all(alloc, &mut text, &mut mailbox, acts);
    drop(mailbox);
    made?;
    Ok(text)
}

/// Flags and a `\Seen` that stay are no event. A mailbox is full exactly if it has no room, and then a 33rd
/// keyword isn't looked at.
#[test]
fn changes_are_made_or_refused(rt: HostRuntime) {
    const ACTS: &[Act] = &[
        Act::Add(0, 100),
        Act::Add(32, 100),
        Act::Add(0, 100),
        Act::Seen(2, true),
        Act::Words(2, 1),
        Act::Words(2, 1),
        Act::Words(9, 33),
        Act::Words(2, 33),
        Act::Add(33, 3),
        Act::Add(33, 4),
        Act::Seen(9, true),
        Act::Seen(2, true),
        Act::Expunge(9),
        Act::ExpungeInRoom(3),
        Act::Expunge(1),
        Act::ExpungeInRoom(9),
        Act::Seen(2, false),
    ];
    const WANTED: &str =
        "the mailbox has no message with this UID; a limit of the mailbox is reached; \
        the mailbox is full; a limit of the mailbox is reached; the mailbox has no message with this UID; \
        the mailbox has no message with this UID; 1=8; 3@4; 1@5; own changes: 2; \
        1 goes after 6; none goes after 7; keywords: 1";
    expect_text(&rt, run(rt.alloc(), ACTS), WANTED);
}
