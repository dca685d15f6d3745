//! What is asked of the messages that a store keeps of a mailbox.

ghost use Rattle.std.specs.Prelude.{◌≡◌, ◌↔◌, ◌++◌, IfOk, IsPermutation, IsTrue, OnOk, true};
ghost use Rattle.std.specs.List.Sorted.{IsNonDecreasing, IsNonDecreasingBy};
ghost use Rattle.imap_mailbox.specs.Flags.{has_too_many};
ghost use Rattle.imap_mailbox.specs.Held.{HaveFewKeywords};
ghost use Rattle.imap_mailbox.specs.Restored.{AreMessages, ArePlacesOf, Checks, HaveAllUids, IsRun};
ghost use Rattle.imap_mailbox.specs.Rows.{first_uid};
ghost use Rattle.imap_mailbox.specs.Summary.{AreApart, Rises, gone_uids, message_places, places_in, uids_in};

use crate::calls::has_too_many;
use crate::message::{GoneMessage, Message};
use crate::parts::PartsError;
use imap_modseq::MAX_EVENTS;
use std::alloc::{AllocError, Global};

/// Fails with `Bad` if no mailbox has these messages and these that are gone, whatever its own changes.
pub(crate) fn check_messages(
    alloc: Global,
    messages: &[Message],
    gone: &[GoneMessage],
    next: u32,
    shared: u64,
) -> Result<(), PartsError>
    ensures { Checks (AreMessages next shared messages.now gone.now) result }
{
    if shared > MAX_EVENTS || !have_few_keywords(messages) {
        return Err(PartsError::Bad);
    }
    if !have_all_uids(alloc, messages, gone, next)? {
        return Err(PartsError::Bad);
    }
    if !have_own_places(alloc, messages, gone, shared)? {
        return Err(PartsError::Bad);
    }
    Ok(())
}

/// Whether no message has too many keywords.
fn have_few_keywords(messages: &[Message]) -> bool
    ensures { IsTrue result ↔ HaveFewKeywords messages.now }
{
    for message in messages {
        if has_too_many(&message.flags) {
            return false;
        }
    }
    true
}

/// Whether each UID from 1 to the one before `next` is there or gone, once, and no other is.
fn have_all_uids(
    alloc: Global,
    messages: &[Message],
    gone: &[GoneMessage],
    next: u32,
) -> Result<bool, AllocError>
    ensures { IfOk result (λ test. IsTrue test ↔ HaveAllUids next messages.now gone.now) }
{
    let uids = sorted_uids(alloc, messages, gone)?;
    Ok(is_run(&uids, next))
}

/// Whether each message has a place of its own, and one of a shared event.
fn have_own_places(
    alloc: Global,
    messages: &[Message],
    gone: &[GoneMessage],
    shared: u64,
) -> Result<bool, AllocError>
    ensures { IfOk result (λ test. IsTrue test
        ↔ (AreApart messages.now gone.now × ArePlacesOf shared messages.now gone.now)) }
{
    let places = sorted_places(alloc, messages, gone)?;
    Ok(rise_below(&places, shared))
}

/// The UIDs of all messages, in their order.
fn sorted_uids(
    alloc: Global,
    messages: &[Message],
    gone: &[GoneMessage],
) -> Result<Vec<u32>, AllocError>
    ensures same { IfOk result (λ uids.
        IsPermutation (uids_in messages.now ++ gone_uids gone.now) uids.items) }
    ensures sorted { IfOk result (λ uids. IsNonDecreasing uids.items) }
{
    let mut uids = Vec::new(alloc);
    push_uids(&mut uids, messages)?;
    push_gone_uids(&mut uids, gone)?;
    uids.sort_unstable();
    Ok(uids)
}

fn push_uids(uids: &mut Vec<u32>, messages: &[Message]) -> Result<(), AllocError>
    ensures { OnOk result (uids.new.items ≡ uids.old.items ++ uids_in messages.now) }
{
    for message in messages {
        uids.push(message.uid)?;
    }
    Ok(())
}

fn push_gone_uids(uids: &mut Vec<u32>, gone: &[GoneMessage]) -> Result<(), AllocError>
    ensures { OnOk result (uids.new.items ≡ uids.old.items ++ gone_uids gone.now) }
{
    for message in gone {
        uids.push(message.uid)?;
    }
    Ok(())
}

/// The places of all messages, in their order.
fn sorted_places(
    alloc: Global,
    messages: &[Message],
    gone: &[GoneMessage],
) -> Result<Vec<u64>, AllocError>
    ensures same { IfOk result (λ places.
        IsPermutation (message_places messages.now ++ places_in gone.now) places.items) }
    ensures sorted { IfOk result (λ places. IsNonDecreasing places.items) }
{
    let mut places = Vec::new(alloc);
    push_places(&mut places, messages)?;
    push_gone_places(&mut places, gone)?;
    places.sort_unstable();
    Ok(places)
}

fn push_places(places: &mut Vec<u64>, messages: &[Message]) -> Result<(), AllocError>
    ensures { OnOk result (places.new.items ≡ places.old.items ++ message_places messages.now) }
{
    for message in messages {
        places.push(message.place)?;
    }
    Ok(())
}

fn push_gone_places(places: &mut Vec<u64>, gone: &[GoneMessage]) -> Result<(), AllocError>
    ensures { OnOk result (places.new.items ≡ places.old.items ++ places_in gone.now) }
{
    for message in gone {
        places.push(message.place)?;
    }
    Ok(())
}

/// Whether the UIDs are those from 1 to the one before `next`, in their order.
fn is_run(uids: &[u32], next: u32) -> bool
    ensures { IsTrue result ↔ IsRun first_uid next uids.now }
{
    let mut expected: u32 = 1;
    for uid in uids {
        if *uid != expected {
            return false;
        }
        if *uid >= next {
            return false;
        }
        expected += 1;
    }
    expected == next
}

/// Whether each place is greater than the one before it, and less than `shared`.
fn rise_below(places: &[u64], shared: u64) -> bool
    ensures { IsTrue result ↔ Rises 0 shared places.now }
{
    let mut low: u64 = 0;
    for place in places {
        if *place < low {
            return false;
        }
        if *place >= shared {
            return false;
        }
        low = *place + 1;
    }
    true
}

/// Puts messages in the order of their UIDs.
pub(crate) fn sort_by_uid(messages: &mut Vec<Message>)
    ensures same { IsPermutation messages.old.items messages.new.items }
    ensures sorted { IsNonDecreasingBy (λ m. m.uid) messages.new.items }
{
    messages.sort_unstable_by_key(|message| message.uid);
}

/// Puts messages that are gone in the order in which they went.
pub(crate) fn sort_by_place(gone: &mut Vec<GoneMessage>)
    ensures same { IsPermutation gone.old.items gone.new.items }
    ensures sorted { IsNonDecreasingBy (λ g. g.place) gone.new.items }
{
    gone.sort_unstable_by_key(|message| message.place);
}
