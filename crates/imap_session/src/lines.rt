//! The lines of notices.

ghost use Rattle.std.specs.Prelude.{◌≡◌, ◌+◌, ◌^◌, ◌<◌, [], ◌∷◌, ◌++◌, true, nat_lt, IfOk, if◌then◌else◌};
ghost use Rattle.imap_print.specs.declared.response.Response.TheVariants as response;
ghost use Rattle.imap_print.specs.Lines.{IsPrintable};
ghost use Rattle.imap_print.specs.Sets.{rise_above};
ghost use Rattle.imap_session.specs.Notices.{notice_items, vanished_line};
ghost use Rattle.imap_session.specs.Notices as specs;

use imap_mailbox::{KnownMessage, SharedFlags};
use imap_print::{FetchedItems, FlagSet, NumberSet, Response, fetch_is_printable};
use imap_syntax::Items;
use imap_values::TryCopy;
use std::alloc::{AllocError, Global};

/// Returns the flags of a message as FETCH gives them: those that all users share, and the user's own
/// `\Seen`. Shares the keywords.
pub fn flag_set(alloc: Global, flags: &SharedFlags, seen: bool) -> Result<FlagSet, AllocError>
    ensures { IfOk result (λ set. set ≡ specs.flag_set flags.now seen) }
{
    let keywords = flags.keywords.try_copy(alloc)?;
    Ok(FlagSet {
        answered: flags.answered,
        deleted: flags.deleted,
        draft: flags.draft,
        flagged: flags.flagged,
        seen,
        keywords,
    })
}

/// Returns the FETCH line of the message of this number (RFC 9051, section 7.5.2).
pub fn fetch_line(
    alloc: Global,
    number: u32,
    message: &KnownMessage,
    condstore: bool,
) -> Result<Response, AllocError>
    ensures line { IfOk result (λ line. line ≡ response.Fetch number (notice_items condstore message.now)) }
    ensures printable { IfOk result IsPrintable }
{
    let items = notice_items(alloc, message, condstore)?;
    fetch_is_printable(number, &items);
    Ok(Response::Fetch { number, items })
}

fn notice_items(
    alloc: Global,
    message: &KnownMessage,
    condstore: bool,
) -> Result<FetchedItems, AllocError>
    ensures { IfOk result (λ items. items ≡ specs.notice_items condstore message.now) }
{
    let flags = flag_set(alloc, &message.flags, message.seen)?;
    Ok(FetchedItems {
        uid: Some(message.uid),
        flags: Some(flags),
        internal_date: None,
        size: None,
        mod_seq: if condstore {
            Some(message.number)
        } else {
            None
        },
        sections: Items::from_vec(Vec::new(alloc)),
    })
}

/// Returns the VANISHED line of these UIDs, or no line if there are none (RFC 7162, section 3.2.10).
pub(crate) fn vanished_lines(alloc: Global, uids: Vec<u32>) -> Result<Vec<Response>, AllocError>
    requires { rise_above 0 uids.items ≡ true }
    ensures { IfOk result (λ lines. lines.items ≡ vanished_line uids.items) }
{
    let mut lines = Vec::new(alloc);
    match NumberSet::from_rising(uids) {
        Some(uids) => {
            lines.push(Response::Vanished {
                earlier: false,
                uids,
            })?;
            Ok(lines)
        }
        None => Ok(lines),
    }
}

/// Appends the line with the number of messages, if any of them are new (RFC 9051, section 7.4.1).
pub(crate) fn with_exists(
    before: Vec<Response>,
    known: u32,
    new: usize,
) -> Result<Vec<Response>, AllocError>
    requires { known + new < 2 ^ 32 }
    ensures { IfOk result (λ lines. lines.items ≡ before.items
        ++ (if nat_lt 0 new then response.Exists (known + new) ∷ [] else [])) }
{
    let mut lines = before;
    if new > 0 {
        lines.push(Response::Exists(known + new as u32))?;
    }
    Ok(lines)
}
