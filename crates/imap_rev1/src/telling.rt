//! Replies that are told in another way.

ghost use Rattle.std.specs.Prelude.{◌≡◌, ◌++◌, OnOk, drop};
ghost use Rattle.imap_lex.specs.Framing.{crlf};
ghost use Rattle.imap_print.specs.Pieces.{octets_of};
ghost use Rattle.imap_print.specs.Words.{before_each, in_parentheses};
ghost use Rattle.imap_rev1.specs.Rev1.{capability_text, first_recent, greeting_text, item_text, items_words};
ghost use Rattle.imap_rev1.specs.Rev1.{lsub_text, mod_seq_text, numbers_text, recent_text, search_text};
ghost use Rattle.imap_rev1.specs.Rev1.{capabilities, set_numbers, status_text};

use imap_print::{NumberSet, Pieces, SearchResults, StatusValue};
use imap_rev1_frames::Asked;
use imap_syntax::Keyword;
use std::alloc::AllocError;

/// What the server can do, in both versions (RFC 3501, section 7.2.1).
const CAPABILITIES: &str =
    "IMAP4rev1 IMAP4rev2 ACL RIGHTS=texk UIDPLUS MOVE UNSELECT NAMESPACE ESEARCH LITERAL- CHILDREN LIST-EXTENDED LIST-STATUS CONDSTORE ENABLE IDLE QRESYNC";

/// Returns what the server can do, in both versions.
pub fn capabilities() -> &'static str
    ensures { result.now ≡ capabilities }
{
    CAPABILITIES
}

pub(crate) fn push_greeting(out: &mut Pieces) -> Result<(), AllocError>
    ensures { OnOk result (octets_of out.new ≡ octets_of out.old ++ (greeting_text ++ crlf)) }
{
    out.push_octets(b"* PREAUTH [CAPABILITY ")?;
    out.push_octets(CAPABILITIES.as_bytes())?;
    out.push_octets(b"] shared mailbox profile ready")?;
    out.push_octets(b"\r\n")?;
    Ok(())
}

pub(crate) fn push_capability(out: &mut Pieces) -> Result<(), AllocError>
    ensures { OnOk result (octets_of out.new ≡ octets_of out.old ++ (capability_text ++ crlf)) }
{
    out.push_octets(b"* CAPABILITY ")?;
    out.push_octets(CAPABILITIES.as_bytes())?;
    out.push_octets(b"\r\n")?;
    Ok(())
}

fn push_numbers(out: &mut Pieces, numbers: &[u32]) -> Result<(), AllocError>
    ensures { OnOk result (octets_of out.new ≡ octets_of out.old ++ numbers_text numbers.now) }
{
    for number in numbers {
        out.push_octets(b" ")?;
        out.push_number(u64::from(*number))?;
    }
    Ok(())
}

fn push_set(out: &mut Pieces, set: &Option<NumberSet>) -> Result<(), AllocError>
    ensures { OnOk result (octets_of out.new ≡ octets_of out.old ++ numbers_text (set_numbers set.now)) }
{
    match set {
        Some(set) => push_numbers(out, set.as_slice()),
        None => Ok(()),
    }
}

fn push_mod_seq(out: &mut Pieces, mod_seq: Option<u64>) -> Result<(), AllocError>
    ensures { OnOk result (octets_of out.new ≡ octets_of out.old ++ mod_seq_text mod_seq) }
{
    match mod_seq {
        Some(mod_seq) => {
            out.push_octets(b" (MODSEQ ")?;
            out.push_number(mod_seq)?;
            out.push_octets(b")")
        }
        None => Ok(()),
    }
}

pub(crate) fn push_search(out: &mut Pieces, results: &SearchResults) -> Result<(), AllocError>
    ensures { OnOk result (octets_of out.new ≡ octets_of out.old ++ (search_text results.now ++ crlf)) }
{
    out.push_octets(b"* SEARCH")?;
    push_set(out, &results.all)?;
    push_mod_seq(out, results.mod_seq)?;
    out.push_octets(b"\r\n")
}

pub(crate) fn push_recent(out: &mut Pieces) -> Result<(), AllocError>
    ensures { OnOk result (octets_of out.new ≡ octets_of out.old ++ (recent_text ++ crlf)) }
{
    out.push_octets(b"* 0 RECENT\r\n")
}

pub(crate) fn push_lsub(out: &mut Pieces, mailbox: &[u8]) -> Result<(), AllocError>
    ensures { OnOk result (octets_of out.new ≡ octets_of out.old ++ (lsub_text mailbox.now ++ crlf)) }
{
    out.push_octets(b"* LSUB () \"/\" ")?;
    out.push_name(mailbox)?;
    out.push_octets(b"\r\n")?;
    Ok(())
}

/// Appends the value, or that of RECENT in its place.
fn push_item(out: &mut Pieces, is_recent: bool, value: StatusValue) -> Result<(), AllocError>
    ensures { OnOk result (octets_of out.new ≡ octets_of out.old ++ item_text is_recent value) }
{
    if is_recent {
        return out.push_octets(b"RECENT 0");
    }
    out.push_octets(value.item.name())?;
    out.push_octets(b" ")?;
    out.push_number(value.value)
}

/// Returns whether the first item is RECENT, and what is known of the others.
fn split_recent(asked: &[Asked]) -> (bool, &[Asked])
    ensures first { result.0 ≡ first_recent asked.now }
    ensures rest { result.1.now ≡ drop 1 asked.now }
{
    match asked {
        [first, rest @ ..] => (first.is_recent(), rest),
        [] => (false, &[]),
    }
}

/// Appends the values, each after a space.
fn push_further_items(
    out: &mut Pieces,
    asked: &[Asked],
    values: &[StatusValue],
) -> Result<(), AllocError>
    ensures { OnOk result (octets_of out.new ≡ octets_of out.old
        ++ before_each 32 (items_words asked.now values.now)) }
{
    let mut rest = asked;
    for value in values {
        let (recent, later) = split_recent(rest);
        out.push_octets(b" ")?;
        push_item(out, recent, *value)?;
        rest = later;
    }
    Ok(())
}

fn push_items(out: &mut Pieces, asked: &[Asked], values: &[StatusValue]) -> Result<(), AllocError>
    ensures { OnOk result (octets_of out.new ≡ octets_of out.old
        ++ in_parentheses (items_words asked.now values.now)) }
{
    out.push_octets(b"(")?;
    if let [first, further @ ..] = values {
        let (recent, later) = split_recent(asked);
        push_item(out, recent, *first)?;
        push_further_items(out, later, further)?;
    }
    out.push_octets(b")")
}

pub(crate) fn push_status(
    out: &mut Pieces,
    asked: &[Asked],
    mailbox: &[u8],
    values: &[StatusValue],
) -> Result<(), AllocError>
    ensures { OnOk result (octets_of out.new ≡ octets_of out.old
        ++ (status_text asked.now mailbox.now values.now ++ crlf)) }
{
    out.push_octets(b"* STATUS ")?;
    out.push_name(mailbox)?;
    out.push_octets(b" ")?;
    push_items(out, asked, values)?;
    out.push_octets(b"\r\n")
}
