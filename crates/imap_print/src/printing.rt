//! The octets in which responses are sent (RFC 9051, section 7).

ghost use Rattle.std.specs.Prelude.{◌≡◌, ◌++◌, false, OnOk, IfOk, map};
ghost use Rattle.std.specs.List.{AllByRecursion, concat};
ghost use Rattle.imap_print.specs.Lines.{IsPrintable, AreReadFrom};
ghost use Rattle.imap_print.specs.declared.response.Response.TheVariants as response;
ghost use Rattle.imap_print.specs.Pieces.{is_fetch, octets_of};
ghost use Rattle.imap_print.specs.Printed.{earlier_text, line_text, line, printed};

mod codes;
mod fetched;
mod flags;
mod mailboxes;
mod numbers;
mod pieces;
mod searched;
mod strings;
mod words;

use crate::enabled::EnabledCapabilities;
use crate::fetch::FetchedItems;
use crate::flag::FlagSet;
use crate::numbering::NumberSet;
use crate::response::Response;
use codes::{push_bye, push_capability, push_done, push_greeting, push_moved, push_refused};
use fetched::push_fetched;
pub use fetched::{print_fetch_front, print_literal, print_section};
use flags::{push_all_flags, push_permanent};
use imap_lex::Octets;
use imap_syntax::{Atom, Items, push_between};
use mailboxes::{push_acl, push_list, push_list_rights, push_my_rights, push_status};
use numbers::push_set;
pub use pieces::Pieces;
use searched::push_search;
use std::alloc::{AllocError, Global};
use words::push_given;

/// The octets of the responses, each a line that CRLF ends. A client reads just these lines in them, if the
/// names and other texts in the responses have neither CR nor LF.
pub fn print(alloc: Global, responses: &[Response]) -> Result<Vec<u8>, AllocError>
    ensures octets { IfOk result (λ out. out.items ≡ printed responses.now) }
    ensures lines { IfOk result (λ out.
        AllByRecursion IsPrintable responses.now → AreReadFrom (map line responses.now) out.items) }
{
    print_all(alloc, responses)?.into_octets()
}

/// The octets of the responses, as `print` returns them, in pieces. A long part of a message is a piece that
/// shares its octets.
pub fn print_pieces(alloc: Global, responses: &[Response]) -> Result<Items<Octets>, AllocError>
    ensures { IfOk result (λ pieces. concat pieces ≡ printed responses.now) }
{
    print_all(alloc, responses)?.into_pieces()
}

fn print_all(alloc: Global, responses: &[Response]) -> Result<Pieces, AllocError>
    ensures { IfOk result (λ out. octets_of out ≡ printed responses.now) }
{
    let mut out = Pieces::new(alloc);
    for response in responses {
        print_line(&mut out, response)?;
    }
    Ok(out)
}

/// Appends the octets of the response, a line that CRLF ends.
pub fn print_line(out: &mut Pieces, response: &Response) -> Result<(), AllocError>
    ensures { OnOk result (octets_of out.new ≡ octets_of out.old ++ line response.now) }
{
    push_text(out, response)?;
    out.text.extend_from_slice(b"\r\n")
}

fn push_text(out: &mut Pieces, response: &Response) -> Result<(), AllocError>
    ensures { OnOk result (octets_of out.new ≡ octets_of out.old ++ line_text response.now) }
{
    match response {
        Response::Fetch { number, items } => push_fetch(out, *number, items),
        _ => push_short_text(&mut out.text, response),
    }
}

/// Appends the text of a line without literals.
fn push_short_text(out: &mut Vec<u8>, response: &Response) -> Result<(), AllocError>
    requires { is_fetch response.now ≡ false }
    ensures { OnOk result (out.new.items ≡ out.old.items ++ line_text response.now) }
{
    match response {
        Response::Greeting => push_greeting(out),
        Response::Capability => push_capability(out),
        Response::Bye(farewell) => push_bye(out, *farewell),
        Response::Done { tag, code } => push_done(out, tag, code),
        Response::Refused { tag, refusal } => push_refused(out, tag, *refusal),
        Response::Ready => out.extend_from_slice(b"+ ready"),
        Response::Idling => out.extend_from_slice(b"+ idling"),
        Response::Namespace => push_namespace(out),
        Response::Enabled(capabilities) => push_enabled(out, *capabilities),
        Response::List {
            attributes,
            mailbox,
        } => push_list(out, *attributes, mailbox),
        Response::ListRoot => out.extend_from_slice(b"* LIST (\\Noselect) \"/\" \"\""),
        Response::Status { mailbox, items } => push_status(out, mailbox, items.as_slice()),
        Response::Acl { mailbox, entries } => push_acl(out, mailbox, entries.as_slice()),
        Response::MyRights { mailbox, rights } => push_my_rights(out, mailbox, *rights),
        Response::ListRights {
            mailbox,
            identifier,
            owner,
        } => push_list_rights(out, mailbox, identifier, *owner),
        Response::Flags { keywords } => push_flags_line(out, keywords.as_slice()),
        Response::PermanentFlags { flags, any } => push_permanent_flags(out, flags, *any),
        Response::Exists(n) => push_between(out, b"* ", u64::from(*n), b" EXISTS"),
        Response::Expunge(n) => push_between(out, b"* ", u64::from(*n), b" EXPUNGE"),
        Response::Vanished { earlier, uids } => push_vanished(out, *earlier, uids),
        Response::Closed => out.extend_from_slice(b"* OK [CLOSED] closed"),
        Response::UidValidity(n) => push_uid_validity(out, *n),
        Response::UidNext(n) => push_between(out, b"* OK [UIDNEXT ", u64::from(*n), b"] next"),
        Response::HighestModSeq(n) => push_between(out, b"* OK [HIGHESTMODSEQ ", *n, b"] highest"),
        Response::Moved(copied) => push_moved(out, copied),
        Response::Fetch { .. } => unreachable!(),
        Response::Search { tag, uid, results } => push_search(out, tag, *uid, results),
    }
}

fn push_namespace(out: &mut Vec<u8>) -> Result<(), AllocError>
    ensures { OnOk result (out.new.items ≡ out.old.items ++ line_text response.Namespace) }
{
    out.extend_from_slice(
        b"* NAMESPACE ((\"\" \"/\")) ((\"Other Users/\" \"/\")) ((\"Shared/\" \"/\"))",
    )
}

fn push_enabled(out: &mut Vec<u8>, enabled: EnabledCapabilities) -> Result<(), AllocError>
    ensures { OnOk result (out.new.items ≡ out.old.items ++ line_text (response.Enabled enabled)) }
{
    out.extend_from_slice(b"* ENABLED")?;
    push_given(out, true, enabled.condstore, b"CONDSTORE")?;
    push_given(out, true, enabled.imap4rev2, b"IMAP4rev2")?;
    push_given(out, true, enabled.qresync, b"QRESYNC")?;
    Ok(())
}

fn push_flags_line(out: &mut Vec<u8>, keywords: &[Atom]) -> Result<(), AllocError>
    ensures { OnOk result (out.new.items ≡ out.old.items ++ line_text (response.Flags keywords.now)) }
{
    out.extend_from_slice(b"* FLAGS ")?;
    push_all_flags(out, keywords)
}

fn push_permanent_flags(out: &mut Vec<u8>, flags: &FlagSet, any: bool) -> Result<(), AllocError>
    ensures { OnOk result (out.new.items ≡ out.old.items
        ++ line_text (response.PermanentFlags flags.now any)) }
{
    out.extend_from_slice(b"* OK [PERMANENTFLAGS ")?;
    push_permanent(out, flags, any)?;
    out.extend_from_slice(b"] flags kept")?;
    Ok(())
}

fn push_earlier(out: &mut Vec<u8>, earlier: bool) -> Result<(), AllocError>
    ensures { OnOk result (out.new.items ≡ out.old.items ++ earlier_text earlier) }
{
    if earlier {
        out.extend_from_slice(b"(EARLIER) ")?;
    }
    Ok(())
}

fn push_uid_validity(out: &mut Vec<u8>, validity: u32) -> Result<(), AllocError>
    ensures { OnOk result (out.new.items ≡ out.old.items ++ line_text (response.UidValidity validity)) }
{
    push_between(
        out,
        b"* OK [UIDVALIDITY ",
        u64::from(validity),
        b"] validity",
    )
}

fn push_vanished(out: &mut Vec<u8>, earlier: bool, uids: &NumberSet) -> Result<(), AllocError>
    ensures { OnOk result (out.new.items ≡ out.old.items ++ line_text (response.Vanished earlier uids.now)) }
{
    out.extend_from_slice(b"* VANISHED ")?;
    push_earlier(out, earlier)?;
    push_set(out, uids)
}

fn push_fetch(out: &mut Pieces, number: u32, items: &FetchedItems) -> Result<(), AllocError>
    ensures { OnOk result (octets_of out.new ≡ octets_of out.old
        ++ line_text (response.Fetch number items.now)) }
{
    push_between(&mut out.text, b"* ", u64::from(number), b" FETCH ")?;
    push_fetched(out, items)
}
