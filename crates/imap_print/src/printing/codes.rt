//! Conditions and their response codes (RFC 9051, section 7.1).

ghost use Rattle.std.specs.Prelude.{◌≡◌, ◌++◌, OnOk};
ghost use Rattle.imap_print.specs.declared.response.Code.TheVariants as code;
ghost use Rattle.imap_print.specs.declared.response.Response.TheVariants as response;
ghost use Rattle.imap_print.specs.Printed.{capabilities, farewell_text, refusal_text, tag_text};
ghost use Rattle.imap_print.specs.Printed.{copied_text, code_text, done_text, line_text};

use super::numbers::push_set;
use crate::copied::CopiedUids;
use crate::response::{Code, Farewell, Refusal};
use imap_lex::Tag;
use imap_syntax::{push_between, push_number};
use std::alloc::AllocError;

/// The capabilities of the greeting and of CAPABILITY (RFC 9051, section 7.2.2).
const CAPABILITIES: &str = "IMAP4rev2 ACL RIGHTS=texk CONDSTORE ENABLE IDLE QRESYNC";

pub(super) fn push_greeting(out: &mut Vec<u8>) -> Result<(), AllocError>
    ensures { OnOk result (out.new.items ≡ out.old.items ++ line_text response.Greeting) }
{
    out.extend_from_slice(b"* PREAUTH [CAPABILITY ")?;
    out.extend_from_slice(CAPABILITIES.as_bytes())?;
    out.extend_from_slice(b"] shared mailbox profile ready")?;
    Ok(())
}

pub(super) fn push_capability(out: &mut Vec<u8>) -> Result<(), AllocError>
    ensures { OnOk result (out.new.items ≡ out.old.items ++ line_text response.Capability) }
{
    out.extend_from_slice(b"* CAPABILITY ")?;
    out.extend_from_slice(CAPABILITIES.as_bytes())
}

pub(super) fn push_bye(out: &mut Vec<u8>, farewell: Farewell) -> Result<(), AllocError>
    ensures { OnOk result (out.new.items ≡ out.old.items ++ line_text (response.Bye farewell)) }
{
    out.extend_from_slice(b"* BYE ")?;
    out.extend_from_slice(farewell.text().as_bytes())
}

fn push_copied(out: &mut Vec<u8>, copied: &CopiedUids) -> Result<(), AllocError>
    ensures { OnOk result (out.new.items ≡ out.old.items ++ copied_text copied.now) }
{
    push_between(out, b"COPYUID ", u64::from(copied.validity), b" ")?;
    push_set(out, &copied.source)?;
    out.push(b' ')?;
    push_set(out, &copied.target)
}

pub(super) fn push_moved(out: &mut Vec<u8>, copied: &CopiedUids) -> Result<(), AllocError>
    ensures { OnOk result (out.new.items ≡ out.old.items ++ line_text (response.Moved copied.now)) }
{
    out.extend_from_slice(b"* OK [")?;
    push_copied(out, copied)?;
    out.extend_from_slice(b"] moved")
}

fn push_code(out: &mut Vec<u8>, code: &Code) -> Result<(), AllocError>
    ensures { OnOk result (out.new.items ≡ out.old.items ++ code_text code.now) }
{
    match code {
        Code::ReadWrite => out.extend_from_slice(b"READ-WRITE"),
        Code::ReadOnly => out.extend_from_slice(b"READ-ONLY"),
        Code::AppendUid { validity, uid } => push_appended(out, *validity, *uid),
        Code::CopyUid(copied) => push_copied(out, copied),
        Code::HighestModSeq(mod_seq) => {
            out.extend_from_slice(b"HIGHESTMODSEQ ")?;
            push_number(out, *mod_seq)
        }
        Code::Modified(numbers) => {
            out.extend_from_slice(b"MODIFIED ")?;
            push_set(out, numbers)
        }
    }
}

fn push_appended(out: &mut Vec<u8>, validity: u32, uid: u32) -> Result<(), AllocError>
    ensures { OnOk result (out.new.items ≡ out.old.items ++ code_text (code.AppendUid validity uid)) }
{
    push_between(out, b"APPENDUID ", u64::from(validity), b" ")?;
    push_number(out, u64::from(uid))
}

pub(super) fn push_done(out: &mut Vec<u8>, tag: &Tag, code: &Option<Code>) -> Result<(), AllocError>
    ensures { OnOk result (out.new.items ≡ out.old.items ++ line_text (response.Done tag.now code.now)) }
{
    out.extend_from_slice(tag.as_slice())?;
    push_outcome(out, code)
}

fn push_outcome(out: &mut Vec<u8>, code: &Option<Code>) -> Result<(), AllocError>
    ensures { OnOk result (out.new.items ≡ out.old.items ++ done_text code.now) }
{
    match code {
        Some(code) => {
            out.extend_from_slice(b" OK [")?;
            push_code(out, code)?;
            out.extend_from_slice(b"] done")
        }
        None => out.extend_from_slice(b" OK done"),
    }
}

fn push_tag(out: &mut Vec<u8>, tag: &Option<Tag>) -> Result<(), AllocError>
    ensures { OnOk result (out.new.items ≡ out.old.items ++ tag_text tag.now) }
{
    match tag {
        Some(tag) => out.extend_from_slice(tag.as_slice()),
        None => out.extend_from_slice(b"*"),
    }
}

pub(super) fn push_refused(
    out: &mut Vec<u8>,
    tag: &Option<Tag>,
    refusal: Refusal,
) -> Result<(), AllocError>
    ensures { OnOk result (out.new.items ≡ out.old.items ++ line_text (response.Refused tag.now refusal)) }
{
    push_tag(out, tag)?;
    out.push(b' ')?;
    out.extend_from_slice(refusal.text().as_bytes())
}

impl Farewell {
    fn text(self) -> &'static str
        ensures { result.now ≡ farewell_text self }
    {
        match self {
            Farewell::LoggingOut => "logging out",
            Farewell::LimitReached => "limit reached",
            Farewell::IdleTooLong => "idle too long",
            Farewell::MailboxUnavailable => "selected mailbox is no longer available",
        }
    }
}

impl Refusal {
    fn text(self) -> &'static str
        ensures { result.now ≡ refusal_text self }
    {
        match self {
            Refusal::NonExistent => "NO [NONEXISTENT] no such mailbox",
            Refusal::NoPerm => "NO [NOPERM] right missing",
            Refusal::AlreadyExists => "NO [ALREADYEXISTS] name is taken",
            Refusal::HasChildren => "NO [HASCHILDREN] names below",
            Refusal::Cannot => "NO [CANNOT] not possible",
            Refusal::Limit => "NO [LIMIT] limit reached",
            Refusal::OverQuota => "NO [OVERQUOTA] mailbox is full",
            Refusal::TryCreate => "NO [TRYCREATE] no such mailbox",
            Refusal::ExpungeIssued => "NO [EXPUNGEISSUED] some messages are gone",
            Refusal::InUse => "NO [INUSE] selected here",
            Refusal::Unavailable => "NO [UNAVAILABLE] store refused",
            Refusal::BadCharset => "NO [BADCHARSET (US-ASCII UTF-8)] charset unknown",
            Refusal::Malformed => "BAD malformed command",
            Refusal::WrongState => "BAD not in this state",
        }
    }
}
