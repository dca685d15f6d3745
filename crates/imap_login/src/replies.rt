//! The lines of a login.

ghost use Rattle.std.specs.Prelude.{◌≡◌, ◌≤◌, ◌++◌, length, OnOk};
ghost use Rattle.imap_login.specs.Replies.{capability_line, challenge, front_length, greeting, idle_too_long};
ghost use Rattle.imap_login.specs.Replies.{limit_reached, logging_out, ready, session_greeting, tagged, untagged};
ghost use Rattle.imap_login.specs.Replies.{welcome};

use crate::capabilities::Capabilities;
use crate::outcome::Outcome;
use std::alloc::AllocError;

/// Appends the capabilities between two texts.
fn push_between(
    out: &mut Vec<u8>,
    before: &[u8],
    capabilities: &Capabilities,
    after: &[u8],
) -> Result<(), AllocError>
    ensures { OnOk result
        (out.new.items ≡ out.old.items ++ (before.now ++ capabilities.now ++ after.now)) }
{
    out.extend_from_slice(before)?;
    out.extend_from_slice(capabilities.as_bytes())?;
    out.extend_from_slice(after)
}

/// Appends the first line of a connection whose client is to log in (RFC 9051, section 7.1.1).
pub fn push_greeting(out: &mut Vec<u8>, capabilities: &Capabilities) -> Result<(), AllocError>
    ensures { OnOk result (out.new.items ≡ out.old.items ++ greeting capabilities.now) }
{
    push_between(
        out,
        b"* OK [CAPABILITY ",
        capabilities,
        b" AUTH=PLAIN SASL-IR] shared mailbox profile ready\r\n",
    )
}

/// Appends the first line of a session that begins without a login (RFC 9051, section 7.1.4).
pub fn push_session_greeting(
    out: &mut Vec<u8>,
    capabilities: &Capabilities,
) -> Result<(), AllocError>
    ensures { OnOk result (out.new.items ≡ out.old.items ++ session_greeting capabilities.now) }
{
    push_between(
        out,
        b"* PREAUTH [CAPABILITY ",
        capabilities,
        b"] shared mailbox profile ready\r\n",
    )
}

/// Returns the last line to a client that takes too long.
pub fn farewell() -> &'static [u8]
    ensures { result.now ≡ idle_too_long }
{
    b"* BYE idle too long\r\n"
}

/// Returns how many octets the line has, if `octets` begin with it, else 0.
#[tactic(auto, using(crate::proofs::Greeted::starts_within))]
pub fn front_length(line: &[u8], octets: &[u8]) -> usize
    ensures length { result ≡ front_length line.now octets.now }
    ensures within { result ≤ length octets.now }
{
    if octets.starts_with(line) {
        line.len()
    } else {
        0
    }
}

/// Appends the line that ends the answer to a command with this tag.
pub(crate) fn push_tagged(out: &mut Vec<u8>, tag: &[u8], outcome: Outcome) -> Result<(), AllocError>
    ensures { OnOk result (out.new.items ≡ out.old.items ++ tagged tag.now outcome) }
{
    out.extend_from_slice(tag)?;
    out.push(b' ')?;
    out.extend_from_slice(outcome.text().as_bytes())?;
    out.extend_from_slice(b"\r\n")
}

/// Appends the last line to the login that is right, whose tag this is.
pub(crate) fn push_welcome(
    out: &mut Vec<u8>,
    capabilities: &Capabilities,
    tag: &[u8],
) -> Result<(), AllocError>
    ensures { OnOk result (out.new.items ≡ out.old.items ++ welcome capabilities.now tag.now) }
{
    out.extend_from_slice(tag)?;
    push_between(out, b" OK [CAPABILITY ", capabilities, b"] done\r\n")?;
    Ok(())
}

pub(crate) fn push_untagged(out: &mut Vec<u8>) -> Result<(), AllocError>
    ensures { OnOk result (out.new.items ≡ out.old.items ++ untagged) }
{
    out.extend_from_slice(b"* BAD not in this state\r\n")
}

pub(crate) fn push_capability(
    out: &mut Vec<u8>,
    capabilities: &Capabilities,
) -> Result<(), AllocError>
    ensures { OnOk result (out.new.items ≡ out.old.items ++ capability_line capabilities.now) }
{
    push_between(
        out,
        b"* CAPABILITY ",
        capabilities,
        b" AUTH=PLAIN SASL-IR\r\n",
    )
}

pub(crate) fn push_challenge(out: &mut Vec<u8>) -> Result<(), AllocError>
    ensures { OnOk result (out.new.items ≡ out.old.items ++ challenge) }
{
    out.extend_from_slice(b"+ \r\n")
}

pub(crate) fn push_ready(out: &mut Vec<u8>) -> Result<(), AllocError>
    ensures { OnOk result (out.new.items ≡ out.old.items ++ ready) }
{
    out.extend_from_slice(b"+ ready\r\n")
}

pub(crate) fn push_logging_out(out: &mut Vec<u8>) -> Result<(), AllocError>
    ensures { OnOk result (out.new.items ≡ out.old.items ++ logging_out) }
{
    out.extend_from_slice(b"* BYE logging out\r\n")
}

pub(crate) fn push_limit_reached(out: &mut Vec<u8>) -> Result<(), AllocError>
    ensures { OnOk result (out.new.items ≡ out.old.items ++ limit_reached) }
{
    out.extend_from_slice(b"* BYE limit reached\r\n")
}
