//! Strings and addresses, written (RFC 3501, section 9; RFC 9051, section 7.5.2).

ghost use Rattle.std.specs.Prelude.{◌≡◌, ◌++◌, ◌∷◌, OnOk, flat_map};
ghost use Rattle.std.specs.List.{list_all};
ghost use Rattle.imap_mime.specs.Strings.{address_text, addresses_text, held_text, is_ascii, is_quoted};
ghost use Rattle.imap_mime.specs.Strings.{nstring_text, string_text};

use crate::address::Address;
use crate::octet_string::OctetString;
use imap_syntax::{is_quotable, push_literal, push_quoted};
use std::alloc::AllocError;

fn are_ascii(octets: &[u8]) -> bool
    ensures { result ≡ list_all is_ascii octets.now }
{
    octets.is_ascii()
}

fn is_quoted(octets: &[u8]) -> bool
    ensures { result ≡ is_quoted octets.now }
{
    is_quotable(octets) && are_ascii(octets)
}

fn push_held(out: &mut Vec<u8>, octets: &[u8]) -> Result<(), AllocError>
    ensures { OnOk result (out.new.items ≡ out.old.items ++ held_text octets.now) }
{
    push_literal(out, octets)
}

/// Appends a `string`: in quotes if it is ASCII, else a literal.
pub fn push_string(out: &mut Vec<u8>, octets: &[u8]) -> Result<(), AllocError>
    ensures { OnOk result (out.new.items ≡ out.old.items ++ string_text octets.now) }
{
    if is_quoted(octets) {
        push_quoted(out, octets)
    } else {
        push_held(out, octets)
    }
}

/// Appends an `nstring`: NIL if there is none, in quotes if it is ASCII, else a literal.
pub fn push_nstring(out: &mut Vec<u8>, octets: &Option<OctetString>) -> Result<(), AllocError>
    ensures { OnOk result (out.new.items ≡ out.old.items ++ nstring_text octets.now) }
{
    match octets {
        Some(octets) => push_string(out, octets.as_slice()),
        None => out.extend_from_slice(b"NIL"),
    }
}

/// Appends an `nstring` after a space.
pub fn push_further(out: &mut Vec<u8>, octets: &Option<OctetString>) -> Result<(), AllocError>
    ensures { OnOk result (out.new.items ≡ out.old.items ++ 32 ∷ nstring_text octets.now) }
{
    out.push(b' ')?;
    push_nstring(out, octets)
}

fn push_address(out: &mut Vec<u8>, address: &Address) -> Result<(), AllocError>
    ensures { OnOk result (out.new.items ≡ out.old.items ++ address_text address.now) }
{
    out.push(b'(')?;
    push_nstring(out, &address.name)?;
    push_further(out, &address.route)?;
    push_further(out, &address.mailbox)?;
    push_further(out, &address.host)?;
    out.extend_from_slice(b")")
}

fn push_each(out: &mut Vec<u8>, addresses: &[Address]) -> Result<(), AllocError>
    ensures { OnOk result (out.new.items ≡ out.old.items ++ flat_map address_text addresses.now) }
{
    for address in addresses {
        push_address(out, address)?;
    }
    Ok(())
}

/// Appends the addresses in parentheses, or NIL if there are none.
pub fn push_addresses(out: &mut Vec<u8>, addresses: &[Address]) -> Result<(), AllocError>
    ensures { OnOk result (out.new.items ≡ out.old.items ++ addresses_text addresses.now) }
{
    if addresses.is_empty() {
        return out.extend_from_slice(b"NIL");
    }
    out.push(b'(')?;
    push_each(out, addresses)?;
    out.extend_from_slice(b")")
}
