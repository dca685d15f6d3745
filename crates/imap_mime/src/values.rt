//! The values of header fields (RFC 5322, sections 2.2 and 2.2.3).

ghost use Rattle.std.specs.Prelude.{◌≡◌, ◌++◌, IfOk, OnOk, map, flat_map};
ghost use Rattle.imap_mime.specs.Values.{all_addresses, first_addresses, first_value, is_kept, trimmed, value_of};
ghost use Rattle.imap_mime.specs.Values.{value_of_first, values_addresses};

use crate::address::Address;
use crate::addresses::push_addresses_in;
use crate::octet_string::OctetString;
use imap_text::field_texts;
use std::alloc::{AllocError, Global};

/// Whether the octet is none of NUL, CR and LF.
fn is_kept(octet: u8) -> bool
    ensures { result ≡ is_kept octet }
{
    !matches!(octet, 0 | b'\r' | b'\n')
}

/// Returns the text without white space at its ends.
fn trimmed(text: &[u8]) -> &[u8]
    ensures { result.now ≡ trimmed text.now }
{
    text.trim_ascii()
}

/// Returns the value of a field with this text: without white space at its ends, NUL, and the CR and LF of
/// folds.
fn value_of(alloc: Global, text: &[u8]) -> Result<OctetString, AllocError>
    ensures { IfOk result (λ value. value ≡ value_of text.now) }
{
    let octets = trimmed(text);
    let mut value = OctetString::new(alloc);
    for octet in octets {
        if is_kept(*octet) {
            value.push(*octet)?;
        }
    }
    Ok(value)
}

/// Returns the value of the first of the texts.
fn value_of_first(alloc: Global, texts: &[&[u8]]) -> Result<Option<OctetString>, AllocError>
    ensures { IfOk result (λ value. value ≡ value_of_first (map (λ text. text.now) texts.now)) }
{
    match texts {
        [first, ..] => Ok(Some(value_of(alloc, first)?)),
        [] => Ok(None),
    }
}

/// Returns the value of the first field of this name.
pub fn first_value(
    alloc: Global,
    header: &[u8],
    name: &[u8],
) -> Result<Option<OctetString>, AllocError>
    ensures { IfOk result (λ value. value ≡ first_value name.now header.now) }
{
    let texts = field_texts(alloc, header, name)?;
    value_of_first(alloc, texts.as_slice())
}

/// Returns the addresses in the first field of this name.
pub fn first_addresses(
    alloc: Global,
    header: &[u8],
    name: &[u8],
) -> Result<Vec<Address>, AllocError>
    ensures { IfOk result (λ addresses. addresses.items ≡ first_addresses name.now header.now) }
{
    let mut addresses = Vec::new(alloc);
    if let Some(value) = first_value(alloc, header, name)? {
        push_addresses_in(alloc, value.as_slice(), &mut addresses)?;
    }
    Ok(addresses)
}

/// Appends the addresses in the texts.
fn push_values_addresses(
    alloc: Global,
    texts: &[&[u8]],
    addresses: &mut Vec<Address>,
) -> Result<(), AllocError>
    ensures { OnOk result (addresses.new.items
        ≡ addresses.old.items ++ values_addresses (map (λ text. text.now) texts.now)) }
{
    for text in texts {
        let value = value_of(alloc, text)?;
        push_addresses_in(alloc, value.as_slice(), addresses)?;
    }
    Ok(())
}

/// Returns the addresses in all fields of this name.
pub fn all_addresses(alloc: Global, header: &[u8], name: &[u8]) -> Result<Vec<Address>, AllocError>
    ensures { IfOk result (λ addresses. addresses.items ≡ all_addresses name.now header.now) }
{
    let texts = field_texts(alloc, header, name)?;
    let mut addresses = Vec::new(alloc);
    push_values_addresses(alloc, texts.as_slice(), &mut addresses)?;
    Ok(addresses)
}
