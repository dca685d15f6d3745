//! Envelopes (RFC 9051, section 7.5.2).

ghost use Rattle.std.specs.Prelude.{◌≡◌, ◌++◌, ◌∷◌, OnOk};
ghost use Rattle.imap_print.specs.Words.{before_each};
ghost use Rattle.imap_mime.specs.Envelope.{addresses_or, envelope_of, envelope_text, further_words};
ghost use Rattle.imap_mime.specs.Envelope.{recipient_words, sender_words};
ghost use Rattle.imap_mime.specs.Strings.{addresses_text, nstring_text};
ghost use Rattle.imap_mime.specs.Values.{all_addresses, first_addresses, first_value};

use crate::address::Address;
use crate::strings::{push_addresses, push_nstring};
use crate::values::{all_addresses, first_addresses, first_value};
use std::alloc::{AllocError, Global};

/// Appends the value of the first field of this name.
fn push_value(
    alloc: Global,
    out: &mut Vec<u8>,
    header: &[u8],
    name: &[u8],
) -> Result<(), AllocError>
    ensures { OnOk result (out.new.items
        ≡ out.old.items ++ nstring_text (first_value name.now header.now)) }
{
    let value = first_value(alloc, header, name)?;
    push_nstring(out, &value)
}

/// Appends a space and the value of the first field of this name.
pub fn push_further_value(
    alloc: Global,
    out: &mut Vec<u8>,
    header: &[u8],
    name: &[u8],
) -> Result<(), AllocError>
    ensures { OnOk result (out.new.items
        ≡ out.old.items ++ 32 ∷ nstring_text (first_value name.now header.now)) }
{
    out.push(b' ')?;
    push_value(alloc, out, header, name)
}

fn addresses_or<'a>(others: &'a [Address], addresses: &'a [Address]) -> &'a [Address]
    ensures { result.now ≡ addresses_or others.now addresses.now }
{
    match addresses {
        [] => others,
        _ => addresses,
    }
}

fn push_further_addresses(out: &mut Vec<u8>, addresses: &[Address]) -> Result<(), AllocError>
    ensures { OnOk result (out.new.items ≡ out.old.items ++ 32 ∷ addresses_text addresses.now) }
{
    out.push(b' ')?;
    push_addresses(out, addresses)
}

/// Appends a space and the addresses in the first field of this name, or `from` if there are none.
fn push_or_from(
    alloc: Global,
    out: &mut Vec<u8>,
    header: &[u8],
    from: &[Address],
    name: &[u8],
) -> Result<(), AllocError>
    ensures { OnOk result (out.new.items ≡ out.old.items
        ++ 32 ∷ addresses_text (addresses_or from.now (first_addresses name.now header.now))) }
{
    let addresses = first_addresses(alloc, header, name)?;
    push_further_addresses(out, addresses_or(from, addresses.as_slice()))
}

/// Appends From, Sender and Reply-To, each after a space.
fn push_senders(alloc: Global, out: &mut Vec<u8>, header: &[u8]) -> Result<(), AllocError>
    ensures { OnOk result (out.new.items
        ≡ out.old.items ++ before_each 32 (sender_words (envelope_of header.now))) }
{
    let from = first_addresses(alloc, header, b"From")?;
    push_further_addresses(out, from.as_slice())?;
    push_or_from(alloc, out, header, from.as_slice(), b"Sender")?;
    push_or_from(alloc, out, header, from.as_slice(), b"Reply-To")
}

/// Appends a space and the addresses in all fields of this name.
fn push_all(alloc: Global, out: &mut Vec<u8>, header: &[u8], name: &[u8]) -> Result<(), AllocError>
    ensures { OnOk result (out.new.items
        ≡ out.old.items ++ 32 ∷ addresses_text (all_addresses name.now header.now)) }
{
    let addresses = all_addresses(alloc, header, name)?;
    push_further_addresses(out, addresses.as_slice())
}

/// Appends To, Cc and Bcc, each after a space.
fn push_recipients(alloc: Global, out: &mut Vec<u8>, header: &[u8]) -> Result<(), AllocError>
    ensures { OnOk result (out.new.items
        ≡ out.old.items ++ before_each 32 (recipient_words (envelope_of header.now))) }
{
    push_all(alloc, out, header, b"To")?;
    push_all(alloc, out, header, b"Cc")?;
    push_all(alloc, out, header, b"Bcc")
}

/// Appends all words but the date, each after a space.
fn push_further_words(alloc: Global, out: &mut Vec<u8>, header: &[u8]) -> Result<(), AllocError>
    ensures { OnOk result (out.new.items
        ≡ out.old.items ++ before_each 32 (further_words (envelope_of header.now))) }
{
    push_further_value(alloc, out, header, b"Subject")?;
    push_senders(alloc, out, header)?;
    push_recipients(alloc, out, header)?;
    push_further_value(alloc, out, header, b"In-Reply-To")?;
    push_further_value(alloc, out, header, b"Message-ID")?;
    Ok(())
}

/// Appends the envelope of a message with this header, which may have text after it.
pub fn push_envelope(alloc: Global, out: &mut Vec<u8>, header: &[u8]) -> Result<(), AllocError>
    ensures { OnOk result (out.new.items ≡ out.old.items ++ envelope_text (envelope_of header.now)) }
{
    out.push(b'(')?;
    push_value(alloc, out, header, b"Date")?;
    push_further_words(alloc, out, header)?;
    out.extend_from_slice(b")")
}
