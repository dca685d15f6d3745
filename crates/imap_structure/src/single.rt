//! A part that is no multipart (RFC 9051, section 9, `body-type-1part`).

ghost use Rattle.std.specs.Prelude.{◌≡◌, ◌++◌, ◌∷◌, [], OnOk, decimal, length};
ghost use Rattle.imap_mime.specs.Values.{first_value};
ghost use Rattle.imap_print.specs.Words.{before_each};
ghost use Rattle.imap_text.specs.Sections.{text};
ghost use Rattle.imap_structure.specs.Single.{encoding_of, encoding_or, field_words, media_text, single_end};
ghost use Rattle.imap_structure.specs.Single.{single_front};

use crate::disposition::push_place;
use crate::header::text;
use crate::media::MediaType;
use crate::params::push_params;
use imap_mime::{OctetString, first_value, push_further_value, push_string};
use imap_syntax::push_number;
use std::alloc::{AllocError, Global};

fn push_media(out: &mut Vec<u8>, media: &MediaType) -> Result<(), AllocError>
    ensures { OnOk result (out.new.items ≡ out.old.items ++ media_text media.now) }
{
    push_string(out, media.kind.as_slice())?;
    out.push(b' ')?;
    push_string(out, media.subtype.as_slice())?;
    out.push(b' ')?;
    push_params(out, media.params.as_slice())
}

/// Returns the encoding, or the default (RFC 2045, section 6.1).
fn encoding_or(encoding: &Option<OctetString>) -> &[u8]
    ensures { result.now ≡ encoding_or encoding.now }
{
    match encoding {
        Some(encoding) if !encoding.is_empty() => encoding.as_slice(),
        _ => b"7BIT",
    }
}

fn push_encoding(alloc: Global, out: &mut Vec<u8>, octets: &[u8]) -> Result<(), AllocError>
    ensures { OnOk result (out.new.items ≡ out.old.items ++ encoding_of octets.now) }
{
    let encoding = first_value(alloc, octets, b"Content-Transfer-Encoding")?;
    push_string(out, encoding_or(&encoding))
}

/// Appends the identifier, the description and the encoding, each after a space.
fn push_fields(alloc: Global, out: &mut Vec<u8>, octets: &[u8]) -> Result<(), AllocError>
    ensures { OnOk result (out.new.items ≡ out.old.items ++ before_each 32 (field_words octets.now)) }
{
    push_further_value(alloc, out, octets, b"Content-ID")?;
    push_further_value(alloc, out, octets, b"Content-Description")?;
    out.push(b' ')?;
    push_encoding(alloc, out, octets)
}

/// Appends a space and a number.
pub(crate) fn push_further_number(out: &mut Vec<u8>, number: u64) -> Result<(), AllocError>
    ensures { OnOk result (out.new.items ≡ out.old.items ++ 32 ∷ decimal number) }
{
    out.push(b' ')?;
    push_number(out, number)
}

/// Appends what is told of each part: its type, its fields and the size of its body.
pub(crate) fn push_front(
    alloc: Global,
    out: &mut Vec<u8>,
    media: &MediaType,
    octets: &[u8],
) -> Result<(), AllocError>
    ensures { let size = length (text octets.now) in OnOk result (out.new.items
        ≡ out.old.items ++ single_front media.now octets.now size) }
{
    out.push(b'(')?;
    push_media(out, media)?;
    push_fields(alloc, out, octets)?;
    push_further_number(out, text(octets).len() as u64)
}

/// Appends what is told of each part in BODYSTRUCTURE alone, and the end.
pub(crate) fn push_end(
    alloc: Global,
    out: &mut Vec<u8>,
    extended: bool,
    octets: &[u8],
) -> Result<(), AllocError>
    ensures { OnOk result (out.new.items ≡ out.old.items ++ single_end extended octets.now) }
{
    if extended {
        push_further_value(alloc, out, octets, b"Content-MD5")?;
        push_place(alloc, out, octets)?;
    }
    out.extend_from_slice(b")")
}
