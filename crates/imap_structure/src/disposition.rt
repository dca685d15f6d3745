//! What stands at the end of a part in BODYSTRUCTURE (RFC 9051, section 9, `body-ext-1part`).

ghost use Rattle.std.specs.Prelude.{◌≡◌, ◌++◌, ◌∷◌, OnOk};
ghost use Rattle.imap_mime.specs.Values.{first_value};
ghost use Rattle.imap_print.specs.Words.{before_each};
ghost use Rattle.imap_structure.specs.MediaReader.{media_in};
ghost use Rattle.imap_structure.specs.Single.{disposition_of, disposition_text, media_disposition, place_words};

use crate::media::MediaType;
use crate::media_reader::read_media;
use crate::params::push_params;
use imap_mime::{first_value, push_further_value, push_string};
use std::alloc::{AllocError, Global};

/// Appends a disposition that was read as a media type is.
fn push_read(out: &mut Vec<u8>, media: &MediaType) -> Result<(), AllocError>
    ensures { OnOk result (out.new.items ≡ out.old.items ++ media_disposition media.now) }
{
    out.push(b'(')?;
    push_string(out, media.kind.as_slice())?;
    out.push(b' ')?;
    push_params(out, media.params.as_slice())?;
    out.extend_from_slice(b")")
}

fn push_value(alloc: Global, out: &mut Vec<u8>, value: &[u8]) -> Result<(), AllocError>
    ensures { OnOk result (out.new.items ≡ out.old.items ++ media_disposition (media_in value.now)) }
{
    let media = read_media(alloc, value)?;
    push_read(out, &media)
}

/// Appends the disposition (RFC 2183).
fn push_disposition(alloc: Global, out: &mut Vec<u8>, octets: &[u8]) -> Result<(), AllocError>
    ensures { OnOk result (out.new.items ≡ out.old.items ++ disposition_of octets.now) }
{
    match first_value(alloc, octets, b"Content-Disposition")? {
        Some(value) => push_value(alloc, out, value.as_slice()),
        None => out.extend_from_slice(b"NIL"),
    }
}

/// Appends the disposition, the language and the location of a part, each after a space.
pub(crate) fn push_place(alloc: Global, out: &mut Vec<u8>, octets: &[u8]) -> Result<(), AllocError>
    ensures { OnOk result (out.new.items ≡ out.old.items ++ before_each 32 (place_words octets.now)) }
{
    out.push(b' ')?;
    push_disposition(alloc, out, octets)?;
    push_further_value(alloc, out, octets, b"Content-Language")?;
    push_further_value(alloc, out, octets, b"Content-Location")
}
