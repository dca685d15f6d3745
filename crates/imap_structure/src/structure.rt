//! Structures (RFC 9051, section 7.5.2).

ghost use Rattle.std.specs.Prelude.{◌≡◌, ◌<◌, ◌++◌, ◌∷◌, OnOk, false, flat_map, map};
ghost use Rattle.imap_mime.specs.Envelope.{envelope_of, envelope_text};
ghost use Rattle.imap_text.specs.Sections.{text};
ghost use Rattle.imap_structure.specs.Structure.{entity_by, entity_text, limit_text, lines_text, message_text};
ghost use Rattle.imap_structure.specs.Structure.{multipart_end, multipart_extended, multipart_text, other_text};
ghost use Rattle.imap_structure.specs.Structure.{plain_text, structure_of, structure_text};

use crate::disposition::push_place;
use crate::header::text;
use crate::lines::line_count;
use crate::media::{Kind, MediaType, boundary_of, media_of, type_of};
use crate::params::push_params;
use crate::parts::parts_of;
use crate::single::{push_end, push_front, push_further_number};
use imap_mime::{push_envelope, push_string};
use std::alloc::{AllocError, Global};

/// How deep parts stand in one another. What stands deeper isn't read.
pub const MAX_DEPTH: u32 = 64;

/// Appends a part that is told with its size alone.
fn push_other(
    alloc: Global,
    out: &mut Vec<u8>,
    extended: bool,
    media: &MediaType,
    octets: &[u8],
) -> Result<(), AllocError>
    ensures { OnOk result (out.new.items ≡ out.old.items ++ other_text extended media.now octets.now) }
{
    push_front(alloc, out, media, octets)?;
    push_end(alloc, out, extended, octets)
}

/// Appends a space and the number of lines in the body.
fn push_lines(out: &mut Vec<u8>, octets: &[u8]) -> Result<(), AllocError>
    ensures { OnOk result (out.new.items ≡ out.old.items ++ 32 ∷ lines_text (text octets.now)) }
{
    push_further_number(out, line_count(text(octets)))
}

/// Appends a part of text, which is told with the number of its lines.
fn push_plain(
    alloc: Global,
    out: &mut Vec<u8>,
    extended: bool,
    media: &MediaType,
    octets: &[u8],
) -> Result<(), AllocError>
    ensures { OnOk result (out.new.items ≡ out.old.items ++ plain_text extended media.now octets.now) }
{
    push_front(alloc, out, media, octets)?;
    push_lines(out, octets)?;
    push_end(alloc, out, extended, octets)
}

/// Appends a part that stands too deep to be read.
fn push_limit(
    alloc: Global,
    out: &mut Vec<u8>,
    extended: bool,
    octets: &[u8],
) -> Result<(), AllocError>
    ensures { OnOk result (out.new.items ≡ out.old.items ++ limit_text extended octets.now) }
{
    let media = type_of(alloc, b"application", b"octet-stream")?;
    push_other(alloc, out, extended, &media, octets)?;
    Ok(())
}

/// Appends what is told of a multipart in BODYSTRUCTURE alone.
fn push_multipart_extended(
    alloc: Global,
    out: &mut Vec<u8>,
    extended: bool,
    media: &MediaType,
    octets: &[u8],
) -> Result<(), AllocError>
    ensures { OnOk result (out.new.items
        ≡ out.old.items ++ multipart_extended extended media.now octets.now) }
{
    if !extended {
        return Ok(());
    }
    out.push(b' ')?;
    push_params(out, media.params.as_slice())?;
    push_place(alloc, out, octets)
}

/// Appends what is told of a multipart after its parts.
fn push_multipart_end(
    alloc: Global,
    out: &mut Vec<u8>,
    extended: bool,
    media: &MediaType,
    octets: &[u8],
) -> Result<(), AllocError>
    ensures { OnOk result (out.new.items ≡ out.old.items ++ multipart_end extended media.now octets.now) }
{
    out.push(b' ')?;
    push_string(out, media.subtype.as_slice())?;
    push_multipart_extended(alloc, out, extended, media, octets)?;
    out.extend_from_slice(b")")
}

/// Appends the parts of a multipart.
#[cycle(structures)]
fn push_parts(
    alloc: Global,
    out: &mut Vec<u8>,
    extended: bool,
    in_digest: bool,
    depth: u32,
    parts: &[&[u8]],
) -> Result<(), AllocError>
    ensures { OnOk result (out.new.items ≡ out.old.items
        ++ flat_map (structure_text extended depth in_digest) (map (λ part. part.now) parts.now)) }
{
    for part in parts {
        push_part(alloc, out, extended, in_digest, depth, part)?;
    }
    Ok(())
}

#[cycle(structures)]
fn push_multipart(
    alloc: Global,
    out: &mut Vec<u8>,
    extended: bool,
    depth: u32,
    media: &MediaType,
    octets: &[u8],
) -> Result<(), AllocError>
    ensures { OnOk result (out.new.items ≡ out.old.items
        ++ multipart_text extended (structure_text extended depth) media.now octets.now) }
{
    let parts = parts_of(alloc, boundary_of(media.params.as_slice()), text(octets))?;
    out.push(b'(')?;
    push_parts(
        alloc,
        out,
        extended,
        media.is_digest(),
        depth,
        parts.as_slice(),
    )?;
    push_multipart_end(alloc, out, extended, media, octets)?;
    Ok(())
}

/// Appends a space and the envelope of the message that is the body.
fn push_inner_envelope(alloc: Global, out: &mut Vec<u8>, octets: &[u8]) -> Result<(), AllocError>
    ensures { OnOk result (out.new.items
        ≡ out.old.items ++ 32 ∷ envelope_text (envelope_of (text octets.now))) }
{
    out.push(b' ')?;
    push_envelope(alloc, out, text(octets))
}

/// Appends a space and the structure of the message that is the body.
#[cycle(structures)]
fn push_inner_structure(
    alloc: Global,
    out: &mut Vec<u8>,
    extended: bool,
    depth: u32,
    octets: &[u8],
) -> Result<(), AllocError>
    ensures { OnOk result (out.new.items
        ≡ out.old.items ++ 32 ∷ structure_text extended depth false (text octets.now)) }
{
    out.push(b' ')?;
    push_part(alloc, out, extended, false, depth, text(octets))
}

/// Appends a part that is a message, which is told with its envelope, its structure and the number of its lines.
#[cycle(structures)]
fn push_message(
    alloc: Global,
    out: &mut Vec<u8>,
    extended: bool,
    depth: u32,
    media: &MediaType,
    octets: &[u8],
) -> Result<(), AllocError>
    ensures { OnOk result (out.new.items ≡ out.old.items
        ++ message_text extended (structure_text extended depth) media.now octets.now) }
{
    push_front(alloc, out, media, octets)?;
    push_inner_envelope(alloc, out, octets)?;
    push_inner_structure(alloc, out, extended, depth, octets)?;
    push_lines(out, octets)?;
    push_end(alloc, out, extended, octets)?;
    Ok(())
}

/// Appends the structure of a part of this type.
#[cycle(structures)]
fn push_entity(
    alloc: Global,
    out: &mut Vec<u8>,
    extended: bool,
    depth: u32,
    media: &MediaType,
    octets: &[u8],
) -> Result<(), AllocError>
    ensures { OnOk result (out.new.items ≡ out.old.items
        ++ entity_text extended (structure_text extended depth) media.now octets.now) }
{
    match media.kind_of() {
        Kind::Multipart => push_multipart(alloc, out, extended, depth, media, octets),
        Kind::Message => push_message(alloc, out, extended, depth, media, octets),
        Kind::Text => push_plain(alloc, out, extended, media, octets),
        Kind::Other => push_other(alloc, out, extended, media, octets),
    }
}

/// Appends the structure of a part in which others stand to this depth.
#[cycle(structures)]
fn push_part(
    alloc: Global,
    out: &mut Vec<u8>,
    extended: bool,
    in_digest: bool,
    depth: u32,
    octets: &[u8],
) -> Result<(), AllocError>
    ensures { OnOk result (out.new.items ≡ out.old.items
        ++ structure_text extended depth in_digest octets.now) }
{
    if depth == 0 {
        push_limit(alloc, out, extended, octets)?;
        return Ok(());
    }
    let media = media_of(alloc, octets, in_digest)?;
    push_entity(alloc, out, extended, depth - 1, &media, octets)?;
    Ok(())
}

/// Appends the structure of a message: BODYSTRUCTURE, or BODY if `extended` is false.
pub fn push_structure(
    alloc: Global,
    out: &mut Vec<u8>,
    extended: bool,
    message: &[u8],
) -> Result<(), AllocError>
    ensures { OnOk result (out.new.items ≡ out.old.items ++ structure_of extended message.now) }
{
    push_part(alloc, out, extended, false, MAX_DEPTH, message)
}
