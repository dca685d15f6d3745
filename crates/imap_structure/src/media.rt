//! Media types (RFC 2045, section 5).

ghost use Rattle.std.specs.Prelude.{◌≡◌, ◌∷◌, [], IfOk, codes, find, option_copied};
ghost use Rattle.std.specs.List.{list_any};
ghost use Rattle.imap_mime.specs.Values.{first_value};
ghost use Rattle.imap_structure.specs.Media.{all_params, boundary_of, charset_param, default_media, has_type};
ghost use Rattle.imap_structure.specs.Media.{is_boundary, is_charset, is_digest, is_message, is_word, kind_of};
ghost use Rattle.imap_structure.specs.Media.{media_of, media_or, media_or_text, plain_type, with_charset};

use crate::media_reader::read_media;
use imap_mime::{OctetString, first_value};
use imap_syntax::Items;
use std::alloc::{AllocError, Global};

/// A parameter of a field.
#[derive(Drop)]
pub struct Param {
    pub name: OctetString,
    pub value: OctetString,
}

/// A media type with its parameters.
#[derive(Drop)]
pub struct MediaType {
    pub kind: OctetString,
    pub subtype: OctetString,
    pub params: Items<Param>,
}

/// Whether the octets are the word, in any ASCII case.
pub(crate) fn is_word(word: &[u8], octets: &[u8]) -> bool
    ensures { result ≡ is_word word.now octets.now }
{
    octets.eq_ignore_ascii_case(word)
}

/// Returns a type without parameters.
pub(crate) fn type_of(alloc: Global, kind: &[u8], subtype: &[u8]) -> Result<MediaType, AllocError>
    ensures { IfOk result (λ media. media ≡ plain_type kind.now subtype.now) }
{
    let kind = OctetString::from_slice(alloc, kind)?;
    let subtype = OctetString::from_slice(alloc, subtype)?;
    Ok(MediaType {
        kind,
        subtype,
        params: Items::from_vec(Vec::new(alloc)),
    })
}

/// Returns the type of a part whose field says none (RFC 2045, section 5.2; RFC 2046, section 5.1.5).
fn default_media(alloc: Global, in_digest: bool) -> Result<MediaType, AllocError>
    ensures { IfOk result (λ media. media ≡ default_media in_digest) }
{
    if in_digest {
        type_of(alloc, b"message", b"rfc822")
    } else {
        type_of(alloc, b"text", b"plain")
    }
}

/// Whether there are a type and a subtype.
fn has_type(media: &MediaType) -> bool
    ensures { result ≡ has_type media.now }
{
    !media.kind.is_empty() && !media.subtype.is_empty()
}

/// Returns the type in the value of a field. What is no type is text.
fn media_in(alloc: Global, value: &[u8]) -> Result<MediaType, AllocError>
    ensures { IfOk result (λ media. media ≡ media_or_text value.now) }
{
    let media = read_media(alloc, value)?;
    if has_type(&media) {
        Ok(media)
    } else {
        type_of(alloc, b"text", b"plain")
    }
}

fn read_or_default(alloc: Global, octets: &[u8], in_digest: bool) -> Result<MediaType, AllocError>
    ensures { let value = first_value (codes "Content-Type") octets.now in
        IfOk result (λ media. media ≡ media_or in_digest value) }
{
    match first_value(alloc, octets, b"Content-Type")? {
        Some(value) => media_in(alloc, value.as_slice()),
        None => default_media(alloc, in_digest),
    }
}

fn has_charset(params: &[Param]) -> bool
    ensures { result ≡ list_any is_charset params.now }
{
    params
        .iter()
        .any(|param| is_word(b"charset", param.name.as_slice()))
}

fn charset_param(alloc: Global) -> Result<Param, AllocError>
    ensures { IfOk result (λ param. param ≡ charset_param) }
{
    let name = OctetString::from_slice(alloc, b"charset")?;
    let value = OctetString::from_slice(alloc, b"us-ascii")?;
    Ok(Param { name, value })
}

/// Appends the default charset if none is there (RFC 2046, section 4.1.2).
fn add_charset(alloc: Global, params: Items<Param>) -> Result<Items<Param>, AllocError>
    ensures { IfOk result (λ all. all ≡ all_params params) }
{
    if has_charset(params.as_slice()) {
        return Ok(params);
    }
    let mut params = params.into_vec();
    params.push(charset_param(alloc)?)?;
    Ok(Items::from_vec(params))
}

fn with_charset(alloc: Global, media: MediaType) -> Result<MediaType, AllocError>
    ensures { IfOk result (λ whole. whole ≡ with_charset media) }
{
    if !is_word(b"text", media.kind.as_slice()) {
        return Ok(media);
    }
    let MediaType {
        kind,
        subtype,
        params,
    } = media;
    let params = add_charset(alloc, params)?;
    Ok(MediaType {
        kind,
        subtype,
        params,
    })
}

/// Returns the media type of a part that begins with its header. `in_digest` says whether the part stands in
/// a digest.
pub fn media_of(alloc: Global, octets: &[u8], in_digest: bool) -> Result<MediaType, AllocError>
    ensures { IfOk result (λ media. media ≡ media_of in_digest octets.now) }
{
    with_charset(alloc, read_or_default(alloc, octets, in_digest)?)
}

fn boundary_param(params: &[Param]) -> Option<&Param>
    ensures { option_copied result ≡ find is_boundary params.now }
{
    params
        .iter()
        .find(|param| is_word(b"boundary", param.name.as_slice()))
}

/// Returns the boundary of the parts of a multipart, without octets if none is given.
pub(crate) fn boundary_of(params: &[Param]) -> &[u8]
    ensures { result.now ≡ boundary_of params.now }
{
    match boundary_param(params) {
        Some(param) => param.value.as_slice(),
        None => &[],
    }
}

/// What a part with a media type is told as.
#[derive(Clone, Copy)]
pub(crate) enum Kind {
    /// Parts between boundaries (RFC 2046, section 5.1).
    Multipart,
    /// A message (RFC 2046, section 5.2.1; RFC 6532, section 3.7).
    Message,
    Text,
    Other,
}

fn is_message(media: &MediaType) -> bool
    ensures { result ≡ is_message media.now }
{
    let subtype = media.subtype.as_slice();
    is_word(b"message", media.kind.as_slice())
        && (is_word(b"rfc822", subtype) || is_word(b"global", subtype))
}

impl MediaType {
    pub(crate) fn kind_of(&self) -> Kind
        ensures { result ≡ kind_of self.now }
    {
        if is_word(b"multipart", self.kind.as_slice()) {
            Kind::Multipart
        } else if is_message(self) {
            Kind::Message
        } else if is_word(b"text", self.kind.as_slice()) {
            Kind::Text
        } else {
            Kind::Other
        }
    }

    /// Whether its parts are messages if they don't say what they are.
    pub(crate) fn is_digest(&self) -> bool
        ensures { result ≡ is_digest self.now }
    {
        is_word(b"digest", self.subtype.as_slice())
    }
}
