//! Parts by their numbers (RFC 9051, section 6.4.5.1).

ghost use Rattle.std.specs.Prelude.{◌≡◌, ◌∷◌, IfOk, map, option_copied};
ghost use Rattle.imap_structure.specs.Numbered.{entered, entity_at, further, further_at, kind_at, media_at};
ghost use Rattle.imap_structure.specs.Numbered.{message_at, message_in, message_of, nth, numbered, part_at, part_in};
ghost use Rattle.imap_structure.specs.Numbered.{parts_in, whole};

use crate::header::text;
use crate::media::{Kind, MediaType, boundary_of, media_of, type_of};
use crate::parts::parts_of;
use crate::structure::MAX_DEPTH;
use std::alloc::{AllocError, Global};
use std::marker::Model;

/// A message, or a part in one.
#[derive(Drop)]
struct Place<'a> {
    octets: &'a [u8],
    /// Whether it stands in a digest.
    in_digest: bool,
    /// How deep others are read in it.
    depth: u32,
}

impl<'a> Model for Place<'a> {
    ghost use Rattle.imap_structure.specs.Numbered.{Entity};

    ghost Value = { Entity };

    ghost view = { λ p. record { octets = p.octets.now; in_digest = p.in_digest; depth = p.depth } };
}

/// Returns the part of this number, counted from 1.
fn nth<'a>(parts: &[&'a [u8]], number: u32) -> Option<&'a [u8]>
    ensures { option_copied result ≡ nth (map (λ part. part.now) parts.now) number }
{
    let mut left = number;
    for part in parts {
        if left == 1 {
            return Some(part);
        }
        left = left.saturating_sub(1);
    }
    None
}

impl<'a> Place<'a> {
    /// Returns the message, in which others are read to the greatest depth.
    fn whole(message: &'a [u8]) -> Place<'a>
        ensures { result ≡ whole message.now }
    {
        Place {
            octets: message,
            in_digest: false,
            depth: MAX_DEPTH,
        }
    }

    fn again(&self) -> Place<'a>
        ensures { result ≡ self.now }
    {
        Place {
            octets: self.octets,
            in_digest: self.in_digest,
            depth: self.depth,
        }
    }

    /// Returns the part of a multipart of this type that has these octets.
    fn part_in(&self, media: &MediaType, octets: &'a [u8]) -> Place<'a>
        ensures { result ≡ part_in media.now self.now octets.now }
    {
        Place {
            octets,
            in_digest: media.is_digest(),
            depth: self.depth.saturating_sub(1),
        }
    }

    /// Returns the message that a part is.
    fn message_in(&self) -> Place<'a>
        ensures { result ≡ message_in self.now }
    {
        Place {
            octets: text(self.octets),
            in_digest: false,
            depth: self.depth.saturating_sub(1),
        }
    }

    /// Returns the media type. What stands too deep isn't read.
    fn media_at(&self, alloc: Global) -> Result<MediaType, AllocError>
        ensures { IfOk result (λ media. media ≡ media_at self.now) }
    {
        if self.depth == 0 {
            type_of(alloc, b"application", b"octet-stream")
        } else {
            media_of(alloc, self.octets, self.in_digest)
        }
    }

    fn kind_at(&self, alloc: Global) -> Result<Kind, AllocError>
        ensures { IfOk result (λ kind. kind ≡ kind_at self.now) }
    {
        let media = self.media_at(alloc)?;
        Ok(media.kind_of())
    }

    /// Returns the part of this number of a multipart of this type.
    fn nth_in(
        &self,
        alloc: Global,
        media: &MediaType,
        number: u32,
    ) -> Result<Option<Place<'a>>, AllocError>
        ensures { IfOk result (λ found. found ≡ nth (parts_in media.now self.now) number) }
    {
        let parts = parts_of(
            alloc,
            boundary_of(media.params.as_slice()),
            text(self.octets),
        )?;
        match nth(parts.as_slice(), number) {
            Some(octets) => Ok(Some(self.part_in(media, octets))),
            None => Ok(None),
        }
    }

    /// Returns the part of this number of a message or a multipart. A message that is no multipart is its
    /// part 1.
    fn numbered(&self, alloc: Global, number: u32) -> Result<Option<Place<'a>>, AllocError>
        ensures { IfOk result (λ found. found ≡ numbered self.now number) }
    {
        let media = self.media_at(alloc)?;
        match media.kind_of() {
            Kind::Multipart => self.nth_in(alloc, &media, number),
            _ if number == 1 => Ok(Some(self.again())),
            _ => Ok(None),
        }
    }

    /// Returns what the further numbers after those of the part count in, if there may be some.
    fn entered(&self, alloc: Global) -> Result<Option<Place<'a>>, AllocError>
        ensures { IfOk result (λ found. found ≡ entered self.now) }
    {
        match self.kind_at(alloc)? {
            Kind::Multipart => Ok(Some(self.again())),
            Kind::Message => Ok(Some(self.message_in())),
            _ => Ok(None),
        }
    }

    fn further(&self, alloc: Global, number: u32) -> Result<Option<Place<'a>>, AllocError>
        ensures { IfOk result (λ found. found ≡ further self.now number) }
    {
        match self.entered(alloc)? {
            Some(place) => place.numbered(alloc, number),
            None => Ok(None),
        }
    }

    /// Returns the octets of the message that the part is.
    fn message_of(&self, alloc: Global) -> Result<Option<&'a [u8]>, AllocError>
        ensures { IfOk result (λ found. option_copied found ≡ message_of self.now) }
    {
        match self.kind_at(alloc)? {
            Kind::Message => Ok(Some(text(self.octets))),
            _ => Ok(None),
        }
    }
}

/// Returns the part of these further numbers.
fn further_at<'a>(
    alloc: Global,
    part: Place<'a>,
    numbers: &[u32],
) -> Result<Option<Place<'a>>, AllocError>
    ensures { IfOk result (λ found. found ≡ further_at part.entry numbers.now) }
{
    let mut place = part;
    for number in numbers {
        match place.further(alloc, *number)? {
            Some(next) => place = next,
            None => return Ok(None),
        }
    }
    Ok(Some(place))
}

/// Returns the part of these further numbers in the one of the number `first`.
fn entity_from<'a>(
    alloc: Global,
    message: &'a [u8],
    first: u32,
    further: &[u32],
) -> Result<Option<Place<'a>>, AllocError>
    ensures { IfOk result (λ found. found ≡ entity_at (first ∷ further.now) message.now) }
{
    match Place::whole(message).numbered(alloc, first)? {
        Some(part) => further_at(alloc, part, further),
        None => Ok(None),
    }
}

fn entity_at<'a>(
    alloc: Global,
    message: &'a [u8],
    numbers: &[u32],
) -> Result<Option<Place<'a>>, AllocError>
    ensures { IfOk result (λ found. found ≡ entity_at numbers.now message.now) }
{
    match numbers.split_first() {
        Some((first, further)) => entity_from(alloc, message, *first, further),
        None => Ok(None),
    }
}

/// Returns the octets of the part of these numbers, from its header on, if it is there.
pub fn part_at<'a>(
    alloc: Global,
    message: &'a [u8],
    numbers: &[u32],
) -> Result<Option<&'a [u8]>, AllocError>
    ensures { IfOk result (λ part. option_copied part ≡ part_at numbers.now message.now) }
{
    match entity_at(alloc, message, numbers)? {
        Some(part) => Ok(Some(part.octets)),
        None => Ok(None),
    }
}

/// Returns the octets of the message that the part of these numbers is, if it is there and is one.
pub fn message_at<'a>(
    alloc: Global,
    message: &'a [u8],
    numbers: &[u32],
) -> Result<Option<&'a [u8]>, AllocError>
    ensures { IfOk result (λ found. option_copied found ≡ message_at numbers.now message.now) }
{
    match entity_at(alloc, message, numbers)? {
        Some(part) => part.message_of(alloc),
        None => Ok(None),
    }
}
