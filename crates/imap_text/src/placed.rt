//! What stands at places of a header that was cut, and what stands at none of them.

ghost use Rattle.std.specs.Prelude.{◌≡◌, ◌≤◌, length, map, slice_range, IfOk};
ghost use Rattle.std.specs.List.{concat, after_first};
ghost use Rattle.imap_text.specs.Fields.{is_colon};
ghost use Rattle.imap_text.specs.Places.{AreInOrder, all_at, texts_at, others_from};

use crate::field::colon_of;
use crate::header_fields::push_part;
use imap_lex::Octets;
use imap_syntax::Items;
use std::alloc::{AllocError, Global};

/// Returns what stands at the places, one part for each run of places that adjoin.
pub(crate) fn placed_parts(
    alloc: Global,
    message: &Octets,
    bounds: &[usize],
    places: &[usize],
) -> Result<Items<Octets>, AllocError>
    requires { AreInOrder message.now bounds.now 0 places.now }
    ensures { IfOk result (λ parts. concat parts ≡ all_at message.now bounds.now places.now) }
{
    let mut parts = Vec::new(alloc);
    // What stands from `start` up to `end` is in no part yet.
    let mut start = 0;
    let mut end = 0;
    for place in places {
        let next = bounds[*place];
        let stop = bounds[*place + 1];
        if next == end {
            end = stop;
        } else {
            push_part(&mut parts, message, start, end)?;
            start = next;
            end = stop;
        }
    }
    push_part(&mut parts, message, start, end)?;
    Ok(Items::from_vec(parts))
}

/// Returns what stands between the places, before the first and after the last.
pub(crate) fn unplaced_parts(
    alloc: Global,
    message: &Octets,
    bounds: &[usize],
    places: &[usize],
) -> Result<Items<Octets>, AllocError>
    requires { AreInOrder message.now bounds.now 0 places.now }
    ensures { IfOk result (λ parts. concat parts ≡ others_from message.now bounds.now 0 places.now) }
{
    let mut parts = Vec::new(alloc);
    let mut start = 0;
    for place in places {
        push_part(&mut parts, message, start, bounds[*place])?;
        start = bounds[*place + 1];
    }
    push_part(&mut parts, message, start, bounds[bounds.len() - 1])?;
    Ok(Items::from_vec(parts))
}

/// Returns the texts of the fields at the places.
pub(crate) fn placed_texts<'a>(
    alloc: Global,
    message: &'a [u8],
    bounds: &[usize],
    places: &[usize],
) -> Result<Vec<&'a [u8]>, AllocError>
    requires { AreInOrder message.now bounds.now 0 places.now }
    ensures { IfOk result
        (λ texts. map (λ text. text.now) texts.items ≡ texts_at message.now bounds.now places.now) }
{
    let mut texts = Vec::with_capacity(alloc, places.len())?;
    for place in places {
        let field = octets_between(message, bounds[*place], bounds[*place + 1]);
        texts.push(after_colon(field))?;
    }
    Ok(texts)
}

fn octets_between(octets: &[u8], start: usize, end: usize) -> &[u8]
    requires order { start ≤ end }
    requires within { end ≤ length octets.now }
    ensures { result.now ≡ slice_range octets.now start end }
{
    &octets[start..end]
}

/// Returns what follows the first colon, or nothing if there is none.
fn after_colon(octets: &[u8]) -> &[u8]
    ensures { result.now ≡ after_first is_colon octets.now }
{
    match colon_of(octets) {
        Some(colon) => &octets[colon + 1..],
        None => &octets[octets.len()..],
    }
}
