//! The parts of a multipart (RFC 2046, section 5.1.1).

ghost use Rattle.std.specs.Prelude.{◌≡◌, ◌++◌, [], IfOk, MatchOption, OnOk, map};
ghost use Rattle.imap_text.specs.Lines.{lines};
ghost use Rattle.imap_structure.specs.Parts.{IsFirstPart, found_parts, or_empty, parts_before, parts_of, parts_within};

use crate::delimiter::{Delimiter, delimiter_of};
use crate::lines::without_end;
use imap_text::split_line;
use std::alloc::{AllocError, Global};

/// The first part of octets that follow a delimiter.
#[derive(Clone, Copy)]
struct PartSplit<'a> {
    part: &'a [u8],
    /// What follows the delimiter after it.
    later: &'a [u8],
    is_last: bool,
}

/// Returns what follows the first delimiter, if a part does.
fn after_preamble<'a>(boundary: &[u8], body: &'a [u8]) -> Option<&'a [u8]>
    ensures { let parts = parts_before boundary.now (lines body.now) in
        MatchOption result (parts ≡ []) (λ rest. parts ≡ parts_within boundary.now (lines rest.now) []) }
{
    let mut rest = body;
    while let Some((line, later)) = split_line(rest) {
        match delimiter_of(boundary, line) {
            Delimiter::None => rest = later,
            Delimiter::Part => return Some(later),
            Delimiter::End => return None,
        }
    }
    None
}

/// Splits the first part from what follows the delimiter after it.
fn split_part<'a>(boundary: &[u8], octets: &'a [u8]) -> PartSplit<'a>
    ensures { IsFirstPart boundary.now octets.now result.part.now result.later.now result.is_last }
{
    let mut rest = octets;
    while let Some((line, later)) = split_line(rest) {
        let part = without_end(&octets[..octets.len() - rest.len()]);
        match delimiter_of(boundary, line) {
            Delimiter::None => rest = later,
            Delimiter::Part => {
                return PartSplit {
                    part,
                    later,
                    is_last: false,
                };
            }
            Delimiter::End => {
                return PartSplit {
                    part,
                    later,
                    is_last: true,
                };
            }
        }
    }
    PartSplit {
        part: octets,
        later: rest,
        is_last: true,
    }
}

/// Appends the parts in octets that follow a delimiter.
fn push_parts<'a>(
    boundary: &[u8],
    octets: &'a [u8],
    parts: &mut Vec<&'a [u8]>,
) -> Result<(), AllocError>
    ensures { OnOk result (map (λ part. part.now) parts.new.items
        ≡ map (λ part. part.now) parts.old.items ++ parts_within boundary.now (lines octets.now) []) }
{
    let mut rest = octets;
    let mut is_last = false;
    while !is_last {
        let split = split_part(boundary, rest);
        parts.push(split.part)?;
        rest = split.later;
        is_last = split.is_last;
    }
    Ok(())
}

fn push_found<'a>(
    boundary: &[u8],
    body: &'a [u8],
    parts: &mut Vec<&'a [u8]>,
) -> Result<(), AllocError>
    ensures { OnOk result (map (λ part. part.now) parts.new.items
        ≡ map (λ part. part.now) parts.old.items ++ found_parts boundary.now body.now) }
{
    if boundary.is_empty() {
        return Ok(());
    }
    match after_preamble(boundary, body) {
        Some(rest) => push_parts(boundary, rest, parts),
        None => Ok(()),
    }
}

/// Appends an empty part if there is none.
fn push_if_none<'a>(body: &'a [u8], parts: &mut Vec<&'a [u8]>) -> Result<(), AllocError>
    ensures { OnOk result (map (λ part. part.now) parts.new.items
        ≡ or_empty (map (λ part. part.now) parts.old.items)) }
{
    if !parts.is_empty() {
        return Ok(());
    }
    parts.push(&body[..0])?;
    Ok(())
}

/// Returns the parts of a multipart with this boundary. One that has none has an empty part.
pub(crate) fn parts_of<'a>(
    alloc: Global,
    boundary: &[u8],
    body: &'a [u8],
) -> Result<Vec<&'a [u8]>, AllocError>
    ensures { IfOk result (λ parts. map (λ part. part.now) parts.items ≡ parts_of boundary.now body.now) }
{
    let mut parts = Vec::new(alloc);
    push_found(boundary, body, &mut parts)?;
    push_if_none(body, &mut parts)?;
    Ok(parts)
}
