//! Default case folding by runs (The Unicode Standard, section 3.13): ASCII folds by its lower case.

ghost use Rattle.std.specs.Prelude.{◌≡◌, ◌≤◌, ◌++◌, length, map, take, drop, IfOk, OnOk, string_bytes};
ghost use Rattle.std.specs.Char.{to_ascii_lowercase};
ghost use Rattle.imap_text.specs.Folds.{folded_text};

use crate::runs::first_run;
use caseless::Caseless;
use std::alloc::{AllocError, Global};

/// Returns the text, each character folded by default case folding.
pub(crate) fn fold_runs(alloc: Global, text: &str) -> Result<Vec<u8>, AllocError>
    ensures { IfOk result (λ folded. folded.items ≡ folded_text text.now) }
{
    let mut folded = Vec::with_capacity(alloc, text.len())?;
    let mut scratch = String::new(alloc);
    let mut rest = text;
    while !rest.is_empty() {
        let run = first_run(rest);
        push_ascii(&mut folded, run.ascii.as_bytes())?;
        push_other(&mut folded, &mut scratch, run.other)?;
        rest = run.later;
    }
    Ok(folded)
}

/// Returns a copy with the letters of ASCII in lower case.
pub(crate) fn lower_case(alloc: Global, octets: &[u8]) -> Result<Vec<u8>, AllocError>
    ensures { IfOk result (λ lower. lower.items ≡ map to_ascii_lowercase octets.now) }
{
    let mut lower = Vec::with_capacity(alloc, octets.len())?;
    push_ascii(&mut lower, octets)?;
    Ok(lower)
}

/// Appends ASCII in lower case.
fn push_ascii(folded: &mut Vec<u8>, ascii: &[u8]) -> Result<(), AllocError>
    ensures { OnOk result (folded.new.items ≡ folded.old.items ++ map to_ascii_lowercase ascii.now) }
{
    let start = folded.len();
    folded.extend_from_slice(ascii)?;
    lower_from(folded, start);
    Ok(())
}

/// Brings the octets from `start` on to lower case.
fn lower_from(octets: &mut Vec<u8>, start: usize)
    requires { start ≤ length octets.old.items }
    ensures { let old = octets.old.items in
        octets.new.items ≡ take start old ++ map to_ascii_lowercase (drop start old) }
{
    let (_, later) = octets.as_mut_slice().split_at_mut(start);
    later.make_ascii_lowercase();
}

/// Appends the fold of `other`, which is made in `scratch`.
fn push_other(folded: &mut Vec<u8>, scratch: &mut String, other: &str) -> Result<(), AllocError>
    ensures { OnOk result (folded.new.items ≡ folded.old.items ++ folded_text other.now) }
{
    fold_into(scratch, other)?;
    folded.extend_from_slice(scratch.as_bytes())
}

/// Makes `folded` the fold of `text`.
fn fold_into(folded: &mut String, text: &str) -> Result<(), AllocError>
    ensures { OnOk result (string_bytes folded.new ≡ folded_text text.now) }
{
    folded.clear();
    folded.extend(text.chars().default_case_fold())
}
