//! Sets of numbers (RFC 9051, section 9, `sequence-set`).

ghost use Rattle.std.specs.Prelude.{◌≡◌, ◌==◌, ◌+◌, ◌∷◌, ◌++◌, OnOk};
ghost use Rattle.imap_print.specs.Sets.{range_text, set_text};

use crate::numbering::NumberSet;
use imap_syntax::push_number;
use std::alloc::AllocError;

fn push_range(out: &mut Vec<u8>, first: u32, last: u32) -> Result<(), AllocError>
    ensures { OnOk result (out.new.items ≡ out.old.items
        ++ range_text (record { first = first; last = last })) }
{
    push_number(out, u64::from(first))?;
    if first != last {
        out.push(b':')?;
        push_number(out, u64::from(last))?;
    }
    Ok(())
}

/// Appends the fewest ranges that have the numbers of the set, in their order.
pub(super) fn push_set(out: &mut Vec<u8>, set: &NumberSet) -> Result<(), AllocError>
    ensures { OnOk result (out.new.items ≡ out.old.items ++ set_text set.now) }
{
    match set.as_slice() {
        [first, rest @ ..] => push_runs(out, *first, rest),
        [] => Ok(()),
    }
}

/// Whether a range that ends with `last` goes on with `number`.
fn goes_on(last: u32, number: u32) -> bool
    ensures { result ≡ (number == last + 1) }
{
    u64::from(number) == u64::from(last) + 1
}

/// Appends the ranges of a set of `number` and `rest`.
fn push_runs(out: &mut Vec<u8>, number: u32, rest: &[u32]) -> Result<(), AllocError>
    ensures { OnOk result (out.new.items ≡ out.old.items ++ set_text (number ∷ rest.now)) }
{
    let mut first = number;
    let mut last = number;
    for next in rest {
        if !goes_on(last, *next) {
            push_range(out, first, last)?;
            out.push(b',')?;
            first = *next;
        }
        last = *next;
    }
    push_range(out, first, last)
}
