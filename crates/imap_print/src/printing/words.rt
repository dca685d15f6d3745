//! Words with a space between each two of them.

ghost use Rattle.std.specs.Prelude.{◌≡◌, ◌++◌, IfOk, OnOk, decimal};
ghost use Rattle.imap_print.specs.Words.{space, given, given_by, GoesOn};

use imap_syntax::{Atom, push_number};
use std::alloc::AllocError;

/// Appends a space if `begun` says that there is a word already.
pub(super) fn push_space(out: &mut Vec<u8>, begun: bool) -> Result<(), AllocError>
    ensures { OnOk result (out.new.items ≡ out.old.items ++ space begun) }
{
    if begun {
        out.push(b' ')?;
    }
    Ok(())
}

/// Appends the word if it is `wanted`. Returns whether there is a word by now.
pub(super) fn push_given(
    out: &mut Vec<u8>,
    begun: bool,
    wanted: bool,
    word: &[u8],
) -> Result<bool, AllocError>
    ensures { IfOk result (λ now. GoesOn out.old.items begun (given wanted word.now) out.new.items now) }
{
    if wanted {
        push_space(out, begun)?;
        out.extend_from_slice(word)?;
        Ok(true)
    } else {
        Ok(begun)
    }
}

/// Appends the atoms of a list. Returns whether there is a word by now.
pub(super) fn push_words(out: &mut Vec<u8>, begun: bool, words: &[Atom]) -> Result<bool, AllocError>
    ensures { IfOk result (λ now. GoesOn out.old.items begun words.now out.new.items now) }
{
    let mut begun = begun;
    for word in words {
        push_space(out, begun)?;
        out.extend_from_slice(word.as_slice())?;
        begun = true;
    }
    Ok(begun)
}

/// The number of 32 bits as one of 64 bits.
pub(super) fn widened(number: Option<u32>) -> Option<u64>
    ensures { result ≡ number }
{
    match number {
        Some(number) => Some(u64::from(number)),
        None => None,
    }
}

/// Appends `name` and the number, if there is one. Returns whether there is a word by now.
pub(super) fn push_named(
    out: &mut Vec<u8>,
    begun: bool,
    name: &[u8],
    number: Option<u64>,
) -> Result<bool, AllocError>
    ensures { IfOk result (λ now.
        GoesOn out.old.items begun (given_by (λ n. name.now ++ decimal n) number) out.new.items now) }
{
    match number {
        Some(number) => {
            push_space(out, begun)?;
            out.extend_from_slice(name)?;
            push_number(out, number)?;
            Ok(true)
        }
        None => Ok(begun),
    }
}
