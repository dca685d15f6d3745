//! Writing values and lists of them.

ghost use Rattle.std.specs.Prelude.{◌≡◌, ◌++◌, OnOk, decimal};
ghost use Rattle.std.specs.List.{list_all};
ghost use Rattle.imap_syntax.specs.Writing.{Writing, further, joined, in_parentheses, separated};

use crate::cursor::Keyword;
use itoa::Buffer;
use std::alloc::AllocError;
use std::marker::PhantomData;

/// A kind of value that can be written.
pub trait Spelling {
    type Value;

    ghost writing: { Writing Self.Value };

    /// Whether the value can be spelt.
    fn fits(value: &Self::Value) -> bool
        ensures { result ≡ writing.fits value.now };

    /// Appends the spelling of `value`.
    fn push(out: &mut Vec<u8>, value: &Self::Value) -> Result<(), AllocError>
        ensures { OnOk result (out.new.items ≡ out.old.items ++ writing.text value.now) };
}

/// A word of the table `W`, in capitals.
#[derive(Drop)]
pub struct Word<W>(PhantomData<W>);

impl<W: Keyword> Spelling for Word<W> {
    ghost use Rattle.imap_syntax.specs.Writing.{word};

    type Value = W;

    ghost writing = { word W.name_of };

    fn fits(_word: &W) -> bool {
        true
    }

    fn push(out: &mut Vec<u8>, word: &W) -> Result<(), AllocError> {
        out.extend_from_slice(word.name())
    }
}

/// Whether each value can be spelt.
pub fn all_fit<S: Spelling>(values: &[S::Value]) -> bool
    ensures { result ≡ list_all S.writing.fits values.now }
{
    values.iter().all(|value| S::fits(value))
}

/// Whether there are values and each can be spelt.
pub fn some_fit<S: Spelling>(values: &[S::Value]) -> bool
    ensures { result ≡ (separated 32 S.writing).fits values.now }
{
    !values.is_empty() && all_fit::<S>(values)
}

/// Appends the values with `separator` before each.
fn push_further<S: Spelling>(
    out: &mut Vec<u8>,
    separator: u8,
    values: &[S::Value],
) -> Result<(), AllocError>
    ensures { OnOk result (out.new.items ≡ out.old.items ++ further separator S.writing.text values.now) }
{
    for value in values {
        out.push(separator)?;
        S::push(out, value)?;
    }
    Ok(())
}

/// Appends the values with `separator` between them.
pub fn push_separated<S: Spelling>(
    out: &mut Vec<u8>,
    separator: u8,
    values: &[S::Value],
) -> Result<(), AllocError>
    ensures { OnOk result (out.new.items ≡ out.old.items ++ joined separator S.writing.text values.now) }
{
    match values {
        [first, others @ ..] => {
            S::push(out, first)?;
            push_further::<S>(out, separator, others)
        }
        [] => Ok(()),
    }
}

/// Appends the values in parentheses, with spaces between them.
pub fn push_listed<S: Spelling>(out: &mut Vec<u8>, values: &[S::Value]) -> Result<(), AllocError>
    ensures { OnOk result (out.new.items
        ≡ out.old.items ++ in_parentheses (joined 32 S.writing.text values.now)) }
{
    out.push(b'(')?;
    push_separated::<S>(out, b' ', values)?;
    out.push(b')')?;
    Ok(())
}

/// Appends a number in digits, without leading zeros.
pub fn push_number(out: &mut Vec<u8>, number: u64) -> Result<(), AllocError>
    ensures { OnOk result (out.new.items ≡ out.old.items ++ decimal number) }
{
    let mut buffer = Buffer::new();
    out.extend_from_slice(buffer.format(number).as_bytes())
}

/// Appends `front`, a number in digits, and `back`.
pub fn push_between(
    out: &mut Vec<u8>,
    front: &[u8],
    number: u64,
    back: &[u8],
) -> Result<(), AllocError>
    ensures { OnOk result (out.new.items ≡ out.old.items ++ (front.now ++ (decimal number ++ back.now))) }
{
    out.extend_from_slice(front)?;
    push_number(out, number)?;
    out.extend_from_slice(back)?;
    Ok(())
}
