//! Flags (RFC 9051, section 9, `flag-list` and `flag-perm`).

ghost use Rattle.std.specs.Prelude.{◌≡◌, ◌++◌, IfOk, OnOk, false};
ghost use Rattle.imap_print.specs.Words.{GoesOn, in_parentheses};
ghost use Rattle.imap_print.specs.Flags.{system_flags, flag_words, flags_text};
ghost use Rattle.imap_print.specs.Flags.{permanent_text, every_system_flag};

use super::words::{push_given, push_words};
use crate::flag::FlagSet;
use imap_syntax::Atom;
use std::alloc::AllocError;

fn push_system_flags(out: &mut Vec<u8>, flags: &FlagSet) -> Result<bool, AllocError>
    ensures { IfOk result (λ now. GoesOn out.old.items false (system_flags flags.now) out.new.items now) }
{
    let begun = push_given(out, false, flags.answered, b"\\Answered")?;
    let begun = push_given(out, begun, flags.deleted, b"\\Deleted")?;
    let begun = push_given(out, begun, flags.draft, b"\\Draft")?;
    let begun = push_given(out, begun, flags.flagged, b"\\Flagged")?;
    push_given(out, begun, flags.seen, b"\\Seen")
}

fn push_flag_words(out: &mut Vec<u8>, flags: &FlagSet) -> Result<bool, AllocError>
    ensures { IfOk result (λ now. GoesOn out.old.items false (flag_words flags.now) out.new.items now) }
{
    let begun = push_system_flags(out, flags)?;
    push_words(out, begun, flags.keywords.as_slice())
}

pub(super) fn push_flags(out: &mut Vec<u8>, flags: &FlagSet) -> Result<(), AllocError>
    ensures { OnOk result (out.new.items ≡ out.old.items ++ flags_text flags.now) }
{
    out.push(b'(')?;
    push_flag_words(out, flags)?;
    out.push(b')')?;
    Ok(())
}

pub(super) fn push_permanent(
    out: &mut Vec<u8>,
    flags: &FlagSet,
    any: bool,
) -> Result<(), AllocError>
    ensures { OnOk result (out.new.items ≡ out.old.items ++ permanent_text flags.now any) }
{
    out.push(b'(')?;
    let begun = push_flag_words(out, flags)?;
    push_given(out, begun, any, b"\\*")?;
    out.push(b')')?;
    Ok(())
}

/// The five flags of the standard, and these keywords.
pub(super) fn push_all_flags(out: &mut Vec<u8>, keywords: &[Atom]) -> Result<(), AllocError>
    ensures { OnOk result (out.new.items ≡ out.old.items
        ++ in_parentheses (every_system_flag ++ keywords.now)) }
{
    out.extend_from_slice(b"(\\Answered \\Deleted \\Draft \\Flagged \\Seen")?;
    push_words(out, true, keywords)?;
    out.push(b')')?;
    Ok(())
}
