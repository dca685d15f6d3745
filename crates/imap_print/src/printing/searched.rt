//! The results of a search (RFC 9051, section 7.3.4; RFC 7162, section 3.1.5).

ghost use Rattle.std.specs.Prelude.{◌≡◌, ◌++◌, IfOk, OnOk, codes, true};
ghost use Rattle.imap_print.specs.declared.response.Response.TheVariants as response;
ghost use Rattle.imap_print.specs.Words.{GoesOn, given};
ghost use Rattle.imap_print.specs.Printed.{found_words, results_words, line_text};

use super::numbers::push_set;
use super::words::{push_given, push_named, push_space, widened};
use crate::numbering::NumberSet;
use crate::search::SearchResults;
use imap_lex::Tag;
use imap_syntax::push_quoted;
use std::alloc::AllocError;

fn push_found(out: &mut Vec<u8>, all: &Option<NumberSet>) -> Result<bool, AllocError>
    ensures { IfOk result (λ now. GoesOn out.old.items true (found_words all.now) out.new.items now) }
{
    if let Some(all) = all {
        push_space(out, true)?;
        out.extend_from_slice(b"ALL ")?;
        push_set(out, all)?;
    }
    Ok(true)
}

fn push_results(out: &mut Vec<u8>, results: &SearchResults) -> Result<bool, AllocError>
    ensures { IfOk result (λ now. GoesOn out.old.items true (results_words results.now) out.new.items now) }
{
    push_named(out, true, b"MIN ", widened(results.min))?;
    push_named(out, true, b"MAX ", widened(results.max))?;
    push_found(out, &results.all)?;
    push_named(out, true, b"COUNT ", widened(results.count))?;
    push_named(out, true, b"MODSEQ ", results.mod_seq)
}

fn push_words_found(
    out: &mut Vec<u8>,
    uid: bool,
    results: &SearchResults,
) -> Result<bool, AllocError>
    ensures { IfOk result (λ now.
        GoesOn out.old.items true (given uid (codes "UID") ++ results_words results.now) out.new.items now) }
{
    push_given(out, true, uid, b"UID")?;
    push_results(out, results)
}

pub(super) fn push_search(
    out: &mut Vec<u8>,
    tag: &Tag,
    uid: bool,
    results: &SearchResults,
) -> Result<(), AllocError>
    ensures { OnOk result (out.new.items ≡ out.old.items
        ++ line_text (response.Search tag.now uid results.now)) }
{
    out.extend_from_slice(b"* ESEARCH (TAG ")?;
    push_quoted(out, tag.as_slice())?;
    out.push(b')')?;
    push_words_found(out, uid, results)?;
    Ok(())
}
