//! Commands of any state (RFC 9051, section 6.1).

ghost use Rattle.std.specs.Prelude.{◌≡◌, IfOk};
ghost use Rattle.std.specs.Str.{str_eq_ignore_ascii_case};
ghost use Rattle.imap_core.specs.Commands.Session as specs;

use imap_answer::{Answer, CommandContext};
use imap_print::{EnabledCapabilities, Farewell, Response};
use imap_syntax::Atom;
use std::alloc::AllocError;

pub(super) fn capability_answer(context: &CommandContext<'_>) -> Result<Answer, AllocError>
    ensures { IfOk result (λ answer. answer ≡ specs.capability_answer context.now.tag) }
{
    context.done_after_line(Response::Capability)
}

pub(super) fn logout_answer(context: &CommandContext<'_>) -> Result<Answer, AllocError>
    ensures { IfOk result (λ answer. answer ≡ specs.logout_answer context.now.tag) }
{
    context.done_after_line(Response::Bye(Farewell::LoggingOut))
}

/// Answers ENABLE of words (RFC 9051, section 6.3.1) in a session with these capabilities enabled.
pub(super) fn enable_answer(
    context: &CommandContext<'_>,
    enabled: EnabledCapabilities,
    words: &[Atom],
) -> Result<Answer, AllocError>
    ensures { IfOk result (λ answer. answer ≡ specs.enable_answer enabled context.now.tag words.now) }
{
    let named = named_by(words);
    let line = Response::Enabled(newly_enabled(named, enabled));
    let answer = context.done_after_line(line)?;
    Ok(answer.enabling(EnabledCapabilities {
        condstore: named.condstore || named.qresync,
        imap4rev2: named.imap4rev2,
        qresync: named.qresync,
    }))
}

/// The capabilities that are named, in any case. Other words are passed over.
fn named_by(words: &[Atom]) -> EnabledCapabilities
    ensures { result ≡ specs.named_by words.now }
{
    EnabledCapabilities {
        condstore: has_word(words, b"CONDSTORE"),
        imap4rev2: has_word(words, b"IMAP4rev2"),
        qresync: has_word(words, b"QRESYNC"),
    }
}

fn has_word(words: &[Atom], name: &[u8]) -> bool
    ensures { result ≡ specs.has_word name.now words.now }
{
    words.iter().any(
        |word: &Atom| -> bool
            ensures { result ≡ str_eq_ignore_ascii_case word.now name.entry.now }
        { word.as_slice().eq_ignore_ascii_case(name) },
    )
}

/// Returns those of the named capabilities that were not enabled before.
fn newly_enabled(named: EnabledCapabilities, enabled: EnabledCapabilities) -> EnabledCapabilities
    ensures { result ≡ specs.newly_enabled named enabled }
{
    EnabledCapabilities {
        condstore: named.condstore && !enabled.condstore,
        imap4rev2: named.imap4rev2 && !enabled.imap4rev2,
        qresync: named.qresync && !enabled.qresync,
    }
}
