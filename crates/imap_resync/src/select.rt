//! SELECT and EXAMINE with parameters (RFC 7162, sections 3.1.8 and 3.2.5).

ghost use Rattle.std.specs.Prelude.{◌≡◌, Some, IfOk};
ghost use Rattle.std.specs.FinMap as map;
ghost use Rattle.std.specs.List.{AllByRecursion};
ghost use Rattle.imap_answer.specs.Fit.{is_refusal};
ghost use Rattle.imap_mailbox.specs.Order.{AreRowsInOrder};
ghost use Rattle.imap_print.specs.Lines.{IsPrintable};
ghost use Rattle.imap_resync.specs.Select as specs;
ghost use Rattle.imap_targets.specs.State.{state_of};
ghost use Rattle.imap_view.specs.Readable.{readable_of};
ghost use Rattle.imap_view.specs.Seen.{shown};

use crate::changed::changed_lines;
use crate::uid_set::known_set;
use crate::vanished::lines_of_seen as vanished_lines_of_seen;
use imap_answer::{Answer, CommandContext};
use imap_commands::{QresyncArg, SelectParameters};
use imap_lex::Octets;
use imap_names::Name;
use imap_print::{EnabledCapabilities, Response};
use imap_targets::{Selecting, Session, select_answer};
use imap_values::{beside, joined};
use imap_view::{Readable, Seen};
use std::alloc::{AllocError, Global};

/// Whether QRESYNC is asked for by a client that didn't enable it (RFC 7162, section 3.2.5). The command is then
/// malformed, and leaves what is selected.
pub fn is_malformed(enabled: EnabledCapabilities, parameters: &SelectParameters) -> bool
    ensures { result ≡ specs.is_malformed enabled parameters.now }
{
    parameters.qresync.is_some() && !enabled.qresync
}

/// Answers SELECT, or EXAMINE if `read_only`, of a mailbox, as it is named in the command, with its parameters.
///
/// Either parameter enables CONDSTORE, unless the command is refused. With QRESYNC and the UIDVALIDITY that the
/// mailbox has, VANISHED (EARLIER) and a FETCH line of each message that changed come before the last line.
pub fn select_with_parameters(
    context: &CommandContext<'_>,
    session: &Session,
    read_only: bool,
    mailbox: &Octets,
    parameters: &SelectParameters,
) -> Result<Selecting, AllocError>
    ensures { let own = state_of session.now in
        let answer = specs.select_with_parameters context.now.view own context.now.tag read_only in
        IfOk result (λ given. given ≡ answer mailbox.now parameters.now) }
{
    let lines = resync_lines(context, mailbox, &parameters.qresync)?;
    let selecting = select_answer(context, session, read_only, mailbox);
    let (Selecting { answer, selection }, lines) = beside(selecting, lines)?;
    let (answer, selection) = beside(answer.followed_by(lines), selection)?;
    Ok(Selecting {
        answer: enabling_unless_refused(answer, parameters),
        selection,
    })
}

/// The same answer, to a command that enables CONDSTORE if it has a parameter and isn't refused.
fn enabling_unless_refused(answer: Answer, parameters: &SelectParameters) -> Answer
    ensures { result ≡ specs.enabling_unless_refused parameters.now answer }
{
    if is_refusal(answer.last()) {
        return answer;
    }
    answer.enabling(enabled_by(parameters))
}

fn is_refusal(line: &Response) -> bool
    ensures { result ≡ is_refusal line.now }
{
    matches!(line, Response::Refused { .. })
}

fn enabled_by(parameters: &SelectParameters) -> EnabledCapabilities
    ensures { result ≡ specs.enabled_by parameters.now }
{
    EnabledCapabilities {
        condstore: parameters.condstore || parameters.qresync.is_some(),
        imap4rev2: false,
        qresync: false,
    }
}

/// Returns the lines of QRESYNC, if it is asked for.
fn resync_lines(
    context: &CommandContext<'_>,
    mailbox: &Octets,
    qresync: &Option<QresyncArg>,
) -> Result<Vec<Response>, AllocError>
    ensures lines { let meant = specs.lines_if_asked context.now.view mailbox.now qresync.now in
        IfOk result (λ lines. lines.items ≡ meant) }
    ensures printable { IfOk result (λ lines. AllByRecursion IsPrintable lines.items) }
{
    match qresync {
        Some(known) => lines_of_mailbox(context, mailbox, known),
        None => Ok(Vec::new(context.alloc())),
    }
}

fn lines_of_mailbox(
    context: &CommandContext<'_>,
    mailbox: &Octets,
    known: &QresyncArg,
) -> Result<Vec<Response>, AllocError>
    ensures lines { let meant = specs.lines_if_asked context.now.view mailbox.now (Some known.now) in
        IfOk result (λ lines. lines.items ≡ meant) }
    ensures printable { IfOk result (λ lines. AllByRecursion IsPrintable lines.items) }
{
    match context.name(mailbox)? {
        Some(name) => lines_of_name(context, &name, known),
        None => Ok(Vec::new(context.alloc())),
    }
}

fn lines_of_name(
    context: &CommandContext<'_>,
    name: &Name,
    known: &QresyncArg,
) -> Result<Vec<Response>, AllocError>
    ensures lines { let meant = specs.lines_if_named context.now.view known.now (Some name.now) in
        IfOk result (λ lines. lines.items ≡ meant) }
    ensures printable { IfOk result (λ lines. AllByRecursion IsPrintable lines.items) }
{
    match context.view().seen(&name.as_ref()) {
        Some(seen) => lines_of_seen(context.alloc(), &seen, known),
        None => Ok(Vec::new(context.alloc())),
    }
}

fn lines_of_seen(
    alloc: Global,
    seen: &Seen<'_>,
    known: &QresyncArg,
) -> Result<Vec<Response>, AllocError>
    ensures lines { let meant = specs.lines_if_seen known.now (Some (shown seen.now)) in
        IfOk result (λ lines. lines.items ≡ meant) }
    ensures printable { IfOk result (λ lines. AllByRecursion IsPrintable lines.items) }
{
    match seen.readable() {
        Some(mailbox) => lines_of_readable(alloc, seen, &mailbox, known),
        None => Ok(Vec::new(alloc)),
    }
}

/// Returns the lines of a mailbox that the user may read: none under another UIDVALIDITY.
fn lines_of_readable(
    alloc: Global,
    seen: &Seen<'_>,
    mailbox: &Readable<'_>,
    known: &QresyncArg,
) -> Result<Vec<Response>, AllocError>
    requires order { AreRowsInOrder mailbox.now.next_uid mailbox.now.highest mailbox.now.rows }
    requires readable { Some mailbox.now ≡ readable_of (shown seen.now) }
    ensures lines { let meant = specs.lines_if_seen known.now (Some (shown seen.now)) in
        IfOk result (λ lines. lines.items ≡ meant) }
    ensures printable { IfOk result (λ lines. AllByRecursion IsPrintable lines.items) }
{
    if known.validity != mailbox.validity {
        return Ok(Vec::new(alloc));
    }
    let uids = known_set(&known.known_uids);
    let vanished = vanished_lines_of_seen(alloc, seen, known.mod_seq, &uids)?;
    let (changed, vanished) = beside(
        changed_lines(alloc, mailbox, known.mod_seq, &uids),
        vanished,
    )?;
    joined(vanished, changed)
}
