//! LIST and NAMESPACE (RFC 9051, sections 6.3.9 and 6.3.10).

ghost use Rattle.std.specs.Prelude.{◌≡◌, ◌∷◌, ◌++◌, [], flat_map, IfOk, IfSome, OnOk};
ghost use Rattle.std.specs.List.{AllByRecursion};
ghost use Rattle.imap_print.specs.Lines.{IsPrintable};
ghost use Rattle.imap_list.specs.ListCommand as specs;
ghost use Rattle.imap_listing.specs.ListLine.{list_line};

use crate::list_arguments::ListArguments;
use crate::status::{enabled_by, status_line};
use imap_answer::{Answer, CommandContext};
use imap_listing::{Line, list, list_line, list_subscribed};
use imap_print::{Refusal, Response};
use imap_query::StatusItem;
use imap_values::beside;
use imap_view::View;
use std::alloc::{AllocError, Global};

/// Answers LIST.
pub fn list_answer(
    context: &CommandContext<'_>,
    arguments: &ListArguments<'_>,
) -> Result<Answer, AllocError>
    ensures { IfOk result (λ answer.
        answer ≡ specs.list_answer context.now.view context.now.tag arguments.now) }
{
    if arguments.is_unbuilt() {
        return context.refuse(Refusal::Cannot);
    }
    if arguments.asks_for_root() {
        return context.done_after_line(Response::ListRoot);
    }
    let items = arguments.status_items(context.alloc())?;
    listing_answer(context, arguments, items.as_slice())
}

fn listing_answer(
    context: &CommandContext<'_>,
    arguments: &ListArguments<'_>,
    items: &[StatusItem],
) -> Result<Answer, AllocError>
    requires items { items.now ≡ specs.status_items arguments.now }
    ensures { let answer = specs.listing_answer context.now.view context.now.tag arguments.now in
        IfOk result (λ given. given ≡ answer) }
{
    let lines = lines_of(context.alloc(), context.view(), arguments)?;
    let responses = responses_of_lines(context, arguments, items, lines)?;
    Ok(context.done_after(responses)?.enabling(enabled_by(items)))
}

fn lines_of(
    alloc: Global,
    view: &View<'_>,
    arguments: &ListArguments<'_>,
) -> Result<Vec<Line>, AllocError>
    ensures { IfOk result (λ lines. lines.items ≡ specs.lines_of view.now arguments.now) }
{
    let patterns = arguments.read_patterns(alloc)?;
    if arguments.selects_subscribed() {
        list_subscribed(alloc, view, patterns.as_slice())
    } else {
        list(alloc, view, patterns.as_slice())
    }
}

/// The lines, each with the numbers of its mailbox after it.
fn responses_of_lines(
    context: &CommandContext<'_>,
    arguments: &ListArguments<'_>,
    items: &[StatusItem],
    lines: Vec<Line>,
) -> Result<Vec<Response>, AllocError>
    requires items { items.now ≡ specs.status_items arguments.now }
    ensures lines { let meant = flat_map (specs.responses_of context.now.view arguments.now) lines.items in
        IfOk result (λ responses. responses.items ≡ meant) }
    ensures printable { IfOk result (λ responses. AllByRecursion IsPrintable responses.items) }
{
    let mut responses = Vec::with_capacity(context.alloc(), lines.len())?;
    for line in lines {
        push_responses(&mut responses, context, arguments, items, line)?;
    }
    Ok(responses)
}

/// Appends a line, and the numbers of its mailbox.
fn push_responses(
    responses: &mut Vec<Response>,
    context: &CommandContext<'_>,
    arguments: &ListArguments<'_>,
    items: &[StatusItem],
    line: Line,
) -> Result<(), AllocError>
    requires items { items.now ≡ specs.status_items arguments.now }
    requires printable { AllByRecursion IsPrintable responses.old.items }
    ensures lines { let meant = specs.responses_of context.now.view arguments.now line in
        OnOk result (responses.new.items ≡ responses.old.items ++ meant) }
    ensures printable { OnOk result (AllByRecursion IsPrintable responses.new.items) }
{
    let status = status_after(context, arguments, items, &line);
    let pushed = push_line(responses, arguments.shows_subscribed(), line);
    let ((), status) = beside(pushed, status)?;
    push_given(responses, status?)
}

fn push_line(
    responses: &mut Vec<Response>,
    with_subscribed: bool,
    line: Line,
) -> Result<(), AllocError>
    requires { AllByRecursion IsPrintable responses.old.items }
    ensures line { let meant = list_line with_subscribed line in
        OnOk result (responses.new.items ≡ responses.old.items ++ meant ∷ []) }
    ensures printable { OnOk result (AllByRecursion IsPrintable responses.new.items) }
{
    responses.push(list_line(with_subscribed, line)?)?;
    Ok(())
}

fn push_given(responses: &mut Vec<Response>, line: Option<Response>) -> Result<(), AllocError>
    requires responses { AllByRecursion IsPrintable responses.old.items }
    requires line { IfSome line IsPrintable }
    ensures lines { OnOk result (responses.new.items ≡ responses.old.items ++ specs.given_line line) }
    ensures printable { OnOk result (AllByRecursion IsPrintable responses.new.items) }
{
    match line {
        Some(line) => {
            responses.push(line)?;
            Ok(())
        }
        None => Ok(()),
    }
}

/// The numbers of the mailbox of a line, if they are asked for and the user may read it.
fn status_after(
    context: &CommandContext<'_>,
    arguments: &ListArguments<'_>,
    items: &[StatusItem],
    line: &Line,
) -> Result<Option<Response>, AllocError>
    requires items { items.now ≡ specs.status_items arguments.now }
    ensures line { let meant = specs.status_after context.now.view arguments.now line.now in
        IfOk result (λ status. specs.given_line status ≡ meant) }
    ensures printable { IfOk result (λ status. IfSome status IsPrintable) }
{
    if items.is_empty() {
        return Ok(None);
    }
    if line.is_there || arguments.selects_subscribed() {
        status_of_text(context, items, line.name.as_str())
    } else {
        Ok(None)
    }
}

fn status_of_text(
    context: &CommandContext<'_>,
    items: &[StatusItem],
    text: &str,
) -> Result<Option<Response>, AllocError>
    ensures line { let meant = specs.status_of_text context.now.view items.now text.now in
        IfOk result (λ status. specs.given_line status ≡ meant) }
    ensures printable { IfOk result (λ status. IfSome status IsPrintable) }
{
    match context.name_of_text(text.as_bytes())? {
        Some(name) => status_line(context, &name, items),
        None => Ok(None),
    }
}

/// Answers NAMESPACE.
pub fn namespace_answer(context: &CommandContext<'_>) -> Result<Answer, AllocError>
    ensures { IfOk result (λ answer. answer ≡ specs.namespace_answer context.now.tag) }
{
    context.done_after_line(Response::Namespace)
}
