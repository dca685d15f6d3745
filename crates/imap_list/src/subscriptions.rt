//! Subscriptions (RFC 9051, sections 6.3.7 and 6.3.8).

ghost use Rattle.std.specs.Prelude.{◌≡◌, IfOk};
ghost use Rattle.std.specs.FinMap as map;
ghost use Rattle.imap_list.specs.Subscriptions as specs;

use imap_answer::{Answer, CommandContext};
use imap_lex::Octets;
use imap_names::Name;
use imap_print::Refusal;
use imap_rights::Rights;
use imap_values::beside;
use imap_view::View;
use imap_world::Effect;
use std::alloc::AllocError;

/// The most names that a user may have subscribed to.
const MAX_SUBSCRIPTIONS: usize = 1000;

/// Answers SUBSCRIBE of a name, as it stands in the command.
pub fn subscribe_answer(
    context: &CommandContext<'_>,
    mailbox: &Octets,
) -> Result<Answer, AllocError>
    ensures { let meant = specs.subscribe_answer context.now.view context.now.tag mailbox.now in
        IfOk result (λ answer. answer ≡ meant) }
{
    match context.name(mailbox)? {
        Some(name) => subscribe_to(context, &name),
        None => context.refuse(Refusal::NonExistent),
    }
}

fn subscribe_to(context: &CommandContext<'_>, name: &Name) -> Result<Answer, AllocError>
    ensures { IfOk result (λ answer.
        answer ≡ specs.subscribe_of_name context.now.view context.now.tag name.now) }
{
    let view = context.view();
    if !is_listed(view, name) {
        return context.refuse(Refusal::NonExistent);
    }
    if view.is_subscribed(&name.as_ref()) {
        return context.done();
    }
    if view.count_subscribed() >= MAX_SUBSCRIPTIONS {
        return context.refuse(Refusal::Limit);
    }
    let user = view.user().try_copy()?;
    let (name, user) = beside(name.try_copy(), user)?;
    context.done_with(Effect::Subscribe(user, name))
}

/// Whether the user holds `l` on the mailbox (RFC 4314, section 4).
fn is_listed(view: &View<'_>, name: &Name) -> bool
    ensures { result ≡ specs.is_listed (map.get view.now.seen name.now) }
{
    match view.seen(&name.as_ref()) {
        Some(seen) => seen.rights().has_any(Rights::LOOKUP),
        None => false,
    }
}

/// Answers UNSUBSCRIBE of a name, as it stands in the command.
pub fn unsubscribe_answer(
    context: &CommandContext<'_>,
    mailbox: &Octets,
) -> Result<Answer, AllocError>
    ensures { let meant = specs.unsubscribe_answer context.now.view context.now.tag mailbox.now in
        IfOk result (λ answer. answer ≡ meant) }
{
    match context.name(mailbox)? {
        Some(name) => unsubscribe_from(context, &name),
        None => context.refuse(Refusal::NonExistent),
    }
}

fn unsubscribe_from(context: &CommandContext<'_>, name: &Name) -> Result<Answer, AllocError>
    ensures { IfOk result (λ answer.
        answer ≡ specs.unsubscribe_of_name context.now.view context.now.tag name.now) }
{
    let view = context.view();
    if !view.is_subscribed(&name.as_ref()) {
        return context.done();
    }
    let user = view.user().try_copy()?;
    let (name, user) = beside(name.try_copy(), user)?;
    context.done_with(Effect::Unsubscribe(user, name))
}
