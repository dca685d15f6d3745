//! APPEND (RFC 9051, section 6.3.12).

ghost use Rattle.std.specs.Prelude.{◌≡◌, false, IfOk, Some};
ghost use Rattle.imap_mailbox.specs.Flags.{has_too_many};
ghost use Rattle.imap_messages.specs.Append as specs;
ghost use Rattle.imap_rights.specs.Rights.{bits};
ghost use Rattle.imap_view.specs.Seen.{shown};

use imap_answer::{Answer, CommandContext};
use imap_batch::{Batch, NewMessage};
use imap_lex::Octets;
use imap_mailbox::SharedFlags;
use imap_names::{Name, UserName};
use imap_print::Refusal;
use imap_rights::Rights;
use imap_syntax::{DateTime, Flags, has_nul};
use imap_targets::{append_code, batch_effect, is_new_seen, new_flags, target_refusal};
use imap_values::{beside, pushed};
use imap_view::Seen;
use imap_world::Effect;
use std::alloc::{AllocError, Global};
use std::marker::Model;

/// The arguments of APPEND, as they stand in the command.
#[derive(Drop)]
pub struct AppendArguments<'a> {
    pub mailbox: &'a Octets,
    pub flags: &'a Flags,
    pub date: Option<DateTime>,
    pub message: &'a Octets,
}

impl<'a> Model for AppendArguments<'a> {
    ghost use Rattle.std.specs.Prelude.{ℕ, List, Option, refl};
    ghost use Rattle.std.specs.Coded.{code_by, codes};
    ghost use Rattle.imap_messages.specs.Append as specs;
    ghost use Rattle.imap_syntax.specs.contracts.date.DateTime.{the_row as date_row};
    ghost use Rattle.imap_syntax.specs.contracts.flag.Flag.{the_row as flag_row};
    ghost use Rattle.imap_syntax.specs.declared.flag.Flag.{Flag};
    ghost use Rattle.imap_syntax.specs.Moments.{Moment};

    ghost Value = { specs.AppendArguments };

    ghost coded = { code_by (List ℕ × (List Flag × (Option Moment × List ℕ)))
        (Prim.hlevel (codes, flag_row.coded, date_row.coded))
        (λ a. (a.mailbox, (a.flags, (a.date, a.message))))
        (λ p. record { mailbox = p.0; flags = p.1.0; date = p.1.1.0; message = p.1.1.1 }) (λ _. refl) };

    ghost view = { λ a. record {
      mailbox = a.mailbox.now;
      flags = a.flags.now;
      date = a.date;
      message = a.message.now;
    } };
}

/// Answers APPEND of a message.
pub fn append_answer(
    context: &CommandContext<'_>,
    arguments: &AppendArguments<'_>,
) -> Result<Answer, AllocError>
    ensures { let meant = specs.append_answer context.now.view context.now.tag context.now.at arguments.now in
        IfOk result (λ answer. answer ≡ meant) }
{
    match context.name(arguments.mailbox)? {
        Some(name) => append_to_name(context, arguments, &name),
        None => context.refuse(Refusal::NonExistent),
    }
}

fn append_to_name(
    context: &CommandContext<'_>,
    arguments: &AppendArguments<'_>,
    name: &Name,
) -> Result<Answer, AllocError>
    ensures { let answer = specs.append_to_name context.now.view context.now.tag context.now.at in
        IfOk result (λ given. given ≡ answer arguments.now name.now) }
{
    match context.view().seen(&name.as_ref()) {
        Some(seen) => append_to_seen(context, arguments, name, &seen),
        None => context.refuse(target_refusal(context.view(), name)),
    }
}

fn append_to_seen(
    context: &CommandContext<'_>,
    arguments: &AppendArguments<'_>,
    name: &Name,
    seen: &Seen<'_>,
) -> Result<Answer, AllocError>
    ensures { let answer = specs.append_to_seen context.now.view context.now.tag context.now.at in
        IfOk result (λ given. given ≡ answer arguments.now name.now (Some (shown seen.now))) }
{
    if !seen.rights().has_any(Rights::INSERT) {
        return context.refuse(target_refusal(context.view(), name));
    }
    if has_nul(arguments.message.as_slice()) {
        return context.refuse(Refusal::Cannot);
    }
    match new_flags(context.alloc(), seen.rights(), arguments.flags.as_slice())? {
        Some(flags) => append_with_flags(context, arguments, name, seen, flags),
        None => context.refuse(Refusal::Limit),
    }
}

fn append_with_flags(
    context: &CommandContext<'_>,
    arguments: &AppendArguments<'_>,
    name: &Name,
    seen: &Seen<'_>,
    flags: SharedFlags,
) -> Result<Answer, AllocError>
    requires flags { flags ≡ (specs.message_of (shown seen.now).rights context.now.at arguments.now).flags }
    requires few { has_too_many flags ≡ false }
    ensures { let message = specs.message_of (shown seen.now).rights context.now.at arguments.now in
        let answer = specs.append_message context.now.view context.now.tag name.now in
        IfOk result (λ given. given ≡ answer (shown seen.now) message) }
{
    if is_full(seen.room()) {
        return context.refuse(Refusal::OverQuota);
    }
    let (octets, flags) = beside(arguments.message.try_copy(), flags)?;
    let message = NewMessage {
        date: arguments.date.unwrap_or(context.at().date_time()),
        octets,
        flags,
        seen: is_new_seen(seen.rights(), arguments.flags.as_slice()),
    };
    let effect = appends(context.alloc(), context.view().user(), name, message)?;
    context.done_with_code(append_code(seen), effect)
}

fn is_full(room: Option<u64>) -> bool
    ensures { result ≡ specs.is_full room }
{
    match room {
        Some(room) => room == 0,
        None => true,
    }
}

fn appends(
    alloc: Global,
    user: &UserName,
    name: &Name,
    message: NewMessage,
) -> Result<Effect, AllocError>
    ensures { IfOk result (λ effect. effect ≡ specs.appends user.now name.now message) }
{
    let added = pushed(Vec::new(alloc), message)?;
    let batch = Batch::adding(alloc, user, added)?;
    batch_effect(name, batch)
}
