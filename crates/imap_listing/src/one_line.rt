//! The LIST line of one mailbox.

ghost use Rattle.std.specs.Prelude.{◌≡◌, IfOk};
ghost use Rattle.imap_listing.specs.MailboxLine as specs;
ghost use Rattle.imap_answer.specs.Lines.{IsPrintable};

use crate::line::{Line, list_line};
use crate::shown_name::ShownName;
use imap_answer::{CommandContext, Response, View};
use imap_names::Name;
use imap_rights::Rights;
use std::alloc::AllocError;

/// Returns the LIST line of a mailbox that is there, as SELECT gives it (RFC 9051, section 6.3.2).
pub fn mailbox_line(context: &CommandContext<'_>, name: &Name) -> Result<Response, AllocError>
    ensures line { IfOk result (λ line. line ≡ specs.mailbox_line context.now.view name.now) }
    ensures printable { IfOk result IsPrintable }
{
    let view = context.view();
    list_line(
        false,
        Line {
            name: ShownName::of(context.alloc(), view, name)?,
            is_there: true,
            has_children: has_listable_below(view, name),
            is_subscribed: false,
        },
    )
}

/// Whether the user holds `l` on a mailbox below.
fn has_listable_below(view: &View<'_>, name: &Name) -> bool
    ensures { result ≡ specs.has_listable_below view.now name.now }
{
    for (_, seen) in view.seen_below(&name.as_ref()) {
        if seen.rights().has_any(Rights::LOOKUP) {
            return true;
        }
    }
    false
}
