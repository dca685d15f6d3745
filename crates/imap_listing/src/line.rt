//! Lines of a listing.

ghost use Rattle.std.specs.Prelude.{◌≡◌, IfOk};
ghost use Rattle.imap_listing.specs.ListLine as specs;
ghost use Rattle.imap_answer.specs.Lines.{IsPrintable};

use crate::shown_name::ShownName;
use imap_answer::{Children, ListAttributes, Response};
use imap_lex::Octets;
use std::alloc::AllocError;

/// What a listing says of one name.
#[derive(Drop)]
pub struct Line {
    pub name: ShownName,
    /// Whether the user holds `l` on a mailbox of this name. If not, the line has `\NonExistent`.
    pub is_there: bool,
    /// Whether the user holds `l` on a mailbox below the name: `\HasChildren`, else `\HasNoChildren`.
    pub has_children: bool,
    /// Whether the user subscribed to the name: `\Subscribed`.
    pub is_subscribed: bool,
}

/// Returns the response that is a line of a listing. Its `\Subscribed` is shown if `with_subscribed`.
pub fn list_line(with_subscribed: bool, line: Line) -> Result<Response, AllocError>
    ensures line { IfOk result (λ response. response ≡ specs.list_line with_subscribed line) }
    ensures printable { IsPrintable (specs.list_line with_subscribed line) }
{
    let Line {
        name,
        is_there,
        has_children,
        is_subscribed,
    } = line;
    let attributes = ListAttributes {
        non_existent: !is_there,
        children: children_of(has_children),
        subscribed: with_subscribed && is_subscribed,
    };
    Ok(Response::List {
        attributes,
        mailbox: Octets::from_vec(name.into_string().into_bytes())?,
    })
}

fn children_of(has_children: bool) -> Children
    ensures { result ≡ specs.children_of has_children }
{
    if has_children {
        Children::Has
    } else {
        Children::HasNo
    }
}
