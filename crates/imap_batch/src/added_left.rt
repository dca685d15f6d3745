//! Rows that are added, one after another.

ghost use Rattle.std.specs.Prelude.{◌≡◌, ◌<◌, ◌≤◌, [], ◌∷◌, MatchOption, IfSome};
ghost use Rattle.imap_modseq.specs.Numbers.{max_events};
ghost use Rattle.imap_mailbox.specs.Lent.{row_shown};
ghost use Rattle.imap_batch.specs.Planned.{seen_added, row_added, added_by, CanAdd};

use crate::batch::NewMessage;
use crate::marks_left::{own_after, with_seen};
use imap_mailbox::Row;
use imap_modseq::number_after;

/// The messages of a batch that are left to be added, the UID of the first, and the numbers of shared events
/// and own changes before them.
#[derive(Clone, Copy)]
pub(crate) struct AddedLeft<'a> {
    pub added: &'a [NewMessage],
    pub uid: u32,
    pub shared: u64,
    pub own: u64,
}

/// Returns the change of the user's own `\Seen` with which a message is added.
fn seen_added(message: &NewMessage) -> Option<bool>
    ensures { result ≡ seen_added message.now }
{
    if message.seen {
        return Some(true);
    }
    None
}

fn add_row<'a>(message: &'a NewMessage, uid: u32, shared: u64, own: u64) -> Row<'a>
    requires shared { shared < max_events }
    requires own { own ≤ max_events }
    ensures { row_shown result ≡ row_added uid shared own message.now }
{
    let row = Row {
        uid,
        date: message.date,
        octets: &message.octets,
        flags: &message.flags,
        seen: false,
        number: number_after(shared, own),
    };
    with_seen(
        &row,
        own,
        number_after(shared + 1, own),
        seen_added(message),
    )
}

/// Returns the row of the first message, and the messages that are left then.
pub(crate) fn next_added<'a>(left: &AddedLeft<'a>) -> Option<(Row<'a>, AddedLeft<'a>)>
    requires { CanAdd left.now }
    ensures rows { MatchOption result (added_by left.now ≡ [])
        (λ found. added_by left.now ≡ row_shown found.0 ∷ added_by found.1) }
    ensures added { IfSome result (λ found. CanAdd found.1) }
{
    match left.added.split_first() {
        Some((message, rest)) => {
            let row = add_row(message, left.uid, left.shared, left.own);
            let later = AddedLeft {
                added: rest,
                uid: left.uid + 1,
                shared: left.shared + 1,
                own: own_after(left.own, seen_added(message)),
            };
            Some((row, later))
        }
        None => None,
    }
}
