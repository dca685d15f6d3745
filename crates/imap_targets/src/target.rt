//! The mailbox into which messages are put.

ghost use Rattle.std.specs.Prelude.{◌≡◌};
ghost use Rattle.imap_targets.specs.Target as specs;
ghost use Rattle.imap_view.specs.Seen.{shown};

use imap_names::{Name, NameRef};
use imap_print::{Code, Refusal};
use imap_rights::Rights;
use imap_view::{Seen, View};

/// Why nothing is put into the mailbox, on which the user lacks `i`.
pub fn target_refusal(view: &View<'_>, name: &Name) -> Refusal
    ensures { result ≡ specs.target_refusal view.now name.now }
{
    if view.rights(&name.as_ref()).has_any(Rights::LOOKUP) {
        return Refusal::NoPerm;
    }
    if holds_create_above(view, &name.as_ref()) {
        Refusal::TryCreate
    } else {
        Refusal::NonExistent
    }
}

/// Whether the user holds `k` on a superior of the name, or owns the tree that it lies in.
fn holds_create_above(view: &View<'_>, name: &NameRef<'_>) -> bool
    ensures { result ≡ specs.holds_create_above view.now name.now }
{
    match name.superior() {
        Some(above) => {
            view.rights(&above).has_any(Rights::CREATE) || holds_create_above(view, &above)
        }
        None => view.owns_tree(name),
    }
}

/// Returns the response code APPENDUID of the next message of the mailbox. `None` if the user may not read the mailbox.
pub fn append_code(seen: &Seen<'_>) -> Option<Code>
    ensures { result ≡ specs.append_code (shown seen.now) }
{
    if !seen.rights().has_any(Rights::READ) {
        return None;
    }
    match (seen.validity(), seen.next_uid()) {
        (Some(validity), Some(uid)) => Some(Code::AppendUid { validity, uid }),
        _ => None,
    }
}
