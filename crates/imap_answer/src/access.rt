//! The rights that a command needs on a mailbox (RFC 4314, section 4).

ghost use Rattle.std.specs.Prelude.{◌≡◌};
ghost use Rattle.imap_view.specs.Rights.{bits};
ghost use Rattle.imap_answer.specs.Access as specs;

use imap_print::Refusal;
use imap_view::Rights;

/// Why a command is refused whose user holds these rights on the mailbox, and lacks another.
pub fn missing_right_refusal(rights: Rights) -> Refusal
    ensures { result ≡ specs.missing_right_refusal (bits rights) }
{
    if rights.has_any(Rights::LOOKUP) {
        Refusal::NoPerm
    } else {
        Refusal::NonExistent
    }
}
