//! What STORE answers of UNCHANGEDSINCE (RFC 7162, section 3.1.3).

ghost use Rattle.std.specs.Prelude.{◌≡◌};
ghost use Rattle.imap_changes.specs.Store as specs;

use imap_grammar::StoreSpec;
use imap_print::{Code, EnabledCapabilities, NumberSet};

/// The code MODIFIED with these numbers or UIDs, if there are any.
pub(crate) fn modified_code(skipped: Vec<u32>) -> Option<Code>
    ensures { result ≡ specs.modified_code skipped.items }
{
    match NumberSet::from_rising(skipped) {
        Some(skipped) => Some(Code::Modified(skipped)),
        None => None,
    }
}

/// What STORE enables: CONDSTORE, if it has UNCHANGEDSINCE.
pub(crate) fn enabled_by(spec: &StoreSpec) -> EnabledCapabilities
    ensures { result ≡ specs.enabled_by spec.now }
{
    EnabledCapabilities {
        condstore: spec.unchanged_since.is_some(),
        imap4rev2: false,
        qresync: false,
    }
}
