//! Whether a text is in Normalization Form C, by runs (Unicode Standard Annex 15, section 9).

ghost use Rattle.std.specs.Prelude.{◌≡◌, IsTrue};
ghost use Rattle.imap_nfc.specs.Nfc.{composed};

use crate::runs::first_run;
use unicode_normalization::{IsNormalized, is_nfc_quick};

/// Whether the text is seen to be in NFC by a look at each character that isn't ASCII. It may be in NFC, too,
/// if the result is false.
pub(crate) fn is_composed(text: &str) -> bool
    ensures { IsTrue result → composed text.now ≡ text.now }
{
    let mut rest = text;
    while !rest.is_empty() {
        let run = first_run(rest);
        if is_nfc_quick(run.other.chars()) != IsNormalized::Yes {
            return false;
        }
        rest = run.later;
    }
    true
}
