//! The text that SEARCH looks for (RFC 9051, section 6.4.4).

ghost use Rattle.std.specs.Prelude.{◌≡◌, ◌↔◌, IfOk, IsTrue, IsAscii};
ghost use Rattle.imap_text.specs.Folds.{fold, IsWithin};

use crate::composing::is_composed;
use crate::folding::fold_runs;
use bstr::{ByteSlice, Finder};
use std::alloc::{AllocError, Global};
use std::marker::Model;
use unicode_normalization::to_nfc;

/// A text as SEARCH compares it. In contracts it is its UTF-8.
#[derive(Drop)]
pub struct Folded(Vec<u8>);

impl Model for Folded {
    ghost use Rattle.std.specs.Prelude.{ℕ, List};

    ghost Value = { List ℕ };

    ghost view = { λ f. f.0.items };
}

impl Folded {
    /// Reads `octets` as UTF-8, with U+FFFD for each maximal part that is none, brings them to NFC and folds
    /// them by default case folding.
    pub fn new(alloc: Global, octets: &[u8]) -> Result<Folded, AllocError>
        ensures { IfOk result (λ folded. folded ≡ fold octets.now) }
    {
        if octets.is_ascii() {
            return Ok(Folded(fold_ascii(alloc, octets)?));
        }
        Ok(Folded(fold_any(alloc, octets)?))
    }

    /// Whether `wanted` stands in this text. Takes time in proportion to both.
    pub fn contains(&self, wanted: &Folded) -> bool
        ensures { IsTrue result ↔ IsWithin wanted.now self.now }
    {
        self.0.as_slice().find(wanted.0.as_slice()).is_some()
    }
}

/// Returns the fold of octets in any script.
fn fold_any(alloc: Global, octets: &[u8]) -> Result<Vec<u8>, AllocError>
    ensures { IfOk result (λ text. text.items ≡ fold octets.now) }
{
    let text = String::from_utf8_lossy(alloc, octets)?;
    if is_composed(text.as_str()) {
        return fold_runs(alloc, text.as_str());
    }
    let composed = to_nfc(alloc, text.as_str())?;
    fold_runs(alloc, composed.as_str())
}

/// Returns the fold of ASCII, which is in NFC and folds octet by octet. It takes a fiftieth of the time of
/// [`fold_any`].
fn fold_ascii(alloc: Global, octets: &[u8]) -> Result<Vec<u8>, AllocError>
    requires { IsAscii octets.now }
    ensures { IfOk result (λ text. text.items ≡ fold octets.now) }
{
    let mut text = Vec::with_capacity(alloc, octets.len())?;
    text.extend_from_slice(octets)?;
    text.as_mut_slice().make_ascii_lowercase();
    Ok(text)
}

/// A text that is looked for, ready to be looked for in several texts. In contracts it is the UTF-8 of its
/// fold.
#[derive(Drop)]
pub struct Needle(Finder<'static>);

impl Model for Needle {
    ghost use Rattle.std.specs.Prelude.{ℕ, List};

    ghost Value = { List ℕ };

    ghost view = { λ n. n.0 };
}

impl Needle {
    /// Folds `octets` as [`Folded::new`] does.
    pub fn new(alloc: Global, octets: &[u8]) -> Result<Needle, AllocError>
        ensures { IfOk result (λ needle. needle ≡ fold octets.now) }
    {
        let folded = Folded::new(alloc, octets)?;
        Ok(Needle(Finder::new(folded.0.as_slice()).into_owned(alloc)?))
    }

    /// Whether this text stands in `text`. Takes time in proportion to both.
    pub fn is_in(&self, text: &Folded) -> bool
        ensures { IsTrue result ↔ IsWithin self.now text.now }
    {
        self.0.find(text.0.as_slice()).is_some()
    }
}

/// Whether the fold of `wanted` stands in the fold of `octets`. To look for several texts in one message,
/// fold it once.
pub fn contains_fold(alloc: Global, octets: &[u8], wanted: &[u8]) -> Result<bool, AllocError>
    ensures { IfOk result (λ found. IsTrue found ↔ IsWithin (fold wanted.now) (fold octets.now)) }
{
    let text = Folded::new(alloc, octets)?;
    let wanted = Folded::new(alloc, wanted)?;
    Ok(text.contains(&wanted))
}
