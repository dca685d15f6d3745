//! Shared octets.

ghost use Rattle.std.specs.Prelude.{◌≡◌, ◌≤◌, length, slice_range, IfOk, IfErr};

use imap_values::{Same, TryCopy};
use std::alloc::{AllocError, AllocFailed, Global};
use std::marker::Model;
use std::sync::Arc;

/// Octets of any number and any value, as in a string (RFC 9051, section 4.3).
///
/// A copy or a part shares them.
pub struct Octets {
    whole: Arc<Vec<u8>>,
    start: usize,
    end: usize,
}

// Not derived: a derived one is proved anew in each crate that lets go of one.
impl Drop for Octets {
    fn drop(self) {
        let Octets {
            whole: _,
            start: _,
            end: _,
        } = self;
    }
}

impl Model for Octets {
    ghost use Rattle.std.specs.Arc.{arc_value};
    ghost use Rattle.std.specs.Prelude.{ℕ, List, ◌≤◌, length, slice_range};

    ghost Value = { List ℕ };

    ghost view = { λ o. slice_range (arc_value o.whole).items o.start o.end };

    ghost invariant = { λ o. (o.start ≤ o.end) × (o.end ≤ length (arc_value o.whole).items) };
}

impl Octets {
    /// Returns the octets of a list, without copying them.
    pub fn from_vec(octets: Vec<u8>) -> Result<Octets, AllocError>
        ensures { IfOk result (λ made. made ≡ octets.items) }
    {
        Ok(Octets::try_from_vec(octets)?)
    }

    /// As `from_vec`, but the error returns the octets.
    pub(crate) fn try_from_vec(octets: Vec<u8>) -> Result<Octets, AllocFailed<Vec<u8>>>
        ensures ok { IfOk result (λ made. made ≡ octets.items) }
        ensures err { IfErr result (λ failed. failed.value.items ≡ octets.items) }
    {
        let end = octets.len();
        let whole = Arc::new(*octets.allocator(), octets)?;
        Ok(Octets {
            whole,
            start: 0,
            end,
        })
    }

    /// Returns a copy of a slice.
    pub fn from_slice(alloc: Global, octets: &[u8]) -> Result<Octets, AllocError>
        ensures { IfOk result (λ copy. copy ≡ octets.now) }
    {
        Octets::from_vec(Vec::from_slice(alloc, octets)?)
    }

    /// Returns the octets themselves.
    pub fn as_slice(&self) -> &[u8]
        ensures { result.now ≡ self.now }
    {
        &self.whole.as_slice()[self.start..self.end]
    }

    /// Returns the octets from `start` up to `end`, without copying them.
    pub fn slice(&self, start: usize, end: usize) -> Result<Octets, AllocError>
        requires order { start ≤ end }
        requires within { end ≤ length self.now }
        ensures { IfOk result (λ part. part ≡ slice_range self.now start end) }
    {
        let whole = Arc::try_clone(&self.whole)?;
        Ok(Octets {
            whole,
            start: self.start + start,
            end: self.start + end,
        })
    }

    /// Returns the same octets, without copying them.
    pub fn try_copy(&self) -> Result<Octets, AllocError>
        ensures { IfOk result (λ copy. copy ≡ self.now) }
    {
        let whole = Arc::try_clone(&self.whole)?;
        Ok(Octets {
            whole,
            start: self.start,
            end: self.end,
        })
    }

    /// Brings the count that a copy raises into the processor's cache. It changes nothing.
    ///
    /// Before many copies: such reads overlap, while each raise waits for the one before.
    pub fn prefetch(&self) {
        Arc::strong_count(&self.whole);
    }
}

impl TryCopy for Octets {
    /// Returns the same octets, without copying them.
    fn try_copy(&self, _alloc: Global) -> Result<Octets, AllocError> {
        self.try_copy()
    }
}

impl Same for Octets {
    fn is_same(&self, other: &Octets) -> bool {
        self.as_slice() == other.as_slice()
    }
}
