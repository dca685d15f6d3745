//! Octets that are gathered.

ghost use Rattle.std.specs.Prelude.{◌≡◌, ◌==◌, ◌++◌, ◌∷◌, [], length, IfOk, OnOk};

use std::alloc::{AllocError, Global};
use std::marker::Model;
use std::mem;

/// Octets of any number and any value, to which more can be appended.
#[derive(Drop)]
pub struct OctetString {
    alloc: Global,
    octets: Vec<u8>,
}

impl Model for OctetString {
    ghost use Rattle.std.specs.Prelude.{ℕ, List};

    ghost Value = { List ℕ };

    ghost view = { λ s. s.octets.items };
}

impl OctetString {
    /// No octets.
    pub fn new(alloc: Global) -> OctetString
        ensures { result ≡ [] }
    {
        OctetString {
            alloc,
            octets: Vec::new(alloc),
        }
    }

    /// Returns a copy of a slice.
    pub fn from_slice(alloc: Global, octets: &[u8]) -> Result<OctetString, AllocError>
        ensures { IfOk result (λ copy. copy ≡ octets.now) }
    {
        Ok(OctetString {
            alloc,
            octets: Vec::from_slice(alloc, octets)?,
        })
    }

    /// Appends an octet.
    pub fn push(&mut self, octet: u8) -> Result<(), AllocError>
        ensures { OnOk result (self.new ≡ self.old ++ octet ∷ []) }
    {
        self.octets.push(octet)?;
        Ok(())
    }

    /// Appends the octets of `other`, which has none then.
    pub fn append(&mut self, other: &mut OctetString) -> Result<(), AllocError>
        ensures all { OnOk result (self.new ≡ self.old ++ other.old) }
        ensures left { OnOk result (other.new ≡ []) }
    {
        self.octets.append(&mut other.octets)
    }

    /// Returns the octets.
    pub fn as_slice(&self) -> &[u8]
        ensures { result.now ≡ self.now }
    {
        self.octets.as_slice()
    }

    /// Whether there are no octets.
    pub fn is_empty(&self) -> bool
        ensures { result ≡ (length self.now == 0) }
    {
        self.octets.is_empty()
    }

    /// Returns the octets and leaves none.
    pub fn take(&mut self) -> OctetString
        ensures taken { result ≡ self.old }
        ensures left { self.new ≡ [] }
    {
        let octets = mem::replace(&mut self.octets, Vec::new(self.alloc));
        OctetString {
            alloc: self.alloc,
            octets,
        }
    }
}
