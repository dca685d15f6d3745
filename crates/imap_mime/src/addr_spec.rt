//! Local parts and domains (RFC 5322, section 3.4.1, `addr-spec`).

ghost use Rattle.std.specs.Prelude.{◌≡◌, OnOk};
ghost use Rattle.imap_mime.specs.Parts.{is_blank_spec, no_spec, spec_at, spec_with};

use crate::octet_string::OctetString;
use std::alloc::{AllocError, Global};

/// What stands before the last `@`, and what stands after it.
#[derive(Drop)]
pub struct AddrSpec {
    local: OctetString,
    domain: OctetString,
    has_domain: bool,
}

impl AddrSpec {
    /// No octets.
    pub fn new(alloc: Global) -> AddrSpec
        ensures { result ≡ no_spec }
    {
        AddrSpec {
            local: OctetString::new(alloc),
            domain: OctetString::new(alloc),
            has_domain: false,
        }
    }

    /// Appends an octet.
    pub fn push(&mut self, octet: u8) -> Result<(), AllocError>
        ensures { OnOk result (self.new ≡ spec_with octet self.old) }
    {
        if self.has_domain {
            self.domain.push(octet)
        } else {
            self.local.push(octet)
        }
    }

    /// Appends `@`.
    pub fn push_at(&mut self) -> Result<(), AllocError>
        ensures { OnOk result (self.new ≡ spec_at self.old) }
    {
        if self.has_domain {
            self.local.push(b'@')?;
            self.local.append(&mut self.domain)?;
        }
        self.has_domain = true;
        Ok(())
    }

    /// Whether there is neither a local part nor an `@`.
    pub fn is_blank(&self) -> bool
        ensures { result ≡ is_blank_spec self.now }
    {
        self.local.is_empty() && !self.has_domain
    }

    /// Returns the local part and the domain, and leaves no octets.
    pub fn take(&mut self) -> (OctetString, OctetString)
        ensures local { result.0 ≡ self.old.local }
        ensures domain { result.1 ≡ self.old.domain }
        ensures left { self.new ≡ no_spec }
    {
        self.has_domain = false;
        (self.local.take(), self.domain.take())
    }
}
