//! The entries of an access control list, as they are printed.

use imap_lex::Octets;
use imap_rights::Rights;
use imap_values::{Same, TryCopy};
use std::alloc::{AllocError, Global};

/// An identifier and its rights (RFC 4314, section 3.6).
#[derive(Drop)]
pub struct AclEntry {
    pub identifier: Octets,
    pub rights: Rights,
}

impl TryCopy for AclEntry {
    fn try_copy(&self, _alloc: Global) -> Result<AclEntry, AllocError> {
        Ok(AclEntry {
            identifier: self.identifier.try_copy()?,
            rights: self.rights,
        })
    }
}

impl Same for AclEntry {
    fn is_same(&self, other: &AclEntry) -> bool {
        self.identifier.is_same(&other.identifier) && self.rights == other.rights
    }
}
