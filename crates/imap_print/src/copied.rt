//! The UIDs of messages that were copied.

use crate::numbering::NumberSet;
use imap_values::{Same, TryCopy, copy_two};
use std::alloc::{AllocError, Global};

/// The UIDs of messages that were copied or moved (RFC 9051, section 7.1, of COPYUID).
#[derive(Drop)]
pub struct CopiedUids {
    /// The UIDVALIDITY of the target.
    pub validity: u32,
    /// The UIDs of the messages in the source.
    pub source: NumberSet,
    /// The UIDs of the copies, in the same order.
    pub target: NumberSet,
}

impl TryCopy for CopiedUids {
    fn try_copy(&self, alloc: Global) -> Result<CopiedUids, AllocError> {
        let (source, target) = copy_two(&self.source, &self.target, alloc)?;
        Ok(CopiedUids {
            validity: self.validity,
            source,
            target,
        })
    }
}

impl Same for CopiedUids {
    fn is_same(&self, other: &CopiedUids) -> bool {
        self.validity == other.validity
            && self.source.is_same(&other.source)
            && self.target.is_same(&other.target)
    }
}
