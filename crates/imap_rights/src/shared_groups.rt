//! Groups that copies share.

ghost use Rattle.std.specs.Prelude.{◌≡◌, IfOk};

use crate::groups::Groups;
use std::alloc::{AllocError, Global};
use std::marker::Model;
use std::sync::Arc;

/// Groups that don't change any more. Contracts see the groups.
pub struct SharedGroups(Arc<Groups>);

// Not derived: a derived one is proved anew in each crate that lets go of one.
impl Drop for SharedGroups {
    fn drop(self) {
        let SharedGroups(_) = self;
    }
}

impl Model for SharedGroups {
    ghost use Rattle.std.specs.Arc.{arc_value};
    ghost use Rattle.imap_rights.specs.Groups.{Members, members_code};

    ghost Value = { Members };

    ghost coded = { members_code };

    ghost view = { λ g. arc_value g.0 };
}

impl SharedGroups {
    /// Moves `groups` to where copies can share them. Fails if memory runs out.
    pub fn new(alloc: Global, groups: Groups) -> Result<SharedGroups, AllocError>
        ensures { IfOk result (λ shared. shared ≡ groups) }
    {
        Ok(SharedGroups(Arc::new(alloc, groups)?))
    }

    /// The groups.
    pub fn groups(&self) -> &Groups
        ensures { result.now ≡ self.now }
    {
        &self.0
    }

    /// The same groups, without copying them.
    pub fn try_copy(&self) -> Result<SharedGroups, AllocError>
        ensures { IfOk result (λ copy. copy ≡ self.now) }
    {
        Ok(SharedGroups(Arc::try_clone(&self.0)?))
    }
}
