//! The members of groups that a script's head names.

use crate::line::LineError;
use imap_names::UserName;
use imap_rights::Groups;
use imap_values::beside;
use std::alloc::{AllocError, Global};

/// A user who is in a group. The names of groups have the rules of users' names.
#[derive(Drop)]
struct Member {
    group: UserName,
    user: UserName,
}

/// The members of groups, in the order of their lines. One may be there twice.
#[derive(Drop)]
pub(crate) struct Members(Vec<Member>);

impl Members {
    pub(crate) fn new(alloc: Global) -> Members {
        Members(Vec::new(alloc))
    }

    pub(crate) fn add(&mut self, group: UserName, user: UserName) -> Result<(), LineError> {
        self.0.push(Member { group, user })?;
        Ok(())
    }

    /// The groups that these are the members of.
    pub(crate) fn groups(&self, alloc: Global) -> Result<Groups, AllocError> {
        let mut groups = Groups::new(alloc);
        let added = self.add_to(alloc, &mut groups);
        let (_, groups) = beside(added, groups)?;
        Ok(groups)
    }

    /// Puts the members into their groups.
    fn add_to(&self, alloc: Global, groups: &mut Groups) -> Result<(), AllocError> {
        for member in self.0.as_slice() {
            groups.add(alloc, member.group.as_str(), &member.user)?;
        }
        Ok(())
    }
}
