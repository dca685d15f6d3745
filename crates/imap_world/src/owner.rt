//! The access control list of a mailbox that is its owner's alone.

ghost use Rattle.std.specs.Prelude.{◌≡◌, IfOk};
ghost use Rattle.imap_rights.specs.Acl.{owner_acl};

use imap_names::UserName;
use imap_rights::{Acl, Identifier, IdentifierError};
use std::alloc::{AllocError, Global};

/// The list by which the owner alone has rights, and all of them.
pub(crate) fn owner_acl(alloc: Global, owner: &UserName) -> Result<Acl, AllocError>
    ensures { IfOk result (λ acl. acl ≡ owner_acl owner.now) }
{
    Acl::of_owner(alloc, identifier_of(alloc, owner)?)
}

/// The identifier of the user's own entry in an access control list.
fn identifier_of(alloc: Global, user: &UserName) -> Result<Identifier, AllocError>
    ensures { IfOk result (λ identifier. identifier ≡ user.now) }
{
    match Identifier::read(alloc, user.as_str().as_bytes()) {
        Ok(identifier) => Ok(identifier),
        Err(IdentifierError::Memory) => Err(AllocError),
        // Each user name is an identifier.
        Err(IdentifierError::Invalid) => unreachable!(),
    }
}
