//! The identifier of a command.

ghost use Rattle.std.specs.Prelude.{◌≡◌, IfOk};
ghost use Rattle.imap_rights.specs.Identifier.{identifier_read};

use imap_lex::Octets;
use imap_rights::{Identifier, IdentifierError};
use std::alloc::{AllocError, Global};

/// The identifier that the octets spell, if they spell one (RFC 4314, section 2).
pub(crate) fn read_identifier(
    alloc: Global,
    octets: &Octets,
) -> Result<Option<Identifier>, AllocError>
    ensures { IfOk result (λ identifier. identifier ≡ identifier_read octets.now) }
{
    match Identifier::read(alloc, octets.as_slice()) {
        Ok(identifier) => Ok(Some(identifier)),
        Err(IdentifierError::Invalid) => Ok(None),
        Err(IdentifierError::Memory) => Err(AllocError),
    }
}
