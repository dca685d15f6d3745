//! What a user's clients log in with.

ghost use Rattle.std.specs.Prelude.{◌≡◌, [], ◌++◌, IfOk};
ghost use Rattle.imap_login.specs.Credentials.{are_right, is_right_message, known_by, plain_message};

use crate::differences::are_same;
use std::alloc::{AllocError, Global};
use std::marker::Model;

/// A user's name, and the secret that only the user knows.
#[derive(Drop)]
pub struct Credentials {
    name: Vec<u8>,
    password: Vec<u8>,
    /// The message of PLAIN that names the user once (RFC 4616, section 2).
    message: Vec<u8>,
    /// The one that names the user twice.
    acting_message: Vec<u8>,
}

impl Model for Credentials {
    ghost use Rattle.std.specs.Prelude.{◌≡◌, []};
    ghost use Rattle.imap_login.specs.Credentials.{Known, known_by, plain_message};

    ghost Value = { Known };

    ghost view = { λ c. known_by c.name.items c.password.items };

    ghost invariant = { λ c. let known = known_by c.name.items c.password.items in
        (c.message.items ≡ plain_message [] known)
        × (c.acting_message.items ≡ plain_message c.name.items known) };
}

impl Credentials {
    /// Returns the credentials of the user of this name.
    pub fn new(alloc: Global, name: &[u8], password: &[u8]) -> Result<Credentials, AllocError>
        ensures { IfOk result (λ made. made ≡ known_by name.now password.now) }
    {
        let message = plain_message(alloc, b"", name, password)?;
        let acting_message = plain_message(alloc, name, name, password)?;
        Ok(Credentials {
            name: Vec::from_slice(alloc, name)?,
            password: Vec::from_slice(alloc, password)?,
            message,
            acting_message,
        })
    }

    /// Whether these are the name and the secret.
    pub(crate) fn are_right(&self, name: &[u8], password: &[u8]) -> bool
        ensures { result ≡ are_right self.now name.now password.now }
    {
        let same_name = are_same(&self.name, name);
        let same_password = are_same(&self.password, password);
        same_name && same_password
    }

    /// Whether this message of PLAIN has the name and the secret, and lets the user act as the user.
    pub(crate) fn is_right_message(&self, message: &[u8]) -> bool
        ensures { result ≡ is_right_message self.now message.now }
    {
        let same = are_same(&self.message, message);
        let same_acting = are_same(&self.acting_message, message);
        same || same_acting
    }
}

/// Returns a message of PLAIN, by which a user acts as `authorized`.
fn plain_message(
    alloc: Global,
    authorized: &[u8],
    name: &[u8],
    password: &[u8],
) -> Result<Vec<u8>, AllocError>
    ensures { IfOk result (λ made.
        made.items ≡ plain_message authorized.now (known_by name.now password.now)) }
{
    let mut message = Vec::from_slice(alloc, authorized)?;
    message.push(0)?;
    message.extend_from_slice(name)?;
    message.push(0)?;
    message.extend_from_slice(password)?;
    Ok(message)
}
