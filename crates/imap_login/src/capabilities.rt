//! What the server can do, in the words of a dialect.

ghost use Rattle.std.specs.Prelude.{◌≡◌};
ghost use Rattle.imap_print.specs.Printed.{capabilities};

use std::marker::Model;

/// The words that say what the server can do once a client has logged in, with a space between two of them (RFC 9051,
/// section 7.2.2).
#[derive(Drop)]
pub struct Capabilities {
    words: &'static str,
}

impl Model for Capabilities {
    ghost use Rattle.std.specs.Prelude.{ℕ, List};

    ghost Value = { List ℕ };

    ghost view = { λ c. c.words.now };
}

impl Capabilities {
    /// Returns the capabilities that these words say.
    pub fn new(words: &'static str) -> Capabilities
        ensures { result ≡ words.now }
    {
        Capabilities { words }
    }

    /// Returns those of the server's own dialect.
    pub fn standard() -> Capabilities
        ensures { result ≡ capabilities }
    {
        Capabilities::new("IMAP4rev2 ACL RIGHTS=texk CONDSTORE ENABLE IDLE QRESYNC")
    }

    /// Returns the words.
    pub(crate) fn as_bytes(&self) -> &[u8]
        ensures { result.now ≡ self.now }
    {
        self.words.as_bytes()
    }
}
