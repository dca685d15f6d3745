//! What a command of a client that logs in comes to, if it doesn't enter by it.

ghost use Rattle.std.specs.Prelude.{◌≡◌};
ghost use Rattle.imap_login.specs.Replies.{outcome_text};

/// What a command comes to.
#[derive(Clone, Copy)]
pub(crate) enum Outcome {
    Done,
    /// The name or the secret is wrong (RFC 5530).
    AuthenticationFailed,
    /// The mechanism isn't there.
    Cannot,
    /// The response of AUTHENTICATE isn't base64.
    Malformed,
    /// Nothing else is answered before the login.
    WrongState,
}

impl Outcome {
    /// Returns the line that ends the answer, without its tag.
    pub(crate) fn text(self) -> &'static str
        ensures { result.now ≡ outcome_text self }
    {
        match self {
            Outcome::Done => "OK done",
            Outcome::AuthenticationFailed => "NO [AUTHENTICATIONFAILED] name or secret is wrong",
            Outcome::Cannot => "NO [CANNOT] not possible",
            Outcome::Malformed => "BAD malformed command",
            Outcome::WrongState => "BAD not in this state",
        }
    }
}
