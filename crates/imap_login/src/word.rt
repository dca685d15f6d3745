//! The first words of the commands of a client that has not logged in.

use imap_lex::AstringChar;
use imap_syntax::Keyword;

/// The first word of a command.
#[derive(Clone, Copy)]
pub(crate) enum Word {
    Authenticate,
    Capability,
    Login,
    Logout,
    Noop,
}

pub(crate) const WORDS: [Word; 5] = [
    Word::Authenticate,
    Word::Capability,
    Word::Login,
    Word::Logout,
    Word::Noop,
];

impl Keyword for Word {
    ghost use Rattle.imap_login.specs.Asked.{word_name};
    ghost use Rattle.imap_login.specs.declared.word.TheConstants.{WORDS};

    type Class = AstringChar;

    ghost name_of = { word_name };

    ghost table = { WORDS };

    fn name(self) -> &'static [u8] {
        match self {
            Word::Authenticate => b"AUTHENTICATE",
            Word::Capability => b"CAPABILITY",
            Word::Login => b"LOGIN",
            Word::Logout => b"LOGOUT",
            Word::Noop => b"NOOP",
        }
    }

    fn all() -> &'static [Word] {
        &WORDS
    }
}
