//! Logins: what a client is answered until it has given the user's name and secret.
//!
//! A [`Login`] takes the octets of a connection, cut into commands as those of a session are (`imap_lex`). It answers
//! CAPABILITY, NOOP and LOGOUT, LOGIN, and AUTHENTICATE PLAIN (RFC 9051, section 6.2; RFC 4616; RFC 4959), and ends
//! once the client has entered or the connection is to be closed. `specs/Login.antt` says what it answers. It knows no
//! mailboxes: what is left of the octets is a session's. What the server can do it tells in the words of a dialect
//! ([`Capabilities`]).
#![tactic(auto)]

mod asked;
mod capabilities;
mod credentials;
mod differences;
pub mod laws;
mod login;
mod outcome;
mod progress;
mod replies;
mod word;

pub use capabilities::Capabilities;
pub use credentials::Credentials;
pub use login::Login;
pub use progress::Stage;
pub use replies::{farewell, front_length, push_greeting, push_session_greeting};
