//! ENABLE UTF8=ACCEPT (RFC 6855, section 3).

ghost use Rattle.std.specs.Prelude.{◌≡◌, option_copied};
ghost use Rattle.imap_rev1_frames.specs.Enable.{asks_utf8, asks_utf8_in, has_utf8, is_utf8_word};

use crate::named::{after_tag, begins};
use imap_lex::Frame;

/// Whether the word stands at the front, after a space, and ends there.
fn is_utf8_word(octets: &[u8]) -> bool
    ensures { result ≡ is_utf8_word octets.now }
{
    begins(octets, b" UTF8=ACCEPT ") || begins(octets, b" UTF8=ACCEPT\r\n")
}

/// Whether the word stands among the octets.
fn has_utf8(octets: &[u8]) -> bool
    ensures { result ≡ has_utf8 octets.now }
{
    let mut rest = octets;
    while let Some((_, later)) = rest.split_first() {
        if is_utf8_word(rest) {
            return true;
        }
        rest = later;
    }
    false
}

fn asks_utf8_in(command: &[u8]) -> bool
    ensures { result ≡ asks_utf8_in command.now }
{
    begins(command, b"ENABLE ") && has_utf8(command)
}

/// Whether the frame is an ENABLE that names UTF8=ACCEPT.
pub fn asks_utf8(by: Option<&Frame>) -> bool
    ensures { result ≡ asks_utf8 (option_copied by.entry) }
{
    match by {
        Some(Frame::Whole(octets)) => asks_utf8_in(after_tag(octets.as_slice())),
        _ => false,
    }
}
