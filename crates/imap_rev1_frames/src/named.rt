//! Commands that are named.

ghost use Rattle.std.specs.Prelude.{◌≡◌, option_copied};
ghost use Rattle.imap_rev1_frames.specs.Named.{after_tag, begins, is_fetch, is_plain_search, is_selecting, is_word};
ghost use Rattle.imap_rev1_frames.specs.Named.{named_until_rev2, named_command, named_in, named_by};
ghost use Rattle.imap_rev1_frames.specs.Named.{is_rewritten, has_items};

use imap_lex::{Frame, TagChar, leading};

/// A command that IMAP4rev1 has in another form.
#[derive(Clone, Copy)]
pub enum Named {
    /// RFC 3501, section 6.4.1.
    Check,
    /// RFC 3501, section 6.3.9.
    Lsub,
    /// SEARCH or UID SEARCH without RETURN (RFC 3501, section 6.4.4).
    Search,
    /// RFC 3501, section 6.3.10.
    Status,
    /// LIST, which may return what STATUS does (RFC 5819).
    List,
    /// FETCH or UID FETCH (RFC 3501, sections 6.4.5 and 6.4.8).
    Fetch,
    /// SELECT or EXAMINE (RFC 3501, sections 6.3.1 and 6.3.2).
    Select,
    /// Any other.
    Other,
}

impl Named {
    /// Whether the server sees another command in its place.
    pub(crate) fn is_rewritten(self) -> bool
        ensures { result ≡ is_rewritten self }
    {
        !matches!(self, Named::Select | Named::Other)
    }

    /// Whether items stand in it that may be told in another way.
    pub(crate) fn has_items(self) -> bool
        ensures { result ≡ has_items self }
    {
        matches!(self, Named::Status | Named::List | Named::Fetch)
    }
}

/// Returns what stands after the tag and a space; nothing if there is no space.
pub(crate) fn after_tag(octets: &[u8]) -> &[u8]
    ensures { result.now ≡ after_tag octets.now }
{
    match &octets[leading::<TagChar>(octets)..] {
        [b' ', rest @ ..] => rest,
        _ => &[],
    }
}

/// Whether the word stands at the front, in any ASCII case.
pub(crate) fn begins(octets: &[u8], word: &[u8]) -> bool
    ensures { result ≡ begins word.now octets.now }
{
    let len = octets.len().min(word.len());
    octets[..len].eq_ignore_ascii_case(word)
}

/// Whether the octets are the word, in any ASCII case.
pub(crate) fn is_word(word: &[u8], octets: &[u8]) -> bool
    ensures { result ≡ is_word word.now octets.now }
{
    octets.eq_ignore_ascii_case(word)
}

fn is_fetch(command: &[u8]) -> bool
    ensures { result ≡ is_fetch command.now }
{
    begins(command, b"FETCH ") || begins(command, b"UID FETCH ")
}

fn is_plain_search(command: &[u8]) -> bool
    ensures { result ≡ is_plain_search command.now }
{
    (begins(command, b"SEARCH ") && !begins(command, b"SEARCH RETURN ("))
        || (begins(command, b"UID SEARCH ") && !begins(command, b"UID SEARCH RETURN ("))
}

fn is_selecting(command: &[u8]) -> bool
    ensures { result ≡ is_selecting command.now }
{
    begins(command, b"SELECT ") || begins(command, b"EXAMINE ")
}

fn named_until_rev2(command: &[u8]) -> Named
    ensures { result ≡ named_until_rev2 command.now }
{
    if is_plain_search(command) {
        Named::Search
    } else if begins(command, b"STATUS ") {
        Named::Status
    } else if begins(command, b"LIST ") {
        Named::List
    } else if is_selecting(command) {
        Named::Select
    } else {
        Named::Other
    }
}

fn named_command(rev2: bool, command: &[u8]) -> Named
    ensures { result ≡ named_command rev2 command.now }
{
    if command.eq_ignore_ascii_case(b"CHECK\r\n") {
        Named::Check
    } else if begins(command, b"LSUB ") {
        Named::Lsub
    } else if is_fetch(command) {
        Named::Fetch
    } else if rev2 {
        Named::Other
    } else {
        named_until_rev2(command)
    }
}

/// Returns the command in the octets of a frame, in a session that has enabled IMAP4rev2 or not.
pub(crate) fn named_in(rev2: bool, octets: &[u8]) -> Named
    ensures { result ≡ named_in rev2 octets.now }
{
    named_command(rev2, after_tag(octets))
}

/// Returns the command in the frame.
pub fn named_by(rev2: bool, by: Option<&Frame>) -> Named
    ensures { result ≡ named_by rev2 (option_copied by.entry) }
{
    match by {
        Some(Frame::Whole(octets)) => named_in(rev2, octets.as_slice()),
        _ => Named::Other,
    }
}
