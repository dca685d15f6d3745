//! Runs of a text: ASCII, and other characters.

ghost use Rattle.std.specs.Prelude.{◌≤◌, length, take, IsAscii};
ghost use Rattle.imap_text.specs.Runs.{FollowsAscii, IsBeforeAscii, IsOtherLength, IsRun};

/// How many octets are tested at once.
const BLOCK: usize = 32;

/// The front of a text.
#[derive(Clone, Copy)]
pub(crate) struct Run<'a> {
    /// ASCII, which may be empty.
    pub(crate) ascii: &'a str,
    /// What follows it, up to the next character of ASCII.
    pub(crate) other: &'a str,
    /// What follows both.
    pub(crate) later: &'a str,
}

/// Returns the ASCII at the front of the text, and what follows it up to the next character of ASCII. One of
/// them isn't empty, if the text isn't.
pub(crate) fn first_run(text: &str) -> Run<'_>
    ensures { IsRun text.now result.ascii.now result.other.now result.later.now }
{
    let (ascii, rest) = text.split_at(ascii_length(text.as_bytes()));
    let (other, later) = rest.split_at(other_length(rest.as_bytes()));
    Run {
        ascii,
        other,
        later,
    }
}

/// Returns how many octets of ASCII are at the front.
fn ascii_length(octets: &[u8]) -> usize
    ensures within { result ≤ length octets.now }
    ensures ascii { IsAscii (take result octets.now) }
{
    let rest = after_blocks(octets);
    let before = octets.len() - rest.len();
    before + short_ascii_length(rest)
}

/// Returns what follows the blocks of ASCII at the front.
fn after_blocks(octets: &[u8]) -> &[u8]
    ensures { FollowsAscii octets.now result.now }
{
    let mut rest = octets;
    while let Some((block, later)) = rest.split_at_checked(BLOCK) {
        if !block.is_ascii() {
            return rest;
        }
        rest = later;
    }
    rest
}

/// Returns how many octets of ASCII are at the front, looking at each.
fn short_ascii_length(octets: &[u8]) -> usize
    ensures within { result ≤ length octets.now }
    ensures ascii { IsAscii (take result octets.now) }
{
    match octets.iter().position(|octet| *octet >= 128) {
        Some(at) => at,
        None => octets.len(),
    }
}

/// Returns where the first octet of ASCII stands after the first octet.
fn other_length(octets: &[u8]) -> usize
    ensures { IsOtherLength octets.now result }
{
    match octets.split_first() {
        Some((_, others)) => 1 + before_ascii(others),
        None => 0,
    }
}

/// Returns where the first octet of ASCII stands.
fn before_ascii(octets: &[u8]) -> usize
    ensures { IsBeforeAscii octets.now result }
{
    match octets.iter().position(|octet| *octet < 128) {
        Some(at) => at,
        None => octets.len(),
    }
}
