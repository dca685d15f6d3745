//! Lines (RFC 5322, section 2.1).

ghost use Rattle.std.specs.Prelude.{◌≡◌, count_by};
ghost use Rattle.imap_structure.specs.Parts.{is_line_feed, without_end};

/// Returns the octets without the CRLF at their end.
pub(crate) fn without_end(octets: &[u8]) -> &[u8]
    ensures { result.now ≡ without_end octets.now }
{
    if octets.ends_with(b"\r\n") {
        &octets[..octets.len() - 2]
    } else {
        octets
    }
}

fn is_line_feed(octet: u8) -> bool
    ensures { result ≡ is_line_feed octet }
{
    octet == b'\n'
}

/// Returns the number of lines that end.
pub(crate) fn line_count(octets: &[u8]) -> u64
    ensures { result ≡ count_by is_line_feed octets.now }
{
    let mut count: usize = 0;
    for octet in octets {
        if is_line_feed(*octet) {
            count += 1;
        }
    }
    count as u64
}
