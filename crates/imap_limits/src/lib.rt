//! The limits of a host, as scripts and command lines give them.
#![tactic(auto)]

ghost use Rattle.std.specs.Prelude.{◌≤◌, IfSome};

use imap_world::Limits;

/// The greatest `max_messages`.
const MAX_MESSAGES: u64 = 1_000_000;

/// The greatest `max_octets`.
const MAX_OCTETS: u64 = 1_073_741_824;

/// The limits if none are given.
pub const DEFAULT_LIMITS: Limits = Limits {
    max_messages: 100_000,
    max_octets: 33_554_432,
};

/// Reads how many messages a mailbox may hold: a decimal number from 1 to 1,000,000.
pub fn read_max_messages(text: &str) -> Option<u64>
    ensures { IfSome result (λ n. (1 ≤ n) × (n ≤ 1000000)) }
{
    read_number(text, 1, MAX_MESSAGES)
}

/// Reads how many octets a message may have: a decimal number from 1 to 1,073,741,824.
pub fn read_max_octets(text: &str) -> Option<u64>
    ensures { IfSome result (λ n. (1 ≤ n) × (n ≤ 1073741824)) }
{
    read_number(text, 1, MAX_OCTETS)
}

/// Reads a decimal number from `least` to `most`. Leading zeros are allowed.
pub fn read_number(text: &str, least: u64, most: u64) -> Option<u64>
    ensures { IfSome result (λ n. (least ≤ n) × (n ≤ most)) }
{
    if !text.bytes().all(|octet| octet.is_ascii_digit()) {
        return None;
    }
    let number = text.parse::<u64>().ok()?;
    if least <= number && number <= most {
        Some(number)
    } else {
        None
    }
}
