//! Texts, compared in a time that says nothing of where they differ.

ghost use Rattle.std.specs.Prelude.{◌≡◌, ◌≤◌, ◌+◌, ℕ, List, ◌∷◌, length};
ghost use Rattle.imap_login.specs.Differences.{are_same, differences};

/// Returns at how many places the texts differ: those that one of them lacks count. It looks at each octet of `given`,
/// whatever it has found.
fn differences(wanted: &[u8], given: &[u8]) -> usize
    ensures { result ≡ differences wanted.now given.now }
{
    let mut count = 0;
    let mut left = wanted;
    for octet in given {
        let (more, rest) = compare(left, *octet);
        count += more;
        left = rest;
    }
    count + left.len()
}

/// Returns whether `octet` differs from the first octet that is wanted, as 1 or 0, and the octets that are wanted then.
fn compare(wanted: &[u8], octet: u8) -> (usize, &[u8])
    ensures count { (given : List ℕ) →
        result.0 + differences result.1.now given ≡ differences wanted.now (octet ∷ given) }
    ensures less { (result.0 ≤ 1) × (length result.1.now ≤ length wanted.now) }
{
    match wanted {
        [first, rest @ ..] => (usize::from(*first != octet), rest),
        [] => (1, wanted),
    }
}

/// Whether the texts are the same.
pub(crate) fn are_same(wanted: &[u8], given: &[u8]) -> bool
    ensures { result ≡ are_same wanted.now given.now }
{
    differences(wanted, given) == 0
}
