//! The answer about the messages that were found (RFC 9051, section 7.3.4; RFC 7162, section 3.1.5).

ghost use Rattle.std.specs.Prelude.{◌≡◌, ◌≤◌, length, option_copied, IfOk, if◌then◌else◌, None};
ghost use Rattle.std.specs.List.{list_all, list_any};
ghost use Rattle.imap_print.specs.Sets.{set_of};
ghost use Rattle.imap_search.specs.Results as specs;

use imap_print::{NumberSet, SearchResults};
use imap_query::SearchReturn;
use std::alloc::{AllocError, Global};

/// A message that was found.
#[derive(Clone, Copy, Drop)]
pub(crate) struct FoundMessage {
    /// Its number, in UID SEARCH its UID.
    pub(crate) number: u32,
    pub(crate) mod_seq: u64,
}

fn wants_min(returns: &[SearchReturn]) -> bool
    ensures { result ≡ list_any specs.is_min returns.now }
{
    returns.iter().any(|r| matches!(r, SearchReturn::Min))
}

fn wants_max(returns: &[SearchReturn]) -> bool
    ensures { result ≡ list_any specs.is_max returns.now }
{
    returns.iter().any(|r| matches!(r, SearchReturn::Max))
}

fn wants_count(returns: &[SearchReturn]) -> bool
    ensures { result ≡ list_any specs.is_count returns.now }
{
    returns.iter().any(|r| matches!(r, SearchReturn::Count))
}

fn names_all(returns: &[SearchReturn]) -> bool
    ensures { result ≡ list_any specs.is_all returns.now }
{
    returns.iter().any(|r| matches!(r, SearchReturn::All))
}

fn wants_all(returns: &[SearchReturn]) -> bool
    ensures { result ≡ specs.wants_all returns.now }
{
    returns.is_empty() || names_all(returns)
}

fn are_ends(returns: &[SearchReturn]) -> bool
    ensures { result ≡ list_all specs.is_end returns.now }
{
    returns
        .iter()
        .all(|r| matches!(r, SearchReturn::Min | SearchReturn::Max))
}

/// Whether MIN, MAX or both are wanted, and nothing else.
fn wants_ends(returns: &[SearchReturn]) -> bool
    ensures { result ≡ specs.wants_ends returns.now }
{
    !returns.is_empty() && are_ends(returns)
}

fn number_in(message: Option<&FoundMessage>) -> Option<u32>
    ensures { result ≡ specs.number_in (option_copied message.entry) }
{
    match message {
        Some(message) => Some(message.number),
        None => None,
    }
}

fn mod_seq_in(message: Option<&FoundMessage>) -> u64
    ensures { result ≡ specs.mod_seq_in (option_copied message.entry) }
{
    match message {
        Some(message) => message.mod_seq,
        None => 0,
    }
}

/// The higher mod-sequence of the first message, if MIN is wanted, and of the last one, if MAX is.
fn highest_end(returns: &[SearchReturn], found: &[FoundMessage]) -> u64
    ensures { result ≡ specs.highest_end returns.now found.now }
{
    let first = if wants_min(returns) {
        mod_seq_in(found.first())
    } else {
        0
    };
    let last = if wants_max(returns) {
        mod_seq_in(found.last())
    } else {
        0
    };
    first.max(last)
}

fn highest_of(found: &[FoundMessage]) -> u64
    ensures { result ≡ specs.highest_of found.now }
{
    let mut highest = 0;
    for message in found {
        highest = message.mod_seq.max(highest);
    }
    highest
}

fn mod_seq_of(returns: &[SearchReturn], found: &[FoundMessage]) -> Option<u64>
    ensures { result ≡ specs.mod_seq_of returns.now found.now }
{
    if found.is_empty() {
        return None;
    }
    if wants_ends(returns) {
        Some(highest_end(returns, found))
    } else {
        Some(highest_of(found))
    }
}

fn numbers_of(alloc: Global, found: &[FoundMessage]) -> Result<Vec<u32>, AllocError>
    ensures { IfOk result (λ numbers. numbers.items ≡ specs.numbers_of found.now) }
{
    let mut numbers = Vec::with_capacity(alloc, found.len())?;
    for message in found {
        numbers.push(message.number)?;
    }
    Ok(numbers)
}

fn all_of(
    alloc: Global,
    returns: &[SearchReturn],
    found: &[FoundMessage],
) -> Result<Option<NumberSet>, AllocError>
    ensures { let all = set_of (specs.numbers_of found.now) in
        IfOk result (λ given. given ≡ (if specs.wants_all returns.now then all else None)) }
{
    if wants_all(returns) {
        Ok(NumberSet::from_rising(numbers_of(alloc, found)?))
    } else {
        Ok(None)
    }
}

/// Returns what these options ask about the messages that were found, at most `most`. Gives the mod-sequence if
/// `uses_mod_seq`.
pub(crate) fn results_of(
    alloc: Global,
    returns: &[SearchReturn],
    uses_mod_seq: bool,
    found: &[FoundMessage],
    most: u32,
) -> Result<SearchResults, AllocError>
    requires { length found.now ≤ most }
    ensures { IfOk result (λ results. results ≡ specs.results_of returns.now uses_mod_seq found.now) }
{
    let all = all_of(alloc, returns, found)?;
    Ok(SearchResults {
        min: if wants_min(returns) {
            number_in(found.first())
        } else {
            None
        },
        max: if wants_max(returns) {
            number_in(found.last())
        } else {
            None
        },
        all,
        count: if wants_count(returns) {
            Some(found.len() as u32)
        } else {
            None
        },
        mod_seq: if uses_mod_seq {
            mod_seq_of(returns, found)
        } else {
            None
        },
    })
}
