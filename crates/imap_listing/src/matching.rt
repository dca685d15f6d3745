//! The names that patterns match.
ghost use Rattle.std.specs.Prelude.{◌≡◌, ◌++◌, filter, OnOk};
ghost use Rattle.imap_listing.specs.Matching.{is_level_match, is_matched, is_matched_level};
ghost use Rattle.imap_names.specs.MatchTest.{is_match};

use crate::shown_name::ShownRef;
use imap_names::Pattern;
use std::alloc::AllocError;

fn is_level_match(pattern: &Pattern, name: &ShownRef<'_>) -> bool
    ensures { result ≡ is_level_match pattern.now name.now }
{
    pattern.ends_in_percent() && pattern.matches(name.as_str())
}

/// Whether one of the patterns matches the name.
fn is_matched(patterns: &[Pattern], name: &ShownRef<'_>) -> bool
    ensures { result ≡ is_matched patterns.now name.now }
{
    patterns.iter().any(
        |pattern: &Pattern| -> bool
            ensures { result ≡ is_match pattern.now name.entry.now }
        { pattern.matches(name.as_str()) },
    )
}

/// Whether one of the patterns that end in `%` matches the name.
fn is_matched_level(patterns: &[Pattern], name: &ShownRef<'_>) -> bool
    ensures { result ≡ is_matched_level patterns.now name.now }
{
    patterns.iter().any(
        |pattern: &Pattern| -> bool
            ensures { result ≡ is_level_match pattern.now name.entry.now }
        { is_level_match(pattern, name) },
    )
}

/// Appends the names that one of the patterns matches.
pub(crate) fn push_matched<'a>(
    listed: &mut Vec<ShownRef<'a>>,
    names: &[ShownRef<'a>],
    patterns: &[Pattern],
) -> Result<(), AllocError>
    ensures { OnOk result
        (listed.new.items ≡ listed.old.items ++ filter (is_matched patterns.now) names.now) }
{
    for name in names {
        if is_matched(patterns, name) {
            listed.push(ShownRef::new(name.as_str()))?;
        }
    }
    Ok(())
}

/// Appends the levels that one of the patterns that end in `%` matches.
pub(crate) fn push_matched_levels<'a>(
    listed: &mut Vec<ShownRef<'a>>,
    levels: &[ShownRef<'a>],
    patterns: &[Pattern],
) -> Result<(), AllocError>
    ensures { OnOk result
        (listed.new.items ≡ listed.old.items ++ filter (is_matched_level patterns.now) levels.now) }
{
    for level in levels {
        if is_matched_level(patterns, level) {
            listed.push(ShownRef::new(level.as_str()))?;
        }
    }
    Ok(())
}
