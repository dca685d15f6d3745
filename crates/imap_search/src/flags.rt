//! Flags and days of a message (RFC 9051, section 6.4.4).

ghost use Rattle.std.specs.Prelude.{◌≡◌};
ghost use Rattle.std.specs.Str.{str_eq_ignore_ascii_case};
ghost use Rattle.imap_mailbox.specs.Lent.{row_shown};
ghost use Rattle.imap_search.specs.Finds as specs;
ghost use Rattle.imap_syntax.specs.DayNumbers.{day_number};

use imap_mailbox::Row;
use imap_query::SearchDate;
use imap_syntax::{Atom, Date, Flag, Keywords};

/// Whether the word is one of the keywords, in any ASCII case.
fn has_keyword(word: &[u8], keywords: &[Atom]) -> bool
    ensures { result ≡ specs.has_keyword word.now keywords.now }
{
    keywords.iter().any(
        |keyword: &Atom| -> bool
            ensures { result ≡ str_eq_ignore_ascii_case keyword.now word.entry.now }
        { keyword.as_slice().eq_ignore_ascii_case(word) },
    )
}

/// Whether the message has the flag, for `\Seen` as the user set it.
pub(crate) fn has_flag(flag: &Flag, row: &Row<'_>) -> bool
    ensures { result ≡ specs.has_flag flag.now (row_shown row.now) }
{
    match flag {
        Flag::Answered => row.flags.answered,
        Flag::Deleted => row.flags.deleted,
        Flag::Draft => row.flags.draft,
        Flag::Flagged => row.flags.flagged,
        Flag::Seen => row.seen,
        Flag::Other(_) => false,
        Flag::Keyword(word) => has_keyword(word.as_slice(), row.flags.keywords.as_slice()),
    }
}

/// Whether `is` agrees with `wanted`.
pub(crate) fn is_as(wanted: bool, is: bool) -> bool
    ensures { result ≡ specs.is_as wanted is }
{
    if wanted { is } else { !is }
}

/// Whether `day` stands in this relation to the day of the key.
pub(crate) fn is_dated(relation: SearchDate, day: Date, wanted: Date) -> bool
    ensures { result ≡ specs.is_dated relation (day_number day) (day_number wanted) }
{
    match relation {
        SearchDate::Before => day.is_before(wanted),
        SearchDate::On => !day.is_before(wanted) && !wanted.is_before(day),
        SearchDate::Since => !day.is_before(wanted),
    }
}
