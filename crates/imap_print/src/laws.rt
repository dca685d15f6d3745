//! Laws of every line.

ghost use Rattle.imap_syntax.specs.Keywords.{AreKeywords};
ghost use Rattle.imap_print.specs.Lines.{EachIsOneLine, AllAreRead};
ghost use Rattle.imap_print.specs.Ranges.{RunsHaveTheNumbers, RunsAreFewest};
ghost use Rattle.imap_print.specs.ReadBack.{NamesAreReadBack, SetIsReadBack};

use crate::flag::FlagSet;
use crate::numbering::NumberSet;

/// A client that reads `{n}`, CRLF and n octets as a literal reads one line in the octets of a response, and
/// as many lines as there are responses in those of a list, if the names and other texts in them have neither
/// CR nor LF.
pub fn each_is_one_line()
    ensures one { EachIsOneLine }
    ensures all { AllAreRead }
{}

/// A set is printed as ranges that have just its numbers, in their order, and no fewer ranges have the same
/// numbers.
pub fn sets_are_shortest(set: &NumberSet)
    ensures numbers { RunsHaveTheNumbers set.now }
    ensures fewest { RunsAreFewest set.now }
{
    let _ = set.as_slice();
}

/// The keywords of a set of flags are in the order of their octets, each once and in lower case.
pub fn keywords_are_in_order(flags: &FlagSet)
    ensures { AreKeywords flags.now.keywords }
{
    let _ = flags.keywords.as_slice();
}

/// The octets of a name without NUL, CR and LF are read as that name.
pub fn names_are_read_back()
    ensures { NamesAreReadBack }
{}

/// The octets of a set are read as its ranges.
pub fn sets_are_read_back(set: &NumberSet)
    ensures { SetIsReadBack set.now }
{
    let _ = set.as_slice();
}
