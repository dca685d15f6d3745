//! Theorems on the definitions that the contracts cite. The functions do nothing.

ghost use Rattle.std.specs.Prelude.{◌≡◌, Some};
ghost use Rattle.imap_syntax.specs.Dates.{date_time_read};
ghost use Rattle.imap_syntax.specs.WrittenDates.{date_time_text};
ghost use Rattle.imap_text.specs.Sections.{HeaderAndText, HeadersAreShortest};
ghost use Rattle.imap_text.specs.Fields.{EachLineOnce};

use crate::InternalDate;
use imap_syntax::date_time_fits;

/// Header and text together are the message.
pub fn header_and_text()
    ensures { HeaderAndText }
{}

/// A header ends with the first CRLF at the start of the message or right after a CRLF. Without one it is the
/// whole message.
pub fn headers_are_shortest()
    ensures { HeadersAreShortest }
{}

/// Each line of a header is in just one of these: the fields of some names, the other fields, the empty line.
pub fn each_line_once()
    ensures { EachLineOnce }
{}

/// An internal date is read back from what is printed of it.
pub fn dates_are_read_back(date: &InternalDate)
    ensures { date_time_read (date_time_text date.now) ≡ Some date.now }
{
    // Hands on that the type keeps the ranges of dates.
    let _ = date_time_fits(date);
}
