//! Laws of modified UTF-7.

ghost use Rattle.imap_utf7.specs.Laws.{IsPrintable, PlainStays, ReadsWritten, TellsApart, WritesRead};

/// A text has one spelling, and this is the spelling of no other text.
pub fn spells_once()
    ensures reads { ReadsWritten }
    ensures writes { WritesRead }
    ensures apart { TellsApart }
{}

/// A spelling is printable ASCII. A text that is, and has no `&`, is its own.
pub fn is_ascii()
    ensures printable { IsPrintable }
    ensures stays { PlainStays }
{}
