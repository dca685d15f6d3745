//! Laws of what is told.

ghost use Rattle.imap_mime.specs.Laws.{EachIsOneLine};

/// A client reads an envelope as text of one line, whatever the message holds.
pub fn each_is_one_line()
    ensures { EachIsOneLine }
{}
