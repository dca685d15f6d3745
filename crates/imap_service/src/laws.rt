//! Laws of the first line of each connection.

ghost use Rattle.imap_service.specs.Laws.{AnyCut, BeginsByWord};

/// A line begins a command of IMAP if a tag, one space and a command's word stand at its front, and then a space, CR or
/// LF, and none once it can't any more.
pub fn begins_by_word()
    ensures { BeginsByWord }
{}

/// Where the octets of a line are cut makes no difference.
pub fn any_cut()
    ensures { AnyCut }
{}
