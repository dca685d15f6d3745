//! Laws of what is told, and of parts.

ghost use Rattle.imap_structure.specs.Laws.{EachIsOneLine, MessagesArePieces, PartsArePieces, StructuresTellParts};

/// A client reads a structure as text of one line, whatever the message holds.
pub fn each_is_one_line()
    ensures { EachIsOneLine }
{}

/// The structure of a multipart tells the parts that are named by the numbers from 1 on. A part, or a message
/// in one, is a piece of the message.
pub fn parts_are_numbered()
    ensures told { StructuresTellParts }
    ensures parts { PartsArePieces }
    ensures messages { MessagesArePieces }
{}
