//! Laws of every stream.

ghost use Rattle.imap_lex.specs.Mark.{MarksAreRead, MarksAreFound};
ghost use Rattle.imap_lex.specs.Stream.{LinesAreRead, LinesAreFound, EachHasReading};
ghost use Rattle.imap_lex.specs.Stream.{HasOneReading, FramesAsRead, AnyCut};

/// Each stream consists, in exactly one way, of commands and dropped beginnings of commands, and then
/// of octets that are no command yet or after which nothing is read. A framer returns the frames of
/// the former and holds the latter.
pub fn one_reading()
    ensures each { EachHasReading }
    ensures once { HasOneReading }
    ensures frames { FramesAsRead }
{}

/// Two pieces have the frames of the stream that they make together, wherever it was cut.
pub fn any_cut()
    ensures { AnyCut }
{}

/// A line announces a literal exactly if it ends with digits in braces, and its size
/// is the number of these digits.
pub fn one_mark()
    ensures read { MarksAreRead }
    ensures found { MarksAreFound }
{}

/// The length of a first line is found exactly if the octets begin with a line.
pub fn one_line()
    ensures read { LinesAreRead }
    ensures found { LinesAreFound }
{}
