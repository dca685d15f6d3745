//! Laws of the dialect with names in modified UTF-7.

ghost use Rattle.imap_rev1.specs.NameLaws.{AllAreRead, EachIsOneLine, EndsByEnabled, NamesStay, PlainRepliesStay};
ghost use Rattle.imap_rev1.specs.NameLaws.{PrintsConditions, PrintsOthers, ReadsShown, SeesTexts, StaysEnabled};
ghost use Rattle.imap_rev1.specs.NameLaws.{StaysOne, StaysUntilEnabled};

/// A command becomes one command with the same tag. It is the same request, with the texts of its names.
pub fn sees_texts()
    ensures stay { NamesStay }
    ensures texts { SeesTexts }
    ensures one { StaysOne }
{}

/// A name that was told is read as that name.
pub fn reads_shown()
    ensures { ReadsShown }
{}

/// A client reads each line in which a reply is told as one line, and just these lines in all, if the names and
/// other texts in the replies have neither CR nor LF.
pub fn tells_lines()
    ensures one { EachIsOneLine }
    ensures all { AllAreRead }
{}

/// Replies to frames that are not named are printed with the spellings of their names, and conditions as they
/// are.
pub fn prints_others()
    ensures others { PrintsOthers }
    ensures conditions { PrintsConditions }
    ensures plain { PlainRepliesStay }
{}

/// Names are in UTF-8 from the reply on that says that IMAP4rev2 is enabled, or that answers an ENABLE of
/// UTF8=ACCEPT.
pub fn ends_by_enabled()
    ensures before { StaysUntilEnabled }
    ensures after { StaysEnabled }
    ensures ends { EndsByEnabled }
{}
